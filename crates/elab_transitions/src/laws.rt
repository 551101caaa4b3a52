//! Laws of the definitions.
ghost use Rattle.elab_transitions.specs.Laws.{TestsLists, ArrayIsItsLists, DroppedAddsNothing, ScalarStays, MadeIsWithin, LeftHasSeq};

/// The test by which removal tells whether a list of known values is one of a removing sequence says what a window is.
pub fn tests_lists()
    ensures { TestsLists }
{}

/// The bins left of an array are those of the distinct lists of known values that its sequences have and that no removing
/// sequence has.
pub fn array_is_its_lists()
    ensures { ArrayIsItsLists }
{}

/// A bin that removal drops adds no window that isn't one of the removing sequences.
pub fn dropped_adds_nothing()
    ensures { DroppedAddsNothing }
{}

/// A scalar bin stays where one of its sequences has a number for each of its items and is none of the removing ones.
pub fn scalar_stays()
    ensures { ScalarStays }
{}

/// The bins of a declaration are within their limits.
pub fn made_is_within()
    ensures { MadeIsWithin }
{}

/// A bin that removal leaves has a sequence left, as each transition bin of a design has.
pub fn left_has_seq()
    ensures { LeftHasSeq }
{}
