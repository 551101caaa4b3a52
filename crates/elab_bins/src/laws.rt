//! What holds of the bins of points. Each function does nothing: it stands for the law that it ensures.
ghost use Rattle.elab_bins.specs.Laws.{RemovalKeepsListed, RemovalIsExact, PartsAreWhole, PartsAreApart, SinglesAreListed, BinsAreNamed, RestsAreNamed, AutomaticCuts};

/// What removal takes away stays listed by an ignore or an illegal bin: the sets left of a point's bins have together the
/// numbers of those that are declared, automatic ones included (IEEE 1800-2017, 19.5.5 and 19.5.6).
pub fn removal_keeps_what_is_listed()
    ensures { RemovalKeepsListed }
{}

/// Removal leaves of each bin exactly the numbers that aren't taken from it: no coverage or ignore bin has a number of an
/// illegal bin, no coverage bin one of an ignore bin, and no other number is gone (IEEE 1800-2017, 19.5.5 and 19.5.6).
pub fn removal_is_exact()
    ensures { RemovalIsExact }
{}

/// The parts of `b[n]` have together exactly the listed numbers, each as often as it is listed (IEEE 1800-2017, 19.5.1).
pub fn parts_are_the_listed_numbers()
    ensures { PartsAreWhole }
{}

/// No two parts of `b[n]` share a number, where none is listed twice (IEEE 1800-2017, 19.5.1).
pub fn parts_are_apart()
    ensures { PartsAreApart }
{}

/// `b[]` has each listed number once, ascending (IEEE 1800-2017, 19.5.1).
pub fn singles_are_the_listed_numbers()
    ensures { SinglesAreListed }
{}

/// The names of the bins of one declaration differ.
pub fn names_of_bins_differ()
    ensures { BinsAreNamed }
{}

/// The names of the bins of an array of `default` differ.
pub fn names_of_rest_differ()
    ensures { RestsAreNamed }
{}

/// Automatic bins cut the numbers of a type into parts without a gap or an overlap (IEEE 1800-2017, 19.5.3).
pub fn automatic_bins_cut_their_type()
    ensures { AutomaticCuts }
{}
