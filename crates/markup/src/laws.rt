//! What holds of texts that are written. The functions do nothing: they stand for the laws that they ensure.
ghost use Rattle.markup.specs.Laws.{IsReadBack, IsSafe, IsMarkedAlike};

/// What is written of bytes is read as these bytes.
#[tactic(auto, using(crate::proofs::ReadBack::read_back))]
pub fn read_back()
    ensures { IsReadBack }
{}

/// What is written of bytes is printable, and holds no byte of markup but as the first of a reference.
#[tactic(auto, using(crate::proofs::Safe::safe))]
pub fn safe()
    ensures { IsSafe }
{}

/// Nothing that an attribute or a text says makes a mark.
#[tactic(auto, using(crate::proofs::Marks::marked_alike))]
pub fn marked_alike()
    ensures { IsMarkedAlike }
{}
