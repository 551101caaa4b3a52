//! What holds of texts that are written. The functions do nothing: they stand for the laws that they ensure.
ghost use Rattle.json_text.specs.Laws.{IsToldWhole, IsReadBack};

/// Any bytes can be had back from the characters of their string.
#[tactic(auto, using(crate::proofs::ReadBack::told_whole))]
pub fn told_whole()
    ensures { IsToldWhole }
{}

/// What is written is read as the value that it was written of.
#[tactic(auto, using(crate::proofs::ReadBack::read_back))]
pub fn read_back()
    ensures { IsReadBack }
{}
