//! Street: wire.
//!
//! Laws of sessions. These functions do nothing: each is called for what its contract says.
#![tactic(auto)]

ghost use Rattle.session_laws.specs.Laws.{AloneIsOne, AloneIsNeverLate};
ghost use Rattle.session_laws.specs.Fitting.{AnswersHaveFrames};
ghost use Rattle.session_laws.specs.Outputs.{OneOutput};

/// The opening design, the history and the bodies decide the replies and the entries of a caller who is alone, where no
/// reply is Memory.
pub fn alone_is_one()
    ensures { AloneIsOne }
{}

/// A caller who is alone over a history without a Stop is never answered Moved or Stopped.
pub fn alone_is_never_late()
    ensures { AloneIsNeverLate }
{}

/// The opening design, the history and the bytes that come decide what a session writes for a caller who is alone, however
/// these bytes are cut by reads, where the session came to an orderly end and no reply is Memory.
pub fn one_output()
    ensures { OneOutput }
{}

/// Each answer at a legal history has a spelling that a frame can hold, where the paths of the design's nodes have one: so
/// Memory is said in the place of no other answer.
pub fn answers_have_frames()
    ensures { AnswersHaveFrames }
{}
