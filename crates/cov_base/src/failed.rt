//! The refusal of the outside, which no caller can rule out.
use thiserror::Error;

/// The outside failed: a read, a write or a load could not be made.
#[derive(Clone, Copy, Debug, PartialEq, Eq, Error)]
#[error("the outside failed")]
pub struct Failed;
