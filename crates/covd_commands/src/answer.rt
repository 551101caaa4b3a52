//! What a command answers.
use crate::Status;

/// A status and the text that is printed with it.
#[derive(Drop)]
pub struct Answer {
    pub status: Status,
    pub text: Vec<u8>,
}
