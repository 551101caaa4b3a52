//! A word, and the place of what it stands for.

use cov_base::Int;
use cov_tree::List as Word;

/// A word, with its last value first, and the place of what it stands for.
#[derive(Drop)]
pub struct PlacedWord {
    pub word: Word<Int>,
    pub place: u32,
}
