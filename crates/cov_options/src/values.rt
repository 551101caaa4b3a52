//! What an option is set to, and where.
use cov_base::Int;
use cov_tree::Name;
use thiserror::Error;

/// What an option is set in.
#[derive(Clone, Copy, PartialEq, Eq)]
pub enum Level {
    /// A covergroup.
    Group,
    /// A coverpoint.
    Point,
    /// A cross.
    Cross,
}

/// What an option is set to.
#[derive(Drop)]
pub enum OptValue {
    /// The value of a constant expression.
    Number(Int),
    /// A string, without its quotes.
    Text(Name),
}

/// Why an option isn't set.
#[derive(Clone, Copy, Debug, PartialEq, Eq, Error)]
pub enum OptFault {
    /// There is no option of this word and name.
    #[error("there is no such option")]
    UnknownOption,
    /// The option can't be set in what it stands in.
    #[error("the option can't be set here")]
    WrongLevel,
    /// The option takes no such value: a string where a number stands or the reverse, or a number outside its range.
    #[error("the option has no such value")]
    OutOfRange,
    /// The option was set before.
    #[error("the option is set twice")]
    SetTwice,
}
