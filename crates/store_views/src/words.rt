//! The words of what is told.
ghost use Rattle.std.specs.Prelude.{◌≡◌};
ghost use Rattle.store_views.specs.Words.{status_word as status_meant, state_word as state_meant};

use crate::BinState;

/// The version of the program.
pub const VERSION: &str = "0.1.0";

/// How a test ended, by its status: 0, 1, 2, or another number.
pub fn status_word(status: u8) -> &'static str
    ensures { result.now ≡ status_meant status }
{
    match status {
        0 => "OK",
        1 => "WARNING",
        2 => "ERROR",
        _ => "FATAL",
    }
}

/// How a bin stands.
pub fn state_word(state: BinState) -> &'static str
    ensures { result.now ≡ state_meant state }
{
    match state {
        BinState::Covered => "covered",
        BinState::Hole => "hole",
        BinState::Out => "out",
        BinState::Uncounted => "-",
    }
}
