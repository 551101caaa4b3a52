//! Why a command ends before its text is printed.
ghost use Rattle.std.specs.Prelude.{◌≡◌, IfOk};
ghost use Rattle.covd_commands.specs.declared.stop.Stop.TheVariants as stops;

use crate::Status;
use crate::answer::Answer;
use cov_base::Memory;

/// Want of memory, or the status and the line of a refusal.
#[derive(Drop)]
pub enum Stop {
    Memory,
    Refused(Answer),
}

impl From<Memory> for Stop {
    ghost from_gives = { λ _ e. e ≡ stops.Memory };

    fn from(_: Memory) -> Self {
        Stop::Memory
    }
}

impl Stop {
    /// A refusal with this status and line.
    pub fn with(status: Status, text: Vec<u8>) -> Stop
        ensures { result ≡ stops.Refused (record { status = status; text = text }) }
    {
        Stop::Refused(Answer { status, text })
    }

    /// The answer of the command.
    pub fn into_answer(self) -> Result<Answer, Memory>
        ensures { IfOk result (λ a. self ≡ stops.Refused a) }
    {
        match self {
            Stop::Refused(answer) => Ok(answer),
            Stop::Memory => Err(Memory),
        }
    }
}
