//! How a command ended.
ghost use Rattle.std.specs.Prelude.{◌≡◌};
ghost use Rattle.covd_commands.specs.Statuses.{number_of};

/// The exit status of a command.
#[derive(Clone, Copy, PartialEq, Eq)]
pub enum Status {
    /// The text was printed whole.
    Done,
    /// Memory ran out; nothing was printed.
    Memory,
    /// The words are no command.
    BadWords,
    /// The design text is refused.
    DesignRefused,
    /// A record is refused: it doesn't decode, or doesn't fit the design.
    RecordRefused,
    /// A record is not admitted: its id is taken, or a limit would be passed.
    AdmitRefused,
    /// The input could not be read.
    ReadFault,
    /// The text, or a reply, could not be written whole.
    WriteFault,
    /// A file could not be read.
    ShelfFault,
    /// The input ended inside a frame.
    TornFrame,
    /// A frame states a length that no body has.
    FrameTooLong,
    /// A session took as many bytes as it may, and more were wanted.
    SessionTooLong,
    /// A file is longer than its limit.
    FileTooLong,
    /// A dump is refused: it can't be read, or gives no record.
    DumpRefused,
    /// The server's address can't be listened on, or all its workers have ended.
    NoWorker,
    /// The text was printed whole, and records that couldn't be taken in were left out.
    Partly,
    /// The text was printed whole, and coverage overall is below the goal.
    BelowGoal,
    /// The file of waivers is refused.
    WaiversRefused,
}

impl Status {
    /// The number with which the program ends.
    pub const fn number(self) -> u8
        ensures { result ≡ number_of self }
    {
        match self {
            Status::Done => 0,
            Status::Memory => 1,
            Status::BadWords => 2,
            Status::DesignRefused => 3,
            Status::RecordRefused => 4,
            Status::AdmitRefused => 5,
            Status::ReadFault => 6,
            Status::WriteFault => 7,
            Status::ShelfFault => 8,
            Status::TornFrame => 9,
            Status::FrameTooLong => 10,
            Status::SessionTooLong => 11,
            Status::FileTooLong => 12,
            Status::DumpRefused => 13,
            Status::NoWorker => 14,
            Status::Partly => 18,
            Status::BelowGoal => 19,
            Status::WaiversRefused => 20,
        }
    }
}
