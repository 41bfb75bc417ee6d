//! How a run ends.
ghost use Rattle.std.specs.Prelude.{◌≡◌};
ghost use Rattle.ht_calc.specs.Statuses.{number_of};

/// How a run ended.
#[derive(Clone, Copy, Debug, PartialEq, Eq)]
pub enum Status {
    /// All answers were written, and none is a refusal.
    Done,
    /// All answers were written, and some are refusals.
    SomeRefused,
    /// The command doesn't take the words of the command line; nothing was read or written.
    BadWords,
    /// The source failed.
    ReadFault,
    /// The sink failed.
    WriteFault,
    /// No memory was found.
    NoMemory,
    /// The script is longer than the limit.
    TooLong,
}

impl Status {
    /// The number that the program ends with, from 0 to 6 in the order above. Takes no memory.
    pub fn number(&self) -> u8
        ensures { result ≡ number_of self.now }
    {
        match self {
            Status::Done => 0,
            Status::SomeRefused => 1,
            Status::BadWords => 2,
            Status::ReadFault => 3,
            Status::WriteFault => 4,
            Status::NoMemory => 5,
            Status::TooLong => 6,
        }
    }
}
