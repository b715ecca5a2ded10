//! How a run ended.
use script_grammar::Fault;

/// How a run ended. `replay` and `show_messages` have the order in which statuses come.
#[derive(Debug, Drop)]
pub enum Status {
    /// The input was read to its end, and the whole text was written.
    Done,
    /// The words are no command; nothing was read or written.
    Usage,
    /// The line of this number, from 1, is the first bad one, and this is its fault.
    BadLine { line: u32, why: Fault },
    /// The input could not be read.
    ReadFault,
    /// The text could not be written.
    WriteFault,
    /// Memory ran out.
    NoMemory,
    /// The run would have an 8,193rd datagram in flight.
    Crowded,
    /// The input is longer than 4,194,304 bytes.
    TooLong,
}

impl Status {
    ghost use Rattle.std.specs.Prelude.{◌≡◌};
    ghost use Rattle.command_run.specs.Statuses.{code_of};

    /// The exit status of the program.
    pub fn code(&self) -> u8
        ensures { result ≡ code_of self.now }
    {
        match self {
            Status::Done => 0,
            Status::Usage => 1,
            Status::BadLine { .. } => 2,
            Status::ReadFault => 3,
            Status::WriteFault => 4,
            Status::NoMemory => 5,
            Status::Crowded => 6,
            Status::TooLong => 7,
        }
    }
}
