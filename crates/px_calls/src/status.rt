ghost use Rattle.std.specs.Prelude.{◌≡◌};
ghost use Rattle.px_calls.specs.Closing.{code_of};

use px_site::{Fault, FileName};

/// How a run ends. Its closing line is `closing_line`, its exit status `code`.
#[derive(Clone, Copy, Debug)]
pub enum Status {
    /// All that was asked for was done and told.
    Done,
    /// The words of the command line are no command.
    Usage,
    /// This line of the script, from 1, is outside the grammar.
    BadLine(u64),
    /// There is no store to open.
    NoStore,
    /// There is a store or another file where one is to be made.
    NotEmpty,
    /// What was read at this place isn't what a store has there.
    Damaged { file: FileName, place: u64 },
    /// A call on a file failed; never `Fault::Tell`.
    DiskFault(Fault),
    /// The script couldn't be read.
    SourceFault,
    /// What was to be told couldn't be.
    OutputFault,
    OutOfMemory,
    /// A frame, a file of the log or a restart would have this number, which is one too great.
    LogFull(u64),
    /// The script is longer than a run reads.
    TooLong,
}

impl Status {
    /// The exit status, from 0 to 11 in the order of the variants.
    pub fn code(&self) -> u8
        ensures { result ≡ code_of self.now }
    {
        match self {
            Status::Done => 0,
            Status::Usage => 1,
            Status::BadLine(_) => 2,
            Status::NoStore => 3,
            Status::NotEmpty => 4,
            Status::Damaged { file: _, place: _ } => 5,
            Status::DiskFault(_) => 6,
            Status::SourceFault => 7,
            Status::OutputFault => 8,
            Status::OutOfMemory => 9,
            Status::LogFull(_) => 10,
            Status::TooLong => 11,
        }
    }
}
