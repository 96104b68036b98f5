// Where frames stand: in which file, at which place, and under which numbers. Until there are segments, the log is one
// file, and its frames are numbered from 0. Segments change this module alone.
ghost use Rattle.std.specs.Prelude.{◌≡◌};
ghost use Rattle.px_xlog.specs.Contents.{the_log};

use px_site::FileName;

/// The least number that no frame gets.
pub const MOST_FRAMES: u64 = 1 << 32;

pub const ONLY_SEGMENT: u32 = 1;

pub const FIRST_NUMBER: u64 = 0;

/// The file of the log.
pub fn log_file() -> FileName
    ensures { result ≡ the_log }
{
    FileName::Xlog(ONLY_SEGMENT)
}
