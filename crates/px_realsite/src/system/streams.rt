//! The numbers of the standard streams, which no file of a store has.
ghost use Rattle.std.specs.Prelude.{◌↔◌, IfOk, IsTrue};
ghost use Rattle.px_realsite.specs.Streams.{IsNoStream};

use std::fs::File;
use std::io::{self, ErrorKind};
use std::os::fd::{AsRawFd, RawFd};

/// The greatest number of a standard stream: input has 0, output 1, errors 2.
const LAST_STREAM: RawFd = 2;

/// The same open file, under a number that is no stream's.
///
/// To a file that is opened the system gives the least number that is free. Where the process was started with a stream
/// closed, that is the stream's, and what is told would be written into the file. The number is free again at the end, so
/// that the stream stays a closed one, which answers errors. In between nothing is told, since that wants the site, which is
/// lent to the call that opens the file.
pub(super) fn apart_from_streams(file: File) -> io::Result<File>
    ensures apart { IfOk result IsNoStream }
{
    if is_no_stream(&file) {
        return Ok(file);
    }
    // A copy of a handle gets the least free number from 3 on.
    let copy = file.try_clone()?;
    if is_no_stream(&copy) {
        Ok(copy)
    } else {
        Err(ErrorKind::Other.into())
    }
}

fn is_no_stream(file: &File) -> bool
    ensures { IsTrue result ↔ IsNoStream file.now }
{
    file.as_raw_fd() > LAST_STREAM
}
