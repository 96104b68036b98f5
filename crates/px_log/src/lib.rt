//! The transaction log: frames of changes in one file. What these stand for in cells and rows is said above it.
//!
//! Seen from above, an `Xlog` is the list of the appended changes, of which the first `durable` are synced. `IsLogOf`
//! says so of a site, and the clauses `moments` say what a crash at any moment of a call leaves (docs/LOG.md).
//!
//! - `list`: a list of what frames say.
//! - `place`: in which file a frame stands, and from which number on. Segments will change it alone.
//! - `xlog`, `frame_buffer`: the log to which frames are appended, and the bytes of one frame.
//! - `open`, `reader`, `window`: the log is read from its file, and what is torn behind it is cut: in one call, or in two, so that the
//!   store's owner may look at what was read before anything is changed.
//! - `error`: why a frame isn't appended, and why a log isn't opened.
//!
//! The definitions: `specs/MayStand` which changes a log may have; `specs/Contents` what its bytes are, and where they are
//! damaged; `specs/Log` the log at every moment; `specs/Scanned` what was read of it; `specs/Errors` causes; `specs/Touching` that
//! no other file changes, and how many changing calls are made; `specs/Scanning` and `specs/Window` how it is read.
//! What a crash leaves of its bytes is px_xlog's `specs/Written`. The payloads of frames are px_change's.
#![tactic(auto)]

mod error;
mod frame_buffer;
mod list;
mod open;
mod place;
mod reader;
mod window;
mod xlog;

pub use error::{LogError, LogOpenError};
pub use list::ChangeList;
pub use open::{open_log, scan_log};
pub use reader::LogScan;
pub use xlog::Xlog;
