use px_calls::Event;
use px_model::{Bytes, Session};

/// A line of a script (docs/FORMATS.md, 'Script lines').
#[derive(Debug, Drop)]
pub enum Line {
    /// A session's call, or one step of an activity.
    Step(Event),
    /// A session looks up what is committed. `pbxtw` alone takes it.
    Peek {
        session: Session,
        table: u32,
        key: Bytes,
    },
    /// Steps of the activities, until none has anything left to do.
    Drain,
    /// The counts of the store.
    Stat,
}
