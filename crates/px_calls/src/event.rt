use crate::Call;
use px_model::Session;

/// One of the four background activities. Each does one step at a time.
#[derive(Clone, Copy, Debug)]
pub enum Activity {
    /// Puts logged changes into the table files.
    Writer,
    /// Removes versions that nobody needs.
    Sweeper,
    /// Moves what is used out of data logs with much garbage, and removes these logs.
    Compactor,
    /// Bounds what an opening has to read again.
    Checkpointer,
}

/// One thing that a store is asked to do.
#[derive(Debug, Drop)]
pub enum Event {
    Session(Session, Call),
    Activity(Activity),
}
