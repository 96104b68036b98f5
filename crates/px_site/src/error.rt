// Why a call on a site failed.

/// The kind of the call that failed: each kind of call has a fault of its own.
#[derive(Clone, Copy, Debug, PartialEq, Eq)]
pub enum Fault {
    /// `len` or `read_at`.
    Read,
    /// `write_at` or `cut`.
    Write,
    /// `sync`.
    Sync,
    /// `remove`.
    Remove,
    /// `list`.
    List,
    /// `tell`, which no file call answers.
    Tell,
}

/// Why a call answered no value. Each answer is counted (`Tally`).
#[derive(Clone, Copy, Debug, PartialEq, Eq)]
pub enum SiteError {
    /// Memory ran out before anything was done: the site is as it was.
    OutOfMemory,
    /// The files or the output refused. A call that changes something may then have done a part of it.
    Fault(Fault),
}
