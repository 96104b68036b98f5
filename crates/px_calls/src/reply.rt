ghost use Rattle.std.specs.Prelude.{◌≡◌, IfOk, IsOk, false};
ghost use Rattle.px_calls.specs.Kinds.{has_rows};
ghost use Rattle.px_calls.specs.Steps.{is_refusal};

use px_model::{Row, RowList};
use px_site::FileName;
use std::alloc::AllocError;

/// What a session's call or a step of an activity answers. Its text is `reply_text`.
#[derive(Debug, Drop)]
pub enum Reply {
    /// A transaction is open; its number, which counts the begins since the opening from 1.
    Began(u64),
    /// The row that was asked for.
    RowIs(Row),
    /// There is no such row.
    NoRow,
    /// The row is kept; its ticket, from 1.
    Held(u32),
    /// The rows that were asked for, in order of key.
    Rows(RowList),
    Inserted,
    Updated,
    Deleted,
    /// The transaction's writes stand; how many commits the store has with this one.
    Committed(u64),
    /// The transaction is closed and had no writes.
    EndedEmpty,
    RolledBack,

    /// Refused: the session has no open transaction.
    NoTransaction,
    /// Refused: the session has an open transaction.
    OpenAlready,
    /// Refused: as many transactions began as may begin before the next opening, or the stored numbers are spent.
    LimitBegins,
    /// Refused: the table isn't one of the store's.
    NoTable,
    /// Refused: the key is empty or too long.
    LimitKey,
    /// Refused: the body is too long.
    LimitBody,
    /// Refused: the transaction has as many writes as it may.
    LimitWrites,
    /// Refused: the transaction has as many tickets as it may.
    LimitTickets,
    /// Refused: the transaction has no such ticket.
    NoTicket,
    /// Refused: the number of the transaction that wrote the key first.
    Conflict(u64),
    /// Refused: the row is there.
    Duplicate,
    /// Refused: the row isn't there.
    Missing,
    /// Refused: the table has as many versions as it may, which is the number.
    TableFull(u32),

    /// The writer put this frame into the table files.
    Applied(u64),
    /// The sweeper passed a write of the transaction with this number.
    Swept(u64),
    /// The compactor moved a part out of this data log.
    Moved(u32),
    /// The compactor removed this data log.
    Dropped(u32),
    /// The checkpointer noted where the log stands.
    Noted,
    /// The checkpointer synced this file.
    Synced(FileName),
    /// The checkpointer wrote the restart file with this serial.
    Saved(u64),
    /// The checkpointer removed this segment of the transaction log.
    Trimmed(u32),
    /// The activity has nothing to do.
    Idle,
}

impl Reply {
    /// An equal reply. Takes memory for a row and for rows alone, and fails only for want of it.
    pub fn copy(&self) -> Result<Reply, AllocError>
        ensures ok { IfOk result (λ copy. copy ≡ self.now) }
        ensures plain { has_rows self.now ≡ false → IsOk result }
    {
        match self {
            Reply::Began(n) => Ok(Reply::Began(*n)),
            Reply::RowIs(row) => Ok(Reply::RowIs(row.copy()?)),
            Reply::NoRow => Ok(Reply::NoRow),
            Reply::Held(n) => Ok(Reply::Held(*n)),
            Reply::Rows(rows) => Ok(Reply::Rows(rows.copy()?)),
            Reply::Inserted => Ok(Reply::Inserted),
            Reply::Updated => Ok(Reply::Updated),
            Reply::Deleted => Ok(Reply::Deleted),
            Reply::Committed(n) => Ok(Reply::Committed(*n)),
            Reply::EndedEmpty => Ok(Reply::EndedEmpty),
            Reply::RolledBack => Ok(Reply::RolledBack),
            Reply::NoTransaction => Ok(Reply::NoTransaction),
            Reply::OpenAlready => Ok(Reply::OpenAlready),
            Reply::LimitBegins => Ok(Reply::LimitBegins),
            Reply::NoTable => Ok(Reply::NoTable),
            Reply::LimitKey => Ok(Reply::LimitKey),
            Reply::LimitBody => Ok(Reply::LimitBody),
            Reply::LimitWrites => Ok(Reply::LimitWrites),
            Reply::LimitTickets => Ok(Reply::LimitTickets),
            Reply::NoTicket => Ok(Reply::NoTicket),
            Reply::Conflict(n) => Ok(Reply::Conflict(*n)),
            Reply::Duplicate => Ok(Reply::Duplicate),
            Reply::Missing => Ok(Reply::Missing),
            Reply::TableFull(n) => Ok(Reply::TableFull(*n)),
            Reply::Applied(n) => Ok(Reply::Applied(*n)),
            Reply::Swept(n) => Ok(Reply::Swept(*n)),
            Reply::Moved(n) => Ok(Reply::Moved(*n)),
            Reply::Dropped(n) => Ok(Reply::Dropped(*n)),
            Reply::Noted => Ok(Reply::Noted),
            Reply::Synced(n) => Ok(Reply::Synced(*n)),
            Reply::Saved(n) => Ok(Reply::Saved(*n)),
            Reply::Trimmed(n) => Ok(Reply::Trimmed(*n)),
            Reply::Idle => Ok(Reply::Idle),
        }
    }

    /// Whether a session's call was refused, so that it left the store as it was.
    pub fn is_refusal(&self) -> bool
        ensures { result ≡ is_refusal self.now }
    {
        match self {
            Reply::NoTransaction
            | Reply::OpenAlready
            | Reply::LimitBegins
            | Reply::NoTable
            | Reply::LimitKey
            | Reply::LimitBody
            | Reply::LimitWrites
            | Reply::LimitTickets
            | Reply::NoTicket
            | Reply::Conflict(_)
            | Reply::Duplicate
            | Reply::Missing
            | Reply::TableFull(_) => true,
            Reply::Began(_)
            | Reply::RowIs(_)
            | Reply::NoRow
            | Reply::Held(_)
            | Reply::Rows(_)
            | Reply::Inserted
            | Reply::Updated
            | Reply::Deleted
            | Reply::Committed(_)
            | Reply::EndedEmpty
            | Reply::RolledBack
            | Reply::Applied(_)
            | Reply::Swept(_)
            | Reply::Moved(_)
            | Reply::Dropped(_)
            | Reply::Noted
            | Reply::Synced(_)
            | Reply::Saved(_)
            | Reply::Trimmed(_)
            | Reply::Idle => false,
        }
    }
}
