ghost use Rattle.std.specs.Prelude.{◌≡◌, IfOk};

use px_model::Bytes;
use std::alloc::AllocError;

/// What a session asks (docs/FORMATS.md, 'Script lines').
///
/// Tables, keys, tags and tickets are as they were asked for: that one is out of range is for the reply to say.
#[derive(Debug, Drop)]
pub enum Call {
    /// Opens a transaction.
    Begin,
    /// Reads a row.
    Get {
        table: u32,
        key: Bytes,
    },
    /// Reads a row and keeps it by a ticket, for as long as the transaction is open.
    Hold {
        table: u32,
        key: Bytes,
    },
    /// Reads the row that a ticket keeps; the first ticket is 1.
    Fetch {
        ticket: u32,
    },
    /// Reads the rows of a table that have a tag.
    Find {
        table: u32,
        tag: u32,
    },
    /// Reads the rows of a table.
    Scan {
        table: u32,
    },
    /// Writes a row that isn't there.
    Insert {
        table: u32,
        key: Bytes,
        tag: u32,
        body: Bytes,
    },
    /// Writes a row in the place of the one that is there.
    Update {
        table: u32,
        key: Bytes,
        tag: u32,
        body: Bytes,
    },
    /// Takes a row away.
    Delete {
        table: u32,
        key: Bytes,
    },
    /// Ends the transaction, and its writes stand.
    Commit,
    /// Ends the transaction, and its writes are undone.
    Rollback,
}

impl Call {
    /// An equal call; fails only for want of memory.
    pub fn copy(&self) -> Result<Call, AllocError>
        ensures { IfOk result (λ copy. copy ≡ self.now) }
    {
        match self {
            Call::Begin => Ok(Call::Begin),
            Call::Get { table, key } => Ok(Call::Get {
                table: *table,
                key: key.copy()?,
            }),
            Call::Hold { table, key } => Ok(Call::Hold {
                table: *table,
                key: key.copy()?,
            }),
            Call::Fetch { ticket } => Ok(Call::Fetch { ticket: *ticket }),
            Call::Find { table, tag } => Ok(Call::Find {
                table: *table,
                tag: *tag,
            }),
            Call::Scan { table } => Ok(Call::Scan { table: *table }),
            Call::Insert {
                table,
                key,
                tag,
                body,
            } => Ok(Call::Insert {
                table: *table,
                key: key.copy()?,
                tag: *tag,
                body: body.copy()?,
            }),
            Call::Update {
                table,
                key,
                tag,
                body,
            } => Ok(Call::Update {
                table: *table,
                key: key.copy()?,
                tag: *tag,
                body: body.copy()?,
            }),
            Call::Delete { table, key } => Ok(Call::Delete {
                table: *table,
                key: key.copy()?,
            }),
            Call::Commit => Ok(Call::Commit),
            Call::Rollback => Ok(Call::Rollback),
        }
    }
}
