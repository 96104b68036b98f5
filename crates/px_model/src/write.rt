ghost use Rattle.std.specs.Prelude.{◌≡◌, [], ◌∷◌, ◌++◌, length, IfOk, OnOk, OnErr};

use crate::{Bytes, Row};
use std::alloc::{AllocError, Global};
use std::marker::Model;

/// What a transaction writes: a row in the place of the one with its key, if there is one, or the deletion of a row.
#[derive(Debug, Drop)]
pub enum Write {
    Put(Row),
    Delete { table: u8, key: Bytes },
}

impl Write {
    /// An equal one; fails only for want of memory.
    pub fn copy(&self) -> Result<Write, AllocError>
        ensures { IfOk result (λ copy. copy ≡ self.now) }
    {
        match self {
            Write::Put(row) => Ok(Write::Put(row.copy()?)),
            Write::Delete { table, key } => Ok(Write::Delete {
                table: *table,
                key: key.copy()?,
            }),
        }
    }
}

/// A list of writes, the oldest first. Contracts see it as that.
#[derive(Debug, Drop)]
pub struct Writes {
    writes: Vec<Write>,
}

impl Model for Writes {
    ghost use Rattle.std.specs.Prelude.{List};
    ghost use Rattle.px_model.specs.declared.write.Write.{Write};

    ghost Value = { List Write };

    ghost view = { λ it. it.writes.items };
}

impl Writes {
    /// No writes.
    pub fn new(alloc: Global) -> Writes
        ensures { result ≡ [] }
    {
        Writes {
            writes: Vec::new(alloc),
        }
    }

    /// These writes.
    pub fn from_vec(writes: Vec<Write>) -> Writes
        ensures { result ≡ writes.items }
    {
        Writes { writes }
    }

    /// The writes as a `Vec`, which is not copied.
    pub fn into_vec(self) -> Vec<Write>
        ensures { result.items ≡ self }
    {
        let Writes { writes } = self;
        writes
    }

    pub fn as_slice(&self) -> &[Write]
        ensures { result.now ≡ self.now }
    {
        self.writes.as_slice()
    }

    /// Appends a write. Without memory the list stays as it was.
    pub fn push(&mut self, write: Write) -> Result<(), AllocError>
        ensures ok { OnOk result (self.new ≡ self.old ++ write ∷ []) }
        ensures err { OnErr result (self.new ≡ self.old) }
    {
        self.writes.push(write)?;
        Ok(())
    }

    /// An equal one; fails only for want of memory.
    pub fn copy(&self) -> Result<Writes, AllocError>
        ensures { IfOk result (λ copy. copy ≡ self.now) }
    {
        let mut writes = Vec::new(*self.writes.allocator());
        for write in &self.writes {
            writes.push(write.copy()?)?;
        }
        Ok(Writes { writes })
    }
}
