ghost use Rattle.std.specs.Prelude.{◌≡◌, ◌-◌, ◌∷◌, [], ◌++◌, length, take, OnOk, OnErr};

use px_model::Bytes;
use std::alloc::{AllocError, Global};
use std::marker::Model;

/// Where a write stands: its row pointer and its slot in the table, both from 1, or 0 where tables have none; and the key
/// of its row.
#[derive(Debug, Drop)]
pub struct WriteAt {
    pub table: u8,
    pub row: u32,
    pub slot: u32,
    pub key: Bytes,
}

/// A list of places of writes, the oldest write first. Contracts see it as that.
#[derive(Debug, Drop)]
pub struct WriteAtList {
    writes: Vec<WriteAt>,
}

impl Model for WriteAtList {
    ghost use Rattle.std.specs.Prelude.{List};
    ghost use Rattle.px_xacts.specs.declared.write.WriteAt.{WriteAt};

    ghost Value = { List WriteAt };

    ghost view = { λ it. it.writes.items };
}

impl WriteAtList {
    /// No writes.
    pub fn new(alloc: Global) -> WriteAtList
        ensures { result ≡ [] }
    {
        WriteAtList {
            writes: Vec::new(alloc),
        }
    }

    /// The writes as a `Vec`, which is not copied.
    pub fn into_vec(self) -> Vec<WriteAt>
        ensures { result.items ≡ self }
    {
        let WriteAtList { writes } = self;
        writes
    }

    pub fn as_slice(&self) -> &[WriteAt]
        ensures { result.now ≡ self.now }
    {
        self.writes.as_slice()
    }

    /// Appends a write. Without memory the list stays as it was.
    pub fn push(&mut self, write: WriteAt) -> Result<(), AllocError>
        ensures ok { OnOk result (self.new ≡ self.old ++ write ∷ []) }
        ensures err { OnErr result (self.new ≡ self.old) }
    {
        self.writes.push(write)?;
        Ok(())
    }

    /// Drops the last write, if there is one.
    pub fn drop_last(&mut self)
        ensures { self.new ≡ take (length self.old - 1) self.old }
    {
        let _last = self.writes.pop();
    }
}
