ghost use Rattle.std.specs.Prelude.{◌≡◌, [], ◌∷◌, ◌++◌, length, IfOk, OnOk, OnErr};

use crate::Bytes;
use std::alloc::{AllocError, Global};
use std::marker::Model;

/// A row.
///
/// A store's tables are numbered from 1. A key has 1 to 64 bytes and never changes. The tag is any number; rows are
/// found by it. A body may be empty.
#[derive(Debug, Drop)]
pub struct Row {
    pub table: u8,
    pub key: Bytes,
    pub tag: u32,
    pub body: Bytes,
}

impl Row {
    /// An equal one; fails only for want of memory.
    pub fn copy(&self) -> Result<Row, AllocError>
        ensures { IfOk result (λ copy. copy ≡ self.now) }
    {
        let key = self.key.copy()?;
        let body = self.body.copy()?;
        Ok(Row {
            table: self.table,
            key,
            tag: self.tag,
            body,
        })
    }
}

/// A list of rows. Contracts see it as that.
#[derive(Debug, Drop)]
pub struct RowList {
    rows: Vec<Row>,
}

impl Model for RowList {
    ghost use Rattle.std.specs.Prelude.{List};
    ghost use Rattle.px_model.specs.declared.row.Row.{Row};

    ghost Value = { List Row };

    ghost view = { λ it. it.rows.items };
}

impl RowList {
    /// No rows.
    pub fn new(alloc: Global) -> RowList
        ensures { result ≡ [] }
    {
        RowList {
            rows: Vec::new(alloc),
        }
    }

    /// These rows.
    pub fn from_vec(rows: Vec<Row>) -> RowList
        ensures { result ≡ rows.items }
    {
        RowList { rows }
    }

    /// The rows as a `Vec`, which is not copied.
    pub fn into_vec(self) -> Vec<Row>
        ensures { result.items ≡ self }
    {
        let RowList { rows } = self;
        rows
    }

    pub fn as_slice(&self) -> &[Row]
        ensures { result.now ≡ self.now }
    {
        self.rows.as_slice()
    }

    /// Appends a row. Without memory the list stays as it was.
    pub fn push(&mut self, row: Row) -> Result<(), AllocError>
        ensures ok { OnOk result (self.new ≡ self.old ++ row ∷ []) }
        ensures err { OnErr result (self.new ≡ self.old) }
    {
        self.rows.push(row)?;
        Ok(())
    }

    /// An equal one; fails only for want of memory.
    pub fn copy(&self) -> Result<RowList, AllocError>
        ensures { IfOk result (λ copy. copy ≡ self.now) }
    {
        let mut rows = Vec::new(*self.rows.allocator());
        for row in &self.rows {
            rows.push(row.copy()?)?;
        }
        Ok(RowList { rows })
    }
}
