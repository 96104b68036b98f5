ghost use Rattle.std.specs.Prelude.{◌≡◌, IfOk};

use crate::Bytes;
use std::alloc::AllocError;

/// What names a row: its table, from 1, and its key of 1 to 64 bytes.
#[derive(Debug, Drop)]
pub struct KeyOf {
    pub table: u8,
    pub key: Bytes,
}

impl KeyOf {
    /// An equal one; fails only for want of memory.
    pub fn copy(&self) -> Result<KeyOf, AllocError>
        ensures { IfOk result (λ copy. copy ≡ self.now) }
    {
        let key = self.key.copy()?;
        Ok(KeyOf {
            table: self.table,
            key,
        })
    }
}
