ghost use Rattle.std.specs.Prelude.{◌≡◌, [], ◌∷◌, ◌++◌, length, IfOk, OnOk, OnErr};

use smallvec::SmallVec;
use std::alloc::{AllocError, Global};
use std::marker::Model;

/// How many bytes are kept in place: most keys are no longer, and no header and no row pointer is.
const BYTES_IN_PLACE: usize = 16;

/// A key, a body or another list of bytes. Contracts see the list of their numbers. Up to 16 bytes take no memory.
#[derive(Debug, Drop)]
pub struct Bytes {
    bytes: SmallVec<u8, BYTES_IN_PLACE>,
}

impl Model for Bytes {
    ghost use Rattle.std.specs.Prelude.{List, ℕ};

    ghost Value = { List ℕ };

    ghost view = { λ b. b.bytes.items };
}

impl Bytes {
    /// No bytes.
    pub fn new(alloc: Global) -> Bytes
        ensures { result ≡ [] }
    {
        Bytes {
            bytes: SmallVec::new(alloc),
        }
    }

    /// These bytes.
    pub fn from_vec(bytes: Vec<u8>) -> Bytes
        ensures { result ≡ bytes.items }
    {
        Bytes {
            bytes: SmallVec::from_vec(bytes),
        }
    }

    pub fn as_slice(&self) -> &[u8]
        ensures { result.now ≡ self.now }
    {
        self.bytes.as_slice()
    }

    /// A copy of these bytes; fails only for want of memory.
    pub fn from_slice(alloc: Global, bytes: &[u8]) -> Result<Bytes, AllocError>
        ensures { IfOk result (λ copy. copy ≡ bytes.now) }
    {
        let bytes = SmallVec::from_slice(alloc, bytes)?;
        Ok(Bytes { bytes })
    }

    /// Equal bytes; fails only for want of memory.
    pub fn copy(&self) -> Result<Bytes, AllocError>
        ensures { IfOk result (λ copy. copy ≡ self.now) }
    {
        let bytes = self.bytes.clone()?;
        Ok(Bytes { bytes })
    }
}
