ghost use Rattle.std.specs.Prelude.{◌≡◌};
ghost use Rattle.px_index.specs.declared.error.EntriesError.TheVariants.{OutOfMemory};

use px_site::{Fault, FileName};
use std::alloc::AllocError;
use thiserror::Error;

/// Why a call gives up.
#[derive(Clone, Copy, Debug, PartialEq, Eq, Error)]
pub enum EntriesError {
    /// The call, or the site in it, wanted memory.
    #[error("out of memory")]
    OutOfMemory,
    /// A read of the site failed.
    #[error("a file call failed: {0:?}")]
    Fault(Fault),
    /// The page at this place of this file, in bytes, isn't one of entries.
    #[error("damaged at byte {place} of {file:?}")]
    Damaged { file: FileName, place: u64 },
}

impl From<AllocError> for EntriesError {
    ghost from_gives = { λ _ error. error ≡ OutOfMemory };

    fn from(_error: AllocError) -> EntriesError {
        EntriesError::OutOfMemory
    }
}
