ghost use Rattle.std.specs.Prelude.{◌≡◌};
ghost use Rattle.px_held.specs.declared.error.HeldError.TheVariants.{OutOfMemory};

use px_site::{Fault, FileName};
use std::alloc::AllocError;

/// Why a call gives up.
#[derive(Clone, Copy, Debug, PartialEq, Eq)]
pub enum HeldError {
    OutOfMemory,
    /// A read of the site failed.
    Fault(Fault),
    /// What stands at this place of this file, in bytes, isn't what a store may have there.
    Damaged { file: FileName, place: u64 },
}

impl From<AllocError> for HeldError {
    ghost from_gives = { λ _ error. error ≡ OutOfMemory };

    fn from(_error: AllocError) -> HeldError {
        HeldError::OutOfMemory
    }
}
