ghost use Rattle.std.specs.Prelude.{◌≡◌};
ghost use Rattle.px_dlog.specs.Errors.{of_site};
ghost use Rattle.px_dlog.specs.declared.error.LogError.TheVariants.{OutOfMemory};

use px_site::{Fault, FileName, SiteError};
use std::alloc::AllocError;
use thiserror::Error;

/// Why a call on the data logs did nothing.
#[derive(Clone, Copy, Debug, PartialEq, Eq, Error)]
pub enum LogError {
    /// The call, or the site in it, wanted memory.
    #[error("out of memory")]
    OutOfMemory,
    /// A call of the site failed.
    #[error("a file call failed: {0:?}")]
    Fault(Fault),
    /// The bytes at this place of this file aren't the part that is to be there.
    #[error("damaged at byte {place} of {file:?}")]
    Damaged { file: FileName, place: u64 },
    /// No data log may have this number.
    #[error("there is no data log {0}")]
    LogFull(u64),
}

impl From<SiteError> for LogError {
    ghost from_gives = { λ error e. e ≡ of_site error };

    fn from(error: SiteError) -> LogError {
        match error {
            SiteError::OutOfMemory => LogError::OutOfMemory,
            SiteError::Fault(fault) => LogError::Fault(fault),
        }
    }
}

impl From<AllocError> for LogError {
    ghost from_gives = { λ _ e. e ≡ OutOfMemory };

    fn from(_error: AllocError) -> LogError {
        LogError::OutOfMemory
    }
}
