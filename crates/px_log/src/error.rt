ghost use Rattle.std.specs.Prelude.{◌≡◌};
ghost use Rattle.px_log.specs.Errors.{of_site, open_of_site};
ghost use Rattle.px_log.specs.declared.error.LogError.TheVariants.{OutOfMemory};
ghost use Rattle.px_log.specs.declared.error.LogOpenError.TheVariants.{OutOfMemory as OpenShort};

use px_site::{Fault, FileName, SiteError};
use std::alloc::AllocError;
use thiserror::Error;

/// Why a frame isn't appended.
#[derive(Clone, Copy, Debug, PartialEq, Eq, Error)]
pub enum LogError {
    /// The call, or the site in it, wanted memory.
    #[error("out of memory")]
    OutOfMemory,
    /// A call of the site failed.
    #[error("a file call failed: {0:?}")]
    Fault(Fault),
    /// The log takes no frame with this number.
    #[error("the log has no room for frame {0}")]
    LogFull(u64),
}

impl From<SiteError> for LogError {
    ghost from_gives = { λ error e. e ≡ of_site error };

    fn from(error: SiteError) -> LogError {
        match error {
            SiteError::OutOfMemory => LogError::OutOfMemory,
            SiteError::Fault(fault) => LogError::Fault(fault),
        }
    }
}

impl From<AllocError> for LogError {
    ghost from_gives = { λ _ e. e ≡ OutOfMemory };

    fn from(_error: AllocError) -> LogError {
        LogError::OutOfMemory
    }
}

/// Why a log isn't opened.
#[derive(Clone, Copy, Debug, PartialEq, Eq, Error)]
pub enum LogOpenError {
    /// The opening, or the site in it, wanted memory.
    #[error("out of memory")]
    OutOfMemory,
    /// A call of the site failed.
    #[error("a file call failed: {0:?}")]
    Fault(Fault),
    /// The frame that begins at this place of this file isn't one that the log may have there.
    #[error("damaged at byte {place} of {file:?}")]
    Damaged { file: FileName, place: u64 },
}

impl From<SiteError> for LogOpenError {
    ghost from_gives = { λ error e. e ≡ open_of_site error };

    fn from(error: SiteError) -> LogOpenError {
        match error {
            SiteError::OutOfMemory => LogOpenError::OutOfMemory,
            SiteError::Fault(fault) => LogOpenError::Fault(fault),
        }
    }
}

impl From<AllocError> for LogOpenError {
    ghost from_gives = { λ _ e. e ≡ OpenShort };

    fn from(_error: AllocError) -> LogOpenError {
        LogOpenError::OutOfMemory
    }
}
