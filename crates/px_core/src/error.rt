ghost use Rattle.std.specs.Prelude.{◌≡◌};
ghost use Rattle.px_core.specs.Errors.{of_held, of_log, of_site, status_of};
ghost use Rattle.px_core.specs.declared.error.CoreError.TheVariants.{OutOfMemory};

use px_calls::Status;
use px_held::HeldError;
use px_log::LogError;
use px_site::{Fault, FileName, SiteError};
use std::alloc::AllocError;
use thiserror::Error;

/// Why a call of the core gives up.
#[derive(Clone, Copy, Debug, PartialEq, Eq, Error)]
pub enum CoreError {
    /// The call, or the site in it, wanted memory.
    #[error("out of memory")]
    OutOfMemory,
    /// A call of the site failed.
    #[error("a file call failed: {0:?}")]
    Fault(Fault),
    /// The transaction log takes no frame with this number, and the call had one to append.
    #[error("the log has no room for frame {0}")]
    LogFull(u64),
    /// What stands at this place of this file, in bytes, isn't what a store may have there.
    #[error("damaged at byte {place} of {file:?}")]
    Damaged { file: FileName, place: u64 },
    /// An earlier call left the site with what the machine may not have: the store is to be opened again. This is the
    /// error that the earlier call answered.
    #[error("the store is to be opened again: an earlier call failed with {0:?}")]
    Broken(SiteError),
}

impl From<HeldError> for CoreError {
    ghost from_gives = { λ error e. e ≡ of_held error };

    fn from(error: HeldError) -> CoreError {
        match error {
            HeldError::OutOfMemory => CoreError::OutOfMemory,
            HeldError::Fault(fault) => CoreError::Fault(fault),
            HeldError::Damaged { file, place } => CoreError::Damaged { file, place },
        }
    }
}

impl From<LogError> for CoreError {
    ghost from_gives = { λ error e. e ≡ of_log error };

    fn from(error: LogError) -> CoreError {
        match error {
            LogError::OutOfMemory => CoreError::OutOfMemory,
            LogError::Fault(fault) => CoreError::Fault(fault),
            LogError::LogFull(number) => CoreError::LogFull(number),
        }
    }
}

impl From<SiteError> for CoreError {
    ghost from_gives = { λ error e. e ≡ of_site error };

    fn from(error: SiteError) -> CoreError {
        match error {
            SiteError::OutOfMemory => CoreError::OutOfMemory,
            SiteError::Fault(fault) => CoreError::Fault(fault),
        }
    }
}

impl From<AllocError> for CoreError {
    ghost from_gives = { λ _ e. e ≡ OutOfMemory };

    fn from(_error: AllocError) -> CoreError {
        CoreError::OutOfMemory
    }
}

/// A broken core answers what broke it.
impl From<CoreError> for Status {
    ghost from_gives = { λ error status. status ≡ status_of error };

    fn from(error: CoreError) -> Status {
        match error {
            CoreError::OutOfMemory | CoreError::Broken(SiteError::OutOfMemory) => {
                Status::OutOfMemory
            }
            CoreError::Fault(fault) | CoreError::Broken(SiteError::Fault(fault)) => {
                Status::DiskFault(fault)
            }
            CoreError::LogFull(number) => Status::LogFull(number),
            CoreError::Damaged { file, place } => Status::Damaged { file, place },
        }
    }
}
