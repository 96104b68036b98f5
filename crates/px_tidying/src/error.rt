ghost use Rattle.std.specs.Prelude.{◌≡◌};
ghost use Rattle.px_tidying.specs.Errors.{of_held, of_log, of_site};
ghost use Rattle.px_tidying.specs.declared.error.TidyError.TheVariants.{OutOfMemory};

use px_held::HeldError;
use px_log::LogError;
use px_site::{Fault, FileName, SiteError};
use std::alloc::AllocError;

/// Why tidying gives up. Each frame that was written stays, so the opening may be tried again.
#[derive(Clone, Copy, Debug, PartialEq, Eq)]
pub enum TidyError {
    OutOfMemory,
    /// A call of the site failed.
    Fault(Fault),
    /// The log takes no frame with this number.
    LogFull(u64),
    /// What stands at this place of this file, in bytes, isn't what a store may have there.
    Damaged { file: FileName, place: u64 },
}

impl From<HeldError> for TidyError {
    ghost from_gives = { λ error e. e ≡ of_held error };

    fn from(error: HeldError) -> TidyError {
        match error {
            HeldError::OutOfMemory => TidyError::OutOfMemory,
            HeldError::Fault(fault) => TidyError::Fault(fault),
            HeldError::Damaged { file, place } => TidyError::Damaged { file, place },
        }
    }
}

impl From<LogError> for TidyError {
    ghost from_gives = { λ error e. e ≡ of_log error };

    fn from(error: LogError) -> TidyError {
        match error {
            LogError::OutOfMemory => TidyError::OutOfMemory,
            LogError::Fault(fault) => TidyError::Fault(fault),
            LogError::LogFull(frame) => TidyError::LogFull(frame),
        }
    }
}

impl From<SiteError> for TidyError {
    ghost from_gives = { λ error e. e ≡ of_site error };

    fn from(error: SiteError) -> TidyError {
        match error {
            SiteError::OutOfMemory => TidyError::OutOfMemory,
            SiteError::Fault(fault) => TidyError::Fault(fault),
        }
    }
}

impl From<AllocError> for TidyError {
    ghost from_gives = { λ _ e. e ≡ OutOfMemory };

    fn from(_error: AllocError) -> TidyError {
        TidyError::OutOfMemory
    }
}
