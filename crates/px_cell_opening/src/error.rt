ghost use Rattle.std.specs.Prelude.{◌≡◌};
ghost use Rattle.px_cell_opening.specs.Errors.{of_held, of_log, of_tables, of_tidying};
ghost use Rattle.px_cell_opening.specs.declared.error.CellsError.TheVariants.{OutOfMemory};

use px_held::HeldError;
use px_log::LogOpenError;
use px_opened::OpenedError;
use px_site::{Fault, FileName};
use px_tidying::TidyError;
use std::alloc::AllocError;
use thiserror::Error;

/// Why the cells of a store aren't opened.
#[derive(Clone, Copy, Debug, PartialEq, Eq, Error)]
pub enum CellsError {
    /// The opening, or the site in it, wanted memory.
    #[error("out of memory")]
    OutOfMemory,
    /// A call of the site failed.
    #[error("a file call failed: {0:?}")]
    Fault(Fault),
    /// The log takes no frame with this number, and a version has to be unlinked.
    #[error("the log has no room for frame {0}")]
    LogFull(u64),
    /// What stands at this place of this file, in bytes, isn't what a store may have there.
    #[error("damaged at byte {place} of {file:?}")]
    Damaged { file: FileName, place: u64 },
}

impl From<LogOpenError> for CellsError {
    ghost from_gives = { λ error e. e ≡ of_log error };

    fn from(error: LogOpenError) -> CellsError {
        match error {
            LogOpenError::OutOfMemory => CellsError::OutOfMemory,
            LogOpenError::Fault(fault) => CellsError::Fault(fault),
            LogOpenError::Damaged { file, place } => CellsError::Damaged { file, place },
        }
    }
}

impl From<OpenedError> for CellsError {
    ghost from_gives = { λ error e. e ≡ of_tables error };

    fn from(error: OpenedError) -> CellsError {
        match error {
            OpenedError::OutOfMemory => CellsError::OutOfMemory,
            OpenedError::Damaged { file, place } => CellsError::Damaged { file, place },
        }
    }
}

impl From<HeldError> for CellsError {
    ghost from_gives = { λ error e. e ≡ of_held error };

    fn from(error: HeldError) -> CellsError {
        match error {
            HeldError::OutOfMemory => CellsError::OutOfMemory,
            HeldError::Fault(fault) => CellsError::Fault(fault),
            HeldError::Damaged { file, place } => CellsError::Damaged { file, place },
        }
    }
}

impl From<TidyError> for CellsError {
    ghost from_gives = { λ error e. e ≡ of_tidying error };

    fn from(error: TidyError) -> CellsError {
        match error {
            TidyError::OutOfMemory => CellsError::OutOfMemory,
            TidyError::Fault(fault) => CellsError::Fault(fault),
            TidyError::LogFull(frame) => CellsError::LogFull(frame),
            TidyError::Damaged { file, place } => CellsError::Damaged { file, place },
        }
    }
}

impl From<AllocError> for CellsError {
    ghost from_gives = { λ _ e. e ≡ OutOfMemory };

    fn from(_error: AllocError) -> CellsError {
        CellsError::OutOfMemory
    }
}
