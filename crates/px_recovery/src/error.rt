// Why a store isn't made, or isn't opened.
ghost use Rattle.std.specs.Prelude.{◌≡◌};
ghost use Rattle.px_recovery.specs.declared.error.OpenError.TheVariants.{OutOfMemory as OpenShort};
ghost use Rattle.px_recovery.specs.Errors.{of_site, open_of_cells, open_of_held, open_of_site, status_of_make, status_of_opening};

use px_calls::Status;
use px_cell_opening::CellsError;
use px_held::HeldError;
use px_site::{Fault, FileName, SiteError};
use std::alloc::AllocError;
use thiserror::Error;

/// Why a store isn't made.
#[derive(Clone, Copy, Debug, PartialEq, Eq, Error)]
pub enum MakeError {
    /// The site wanted memory.
    #[error("out of memory")]
    OutOfMemory,
    /// A call of the site failed.
    #[error("a file call failed: {0:?}")]
    Fault(Fault),
    /// The site has a file already, or a restart.
    #[error("a store or another file is here already")]
    NotEmpty,
}

impl From<SiteError> for MakeError {
    ghost from_gives = { λ error e. e ≡ of_site error };

    fn from(error: SiteError) -> MakeError {
        match error {
            SiteError::OutOfMemory => MakeError::OutOfMemory,
            SiteError::Fault(fault) => MakeError::Fault(fault),
        }
    }
}

impl From<MakeError> for Status {
    ghost from_gives = { λ error status. status ≡ status_of_make error };

    fn from(error: MakeError) -> Status {
        match error {
            MakeError::OutOfMemory => Status::OutOfMemory,
            MakeError::Fault(fault) => Status::DiskFault(fault),
            MakeError::NotEmpty => Status::NotEmpty,
        }
    }
}

/// Why a store isn't opened.
#[derive(Clone, Copy, Debug, PartialEq, Eq, Error)]
pub enum OpenError {
    /// The opening, or the site in it, wanted memory.
    #[error("out of memory")]
    OutOfMemory,
    /// A call of the site failed.
    #[error("a file call failed: {0:?}")]
    Fault(Fault),
    /// Neither restart file checks: no store is here.
    #[error("no store is here")]
    NoStore,
    /// The log takes no frame with this number, and a version that nobody will see has to be unlinked.
    #[error("the log has no room for frame {0}")]
    LogFull(u64),
    /// What stands at this place of this file, in bytes, isn't what the store may have there.
    #[error("damaged at byte {place} of {file:?}")]
    Damaged { file: FileName, place: u64 },
}

impl From<SiteError> for OpenError {
    ghost from_gives = { λ error e. e ≡ open_of_site error };

    fn from(error: SiteError) -> OpenError {
        match error {
            SiteError::OutOfMemory => OpenError::OutOfMemory,
            SiteError::Fault(fault) => OpenError::Fault(fault),
        }
    }
}

impl From<AllocError> for OpenError {
    ghost from_gives = { λ _ e. e ≡ OpenShort };

    fn from(_error: AllocError) -> OpenError {
        OpenError::OutOfMemory
    }
}

impl From<CellsError> for OpenError {
    ghost from_gives = { λ error e. e ≡ open_of_cells error };

    fn from(error: CellsError) -> OpenError {
        match error {
            CellsError::OutOfMemory => OpenError::OutOfMemory,
            CellsError::Fault(fault) => OpenError::Fault(fault),
            CellsError::LogFull(frame) => OpenError::LogFull(frame),
            CellsError::Damaged { file, place } => OpenError::Damaged { file, place },
        }
    }
}

impl From<HeldError> for OpenError {
    ghost from_gives = { λ error e. e ≡ open_of_held error };

    fn from(error: HeldError) -> OpenError {
        match error {
            HeldError::OutOfMemory => OpenError::OutOfMemory,
            HeldError::Fault(fault) => OpenError::Fault(fault),
            HeldError::Damaged { file, place } => OpenError::Damaged { file, place },
        }
    }
}

impl From<OpenError> for Status {
    ghost from_gives = { λ error status. status ≡ status_of_opening error };

    fn from(error: OpenError) -> Status {
        match error {
            OpenError::OutOfMemory => Status::OutOfMemory,
            OpenError::Fault(fault) => Status::DiskFault(fault),
            OpenError::NoStore => Status::NoStore,
            OpenError::LogFull(frame) => Status::LogFull(frame),
            OpenError::Damaged { file, place } => Status::Damaged { file, place },
        }
    }
}
