ghost use Rattle.std.specs.Prelude.{◌≡◌};
ghost use Rattle.px_opened.specs.declared.error.OpenedError.TheVariants.{OutOfMemory};

use px_site::FileName;
use std::alloc::AllocError;

/// Why the tables of a store aren't opened.
#[derive(Clone, Copy, Debug, PartialEq, Eq)]
pub enum OpenedError {
    /// There was no memory for the cells of a table, or for the marks of its survey.
    OutOfMemory,
    /// The cell at this place is the first damage: its bytes are outside of the grammar, its table's header counts it and nothing
    /// was laid there, or the cells of its table aren't sound and it is the first flaw. The damage of the table with the lowest
    /// number comes first, and in a table every cell is read before any is surveyed.
    Damaged {
        file: FileName,
        /// In bytes.
        place: u64,
    },
}

impl From<AllocError> for OpenedError {
    ghost from_gives = { λ _ error. error ≡ OutOfMemory };

    fn from(_error: AllocError) -> OpenedError {
        OpenedError::OutOfMemory
    }
}
