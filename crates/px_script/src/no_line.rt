ghost use Rattle.px_script.specs.declared.no_line.NoLine.TheVariants.{OutOfMemory};
ghost use Rattle.std.specs.Prelude.{◌≡◌};

use hex::FromHexError;
use std::alloc::AllocError;

/// Why words were not read as a line.
#[derive(Debug, Drop)]
pub(crate) enum NoLine {
    OutOfMemory,
    /// They are outside the grammar.
    Outside,
}

impl From<AllocError> for NoLine {
    ghost from_gives = { λ _ e. e ≡ OutOfMemory };

    fn from(_: AllocError) -> NoLine {
        NoLine::OutOfMemory
    }
}

impl From<FromHexError> for NoLine {
    ghost use Rattle.px_script.specs.Reads.{no_line_of};

    ghost from_gives = { λ error no_line. no_line ≡ no_line_of error };

    fn from(error: FromHexError) -> NoLine {
        match error {
            FromHexError::OutOfMemory => NoLine::OutOfMemory,
            _ => NoLine::Outside,
        }
    }
}
