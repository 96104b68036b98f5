ghost use Rattle.std.specs.Prelude.{◌≡◌};
ghost use Rattle.px_play.specs.Told.{status_of_tell};

use px_calls::Status;
use px_site::SiteError;

/// The status by which an error of `tell` ends a run: a fault of it is the output's.
pub fn status_of_tell(error: SiteError) -> Status
    ensures { result ≡ status_of_tell error }
{
    match error {
        SiteError::OutOfMemory => Status::OutOfMemory,
        SiteError::Fault(_) => Status::OutputFault,
    }
}
