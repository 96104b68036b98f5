//! What the system refused.
ghost use Rattle.std.specs.Prelude.{◌≡◌, ◌≢◌, ◌↔◌, IsErrOf, IsTrue};
ghost use Rattle.std.specs.IoError.{error_kind};
ghost use Rattle.px_site.specs.Cause.{Counted, TellCounted, no_counts};
ghost use Rattle.px_site.specs.Tally.{counts_of};

use crate::path::path_of;
use px_site::{Fault, FileName, SiteError, Tally};
use std::alloc::{AllocError, Global};
use std::io::{self, ErrorKind};

/// The counts of what the system refused, and its last words.
#[derive(Drop)]
pub(crate) struct Refusals {
    pub(crate) tally: Tally,
    last: Option<Refusal>,
    last_of_tell: Option<io::Error>,
}

/// A call on a file that was refused, or on the folder, and why.
#[derive(Clone, Copy)]
struct Refusal {
    file: Option<FileName>,
    error: io::Error,
}

impl Refusals {
    /// Nothing was refused yet.
    pub(crate) fn new() -> Refusals
        ensures { counts_of result.tally ≡ no_counts }
    {
        Refusals {
            tally: Tally::new(),
            last: None,
            last_of_tell: None,
        }
    }

    /// Counts what the system refused, and answers it as a call of this kind does.
    pub(crate) fn refuse<T>(
        &mut self,
        kind: Fault,
        file: Option<FileName>,
        error: io::Error,
    ) -> Result<T, SiteError>
        requires file_call { kind ≢ Fault.Tell }
        ensures short { error_kind error ≡ ErrorKind.OutOfMemory → IsErrOf result SiteError.OutOfMemory }
        ensures fault { error_kind error ≢ ErrorKind.OutOfMemory → IsErrOf result (SiteError.Fault kind) }
        ensures counted { Counted kind (counts_of self.old.tally) (counts_of self.new.tally) result }
    {
        if is_short(&error) {
            return self.tally.short();
        }
        self.last = Some(Refusal { file, error });
        self.tally.fault(kind)
    }

    /// The same for `tell`, whose faults have a count of their own.
    pub(crate) fn refuse_tell<T>(&mut self, error: io::Error) -> Result<T, SiteError>
        ensures short { error_kind error ≡ ErrorKind.OutOfMemory → IsErrOf result SiteError.OutOfMemory }
        ensures fault { error_kind error ≢ ErrorKind.OutOfMemory → IsErrOf result (SiteError.Fault Fault.Tell) }
        ensures counted { TellCounted (counts_of self.old.tally) (counts_of self.new.tally) result }
    {
        if is_short(&error) {
            return self.tally.short();
        }
        self.last_of_tell = Some(error);
        self.tally.tell_fault()
    }

    /// The last refusal of a call on a file of this folder, as a text for people.
    pub(crate) fn text(&self, alloc: Global, folder: &str) -> Result<Option<String>, AllocError> {
        match self.last {
            Some(refusal) => Ok(Some(refusal.text(alloc, folder)?)),
            None => Ok(None),
        }
    }

    pub(crate) fn of_tell(&self) -> Option<io::Error> {
        self.last_of_tell
    }
}

impl Refusal {
    /// The path and the system's own words; or that another process has the folder.
    fn text(&self, alloc: Global, folder: &str) -> Result<String, AllocError> {
        let error = self.error;
        if is_in_use(&error) {
            return format!(in alloc; "{folder} {error}");
        }
        let Some(file) = self.file else {
            return format!(in alloc; "{folder}: {error}");
        };
        match path_of(alloc, folder, file) {
            Ok(path) => format!(in alloc; "{path}: {error}"),
            Err(_) => Err(AllocError),
        }
    }
}

/// What the site says where another process has its folder, in place of words of the system.
pub(crate) fn in_use() -> io::Error {
    io::Error::new(ErrorKind::ResourceBusy, "is in use by another process")
}

fn is_in_use(error: &io::Error) -> bool {
    error.kind() == ErrorKind::ResourceBusy && error.raw_os_error().is_none()
}

/// Whether memory is short, in this process or in the system.
fn is_short(error: &io::Error) -> bool
    ensures { IsTrue result ↔ (error_kind error.now ≡ ErrorKind.OutOfMemory) }
{
    error.kind() == ErrorKind::OutOfMemory
}
