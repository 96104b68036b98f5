// How often something went wrong at a site.
ghost use Rattle.std.specs.Prelude.{◌≡◌, ◌≢◌, ◌≤◌, IsErrOf};
ghost use Rattle.px_site.specs.Cause.{Counted, CountedByAny, TellCounted, no_counts, with_fault};
ghost use Rattle.px_site.specs.Tally.{counts_of, faults_of};
ghost use Rattle.px_site.specs.declared.error.Fault.{Fault};

use crate::{Fault, SiteError};

/// The counters that a site keeps: for each kind of fault how many file calls answered it, how many calls of `tell`
/// answered a fault, and how many calls answered that memory is short. Each stands still at the greatest u64.
///
/// A call that fails answers what one of these methods gives, so that its counting follows.
#[derive(Clone, Copy, Debug)]
pub struct Tally {
    read: u64,
    write: u64,
    sync: u64,
    remove: u64,
    list: u64,
    tell: u64,
    short: u64,
}

impl Tally {
    /// Nothing went wrong yet.
    pub fn new() -> Tally
        ensures { counts_of result ≡ no_counts }
    {
        Tally {
            read: 0,
            write: 0,
            sync: 0,
            remove: 0,
            list: 0,
            tell: 0,
            short: 0,
        }
    }

    /// Counts a fault of a file call, and answers it.
    pub fn fault<T>(&mut self, kind: Fault) -> Result<T, SiteError>
        requires file_call { kind ≢ Fault.Tell }
        ensures error { IsErrOf result (SiteError.Fault kind) }
        ensures counted { Counted kind (counts_of self.old) (counts_of self.new) result }
    {
        self.raise(kind);
        Err(SiteError::Fault(kind))
    }

    /// Counts a fault of `tell`, and answers it.
    pub fn tell_fault<T>(&mut self) -> Result<T, SiteError>
        ensures error { IsErrOf result (SiteError.Fault Fault.Tell) }
        ensures counted { TellCounted (counts_of self.old) (counts_of self.new) result }
    {
        self.tell = self.tell.saturating_add(1);
        Err(SiteError::Fault(Fault::Tell))
    }

    /// Counts a want of memory in a call of any kind, and answers it.
    pub fn short<T>(&mut self) -> Result<T, SiteError>
        ensures error { IsErrOf result SiteError.OutOfMemory }
        ensures counted { CountedByAny (counts_of self.old) (counts_of self.new) result }
        ensures tell_counted { TellCounted (counts_of self.old) (counts_of self.new) result }
    {
        self.short = self.short.saturating_add(1);
        Err(SiteError::OutOfMemory)
    }

    fn raise(&mut self, kind: Fault)
        requires file_call { kind ≢ Fault.Tell }
        ensures faults { (fault : Fault) → faults_of self.new fault ≡ with_fault kind (faults_of self.old) fault }
        ensures none_fell { (fault : Fault) → faults_of self.old fault ≤ faults_of self.new fault }
        ensures tell { self.new.tell ≡ self.old.tell }
        ensures short { self.new.short ≡ self.old.short }
    {
        match kind {
            Fault::Read => self.read = self.read.saturating_add(1),
            Fault::Write => self.write = self.write.saturating_add(1),
            Fault::Sync => self.sync = self.sync.saturating_add(1),
            Fault::Remove => self.remove = self.remove.saturating_add(1),
            Fault::List => self.list = self.list.saturating_add(1),
            Fault::Tell => {}
        }
    }
}
