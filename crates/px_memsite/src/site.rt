// The site.
ghost use Rattle.std.specs.Prelude.{◌≡◌, ◌≢◌, ◌+◌, ◌-◌, ◌^◌, ◌≤◌, ℕ, min, length, [], None, Some, IfOk, IfSome, OnOk, OnErr, IsOk, IsErr};
ghost use Rattle.px_site.specs.Cause.{Counted, TellCounted, no_counts};
ghost use Rattle.px_site.specs.Disk.{Wrote, Cut, Removed};
ghost use Rattle.px_site.specs.State.{Changes, Syncs, Tells, Reads, IsListed, IsNextFile, OnFault, OnShort};
ghost use Rattle.px_site.specs.Tally.{counts_of};
ghost use Rattle.px_memsite.specs.Calls.{site_state, site_counts, site_calls, site_failures, IsEmptySite, IsChangingCall, IsReadingCall};
ghost use Rattle.px_memsite.specs.Crash.{IsCrashed};
ghost use Rattle.px_memsite.specs.Moments.{moment_at};
ghost use Rattle.px_memsite.specs.Events.{after_change, after_sync, after_tell, after_put};
ghost use Rattle.px_memsite.specs.Failures.{before_any_byte};

use crate::bytes::copied;
use crate::change::Change;
use crate::crash::{Pick, crashed};
use crate::disk::Disk;
use crate::event::Event;
use crate::failure::{Failure, Schedule};
use px_site::{Fault, FileName, Site, SiteError, Tally};
use std::alloc::{AllocError, Global};

/// Files and an output in memory. Its calls fail where they are told to, and it can crash.
#[derive(Drop)]
pub struct MemSite {
    disk: Disk,
    schedule: Schedule,
    tally: Tally,
}

impl MemSite {
    /// An empty site, whose calls fail for want of memory alone.
    pub fn new(alloc: Global) -> Result<MemSite, AllocError>
        ensures { IfOk result (IsEmptySite []) }
    {
        MemSite::failing_partway(alloc, &[])
    }

    /// An empty site of which the calls with these numbers fail, without any effect on contents and
    /// output. All calls are counted, from 0.
    pub fn failing(alloc: Global, calls: &[u64]) -> Result<MemSite, AllocError>
        ensures { IfOk result (IsEmptySite (before_any_byte calls.now)) }
    {
        let mut failures = Vec::new(alloc);
        for call in calls {
            failures.push(Failure {
                call: *call,
                bytes: 0,
            })?;
        }
        MemSite::failing_partway(alloc, &failures)
    }

    /// An empty site with calls that fail when some of their bytes are through.
    pub fn failing_partway(alloc: Global, failures: &[Failure]) -> Result<MemSite, AllocError>
        ensures { IfOk result (IsEmptySite failures.now) }
    {
        let failures = Vec::from_slice(alloc, failures)?;
        Ok(MemSite {
            disk: Disk::new(alloc),
            schedule: Schedule { failures, calls: 0 },
            tally: Tally::new(),
        })
    }

    /// Sets a file's bytes as synced. That is no call of the site, and makes no moment.
    pub fn put_file(&mut self, file: FileName, bytes: &[u8]) -> Result<(), AllocError>
        requires { length bytes.now ≤ 2 ^ 48 }
        ensures ok { OnOk result (site_state self.new ≡ after_put file bytes.now (site_state self.old)) }
        ensures err { OnErr result (site_state self.new ≡ site_state self.old) }
        ensures calls { site_calls self.new ≡ site_calls self.old }
        ensures failures { site_failures self.new ≡ site_failures self.old }
        ensures counts { site_counts self.new ≡ site_counts self.old }
    {
        self.disk.set_bytes(file, bytes)
    }

    /// The bytes of a file as it reads, none where it isn't there.
    pub fn content(&self, file: FileName) -> &[u8]
        ensures { result.now ≡ (site_state self.now).content file }
    {
        self.disk.content(file)
    }

    /// All that was told.
    pub fn told(&self) -> &[u8]
        ensures { result.now ≡ (site_state self.now).now.told }
    {
        &self.disk.told
    }

    /// The number of the last moment. Moment 0 is the start; the j-th call that changes something
    /// has moment `2j - 1` within it and `2j` after it. It stands still at the greatest u64.
    pub fn moments(&self) -> u64
        ensures { result ≡ min (length (site_state self.now).past) (2 ^ 64 - 1) }
    {
        self.disk.moments
    }

    /// What a crash at a moment leaves: one of the images of that moment, with nothing touched and
    /// nothing told. No call of it is to fail.
    pub fn crash(self, pick: Pick) -> Result<MemSite, AllocError>
        requires { pick.moment ≤ length (site_state self).past }
        ensures crashed { IfOk result (λ left.
            let moment = moment_at pick.moment (site_state self) in
            IsCrashed pick.keep moment.files (site_state left)) }
        ensures calls { IfOk result (λ left. site_calls left ≡ 0) }
        ensures failures { IfOk result (λ left. site_failures left ≡ []) }
        ensures counts { IfOk result (λ left. site_counts left ≡ no_counts) }
    {
        let alloc = self.disk.alloc;
        let disk = crashed(self.disk, pick)?;
        let failures = Vec::new(alloc);
        Ok(MemSite {
            disk,
            schedule: Schedule { failures, calls: 0 },
            tally: Tally::new(),
        })
    }
}

/// What a call that changes something answers.
fn answer(
    tally: &mut Tally,
    kind: Fault,
    failure: Option<u64>,
    done: Result<(), AllocError>,
) -> Result<(), SiteError>
    requires { kind ≢ Fault.Tell }
    ensures ok { OnOk result (IsOk done × (failure ≡ None)) }
    ensures fault { OnFault result (IsOk done × ((through : ℕ) × (failure ≡ Some through))) }
    ensures short { OnShort result (IsErr done) }
    ensures counted { Counted kind (counts_of tally.old) (counts_of tally.new) result }
{
    match (done, failure) {
        (Err(_), _) => tally.short(),
        (Ok(()), Some(_)) => tally.fault(kind),
        (Ok(()), None) => Ok(()),
    }
}

impl Site for MemSite {
    ghost tells = { Unit {0} };

    ghost state = { site_state };

    ghost counts = { site_counts };

    ghost use Rattle.px_memsite.specs.Sound.{reached_sound};

    ghost reads_image = { λ _ site file. (reached_sound site.disk.history.items site.disk.fits file).image };

    fn len(&mut self, file: FileName) -> Result<u64, SiteError>
        ensures call { IsReadingCall self.old self.new result }
        ensures bound { IfOk result (λ len. len ≤ 2 ^ 48) }
        ensures value { IfOk result (λ len. len ≡ length ((site_state self.old).content file)) }
        ensures counted { Counted Fault.Read (site_counts self.old) (site_counts self.new) result }
    {
        match self.schedule.next() {
            Some(_) => self.tally.fault(Fault::Read),
            None => Ok(self.disk.content(file).len() as u64),
        }
    }

    fn read_at(&mut self, file: FileName, place: u64, buf: &mut [u8]) -> Result<usize, SiteError>
        ensures call { IsReadingCall self.old self.new result }
        ensures bound { IfOk result (λ n. n ≤ length buf.new) }
        ensures value { IfOk result (Reads ((site_state self.old).content file) place buf.new) }
        ensures counted { Counted Fault.Read (site_counts self.old) (site_counts self.new) result }
    {
        match self.schedule.next() {
            Some(_) => self.tally.fault(Fault::Read),
            None => Ok(copied(self.disk.content(file), place, buf)),
        }
    }

    fn write_at(&mut self, file: FileName, place: u64, bytes: &[u8]) -> Result<(), SiteError>
        requires { place + length bytes.now ≤ 2 ^ 48 }
        ensures call { IsChangingCall (after_change file (Wrote place bytes.now)) self.old self.new result }
        ensures moves { Changes file (Wrote place bytes.now) (site_state self.old) (site_state self.new) result }
        ensures counted { Counted Fault.Write (site_counts self.old) (site_counts self.new) result }
    {
        let failure = self.schedule.next();
        let done = self.disk.write(file, place, bytes, failure);
        answer(&mut self.tally, Fault::Write, failure, done)
    }

    fn cut(&mut self, file: FileName, len: u64) -> Result<(), SiteError>
        ensures call { IsChangingCall (after_change file (Cut len)) self.old self.new result }
        ensures moves { Changes file (Cut len) (site_state self.old) (site_state self.new) result }
        ensures counted { Counted Fault.Write (site_counts self.old) (site_counts self.new) result }
    {
        let failure = self.schedule.next();
        let done = self
            .disk
            .play(Event::Changed(file, Change::Cut(len), failure));
        answer(&mut self.tally, Fault::Write, failure, done)
    }

    fn sync(&mut self, file: FileName) -> Result<(), SiteError>
        ensures call { IsChangingCall (after_sync file) self.old self.new result }
        ensures moves { Syncs file (site_state self.old) (site_state self.new) result }
        ensures counted { Counted Fault.Sync (site_counts self.old) (site_counts self.new) result }
    {
        let failure = self.schedule.next();
        let done = self.disk.play(Event::Synced(file, failure));
        answer(&mut self.tally, Fault::Sync, failure, done)
    }

    fn remove(&mut self, file: FileName) -> Result<(), SiteError>
        ensures call { IsChangingCall (after_change file Removed) self.old self.new result }
        ensures moves { Changes file Removed (site_state self.old) (site_state self.new) result }
        ensures counted { Counted Fault.Remove (site_counts self.old) (site_counts self.new) result }
    {
        let failure = self.schedule.next();
        let done = self
            .disk
            .play(Event::Changed(file, Change::Remove, failure));
        answer(&mut self.tally, Fault::Remove, failure, done)
    }

    fn list(&mut self, after: Option<FileName>) -> Result<Option<FileName>, SiteError>
        ensures call { IsReadingCall self.old self.new result }
        ensures bound { IfOk result (λ next. IfSome next (IsListed after)) }
        ensures value { IfOk result (IsNextFile (site_state self.old).content after) }
        ensures counted { Counted Fault.List (site_counts self.old) (site_counts self.new) result }
    {
        match self.schedule.next() {
            Some(_) => self.tally.fault(Fault::List),
            None => Ok(self.disk.next_file(after)),
        }
    }

    fn tell(&mut self, bytes: &[u8]) -> Result<(), SiteError>
        ensures call { IsChangingCall (after_tell bytes.now) self.old self.new result }
        ensures moves { Tells bytes.now (site_state self.old) (site_state self.new) result }
        ensures counted { TellCounted (site_counts self.old) (site_counts self.new) result }
    {
        let failure = self.schedule.next();
        match (self.disk.tell(bytes, failure), failure) {
            (Err(_), _) => self.tally.short(),
            (Ok(()), Some(_)) => self.tally.tell_fault(),
            (Ok(()), None) => Ok(()),
        }
    }
}
