// The files of a store and its one output, as what a crash may leave of them.
ghost use Rattle.std.specs.Prelude.{◌≡◌, ◌+◌, ◌≤◌, length, IfOk, IfSome};
ghost use Rattle.px_site.specs.Cause.{Counts, Counted, TellCounted};
ghost use Rattle.px_site.specs.Disk.{Wrote, Cut, Removed, IsImage};
ghost use Rattle.px_site.specs.State.{State, Changes, Syncs, Tells, Reads, IsListed, IsNextFile};
ghost use Rattle.px_site.specs.declared.name.FileName.{FileName};

use crate::{Fault, FileName, SiteError};

/// The greatest length of a file, in bytes.
pub const LONGEST_FILE: u64 = 1 << 48;

/// Files by their names, and one output, on one clock of moments.
///
/// A file that isn't there has no bytes; to `cut`, `sync` or `remove` it is right, and leaves it so. A call answers
/// a fault of its own kind alone, and only where it counts it; it answers want of memory only where it counts that,
/// and then it has done nothing. A call that only reads leaves all as it was, whatever it answers.
pub trait Site {
    /// That the site tells its files and its output to contracts. A folder of the system doesn't, and of such a site
    /// only bounds and counts are said.
    ghost tells: { Type 0 };

    /// What it tells: the contents as they read, and for this moment and each one before it what a crash then leaves.
    ghost state: { Self → State };

    /// How many calls answered each error; of a reference, which one it is too, so that a caller that lends its site
    /// knows that it is this one which changed.
    ghost counts: { Self → Counts };

    /// The file's length in bytes, at most `LONGEST_FILE`. Its fault is `Read`, also for a longer file.
    fn len(&mut self, file: FileName) -> Result<u64, SiteError>
        ensures bound { IfOk result (λ len. len ≤ LONGEST_FILE) }
        ensures value { tells → IfOk result (λ len. len ≡ length ((state self.old).content file)) }
        ensures same { tells → state self.new ≡ state self.old }
        ensures counted { Counted Fault.Read (counts self.old) (counts self.new) result };

    /// Copies the file's bytes from `place` on to the front of `buf`, and answers how many: the lesser of the length of
    /// `buf` and of what the file has there. Its fault is `Read`.
    fn read_at(&mut self, file: FileName, place: u64, buf: &mut [u8]) -> Result<usize, SiteError>
        ensures bound { IfOk result (λ n. n ≤ length buf.new) }
        ensures value { tells → IfOk result (Reads ((state self.old).content file) place buf.new) }
        ensures same { tells → state self.new ≡ state self.old }
        ensures counted { Counted Fault.Read (counts self.old) (counts self.new) result };

    /// Sets the bytes at `place`, and makes the file where it isn't there. A gap between the file's end and `place` is
    /// filled with zero bytes, also where `bytes` is empty. Its fault is `Write`; then the file reads as one of the
    /// images that a crash within the write may leave.
    fn write_at(&mut self, file: FileName, place: u64, bytes: &[u8]) -> Result<(), SiteError>
        requires { place + length bytes.now ≤ LONGEST_FILE }
        ensures moves { tells → Changes file (Wrote place bytes.now) (state self.old) (state self.new) result }
        ensures counted { Counted Fault.Write (counts self.old) (counts self.new) result };

    /// Shortens the file to `len` bytes, or leaves it where it has no more than these. Its fault is `Write`.
    fn cut(&mut self, file: FileName, len: u64) -> Result<(), SiteError>
        ensures moves { tells → Changes file (Cut len) (state self.old) (state self.new) result }
        ensures counted { Counted Fault.Write (counts self.old) (counts self.new) result };

    /// Makes the file's content durable: from then on each crash leaves it, until the file is changed. Its fault is
    /// `Sync`; then what a crash may leave is as before.
    fn sync(&mut self, file: FileName) -> Result<(), SiteError>
        ensures moves { tells → Syncs file (state self.old) (state self.new) result }
        ensures counted { Counted Fault.Sync (counts self.old) (counts self.new) result };

    /// Makes the file empty. Its fault is `Remove`.
    fn remove(&mut self, file: FileName) -> Result<(), SiteError>
        ensures moves { tells → Changes file Removed (state self.old) (state self.new) result }
        ensures counted { Counted Fault.Remove (counts self.old) (counts self.new) result };

    /// The least name after this one whose file has a byte; the least of all after None. Its fault is `List`.
    fn list(&mut self, after: Option<FileName>) -> Result<Option<FileName>, SiteError>
        ensures bound { IfOk result (λ next. IfSome next (IsListed after)) }
        ensures value { tells → IfOk result (IsNextFile (state self.old).content after) }
        ensures same { tells → state self.new ≡ state self.old }
        ensures counted { Counted Fault.List (counts self.old) (counts self.new) result };

    /// Appends the bytes to what was told. Its fault is `Tell`; then a first part of them was appended.
    fn tell(&mut self, bytes: &[u8]) -> Result<(), SiteError>
        ensures moves { tells → Tells bytes.now (state self.old) (state self.new) result }
        ensures counted { TellCounted (counts self.old) (counts self.new) result };

    /// What is read now is what a crash now may leave.
    ghost reads_image: { tells → (site : Self) (file : FileName) → IsImage ((state site).now.files file) ((state site).content file) };
}

impl<W: Site> Site for &mut W {
    ghost tells = { W.tells };

    ghost state = { λ site. W.state site.now };

    ghost counts = { λ site. record (W.counts site.now) { reference = site.ghost_name } };

    ghost reads_image = { λ tells site file. W.reads_image tells site.now file };

    fn len(&mut self, file: FileName) -> Result<u64, SiteError> {
        Site::len(&mut **self, file)
    }

    fn read_at(&mut self, file: FileName, place: u64, buf: &mut [u8]) -> Result<usize, SiteError> {
        Site::read_at(&mut **self, file, place, buf)
    }

    fn write_at(&mut self, file: FileName, place: u64, bytes: &[u8]) -> Result<(), SiteError> {
        Site::write_at(&mut **self, file, place, bytes)
    }

    fn cut(&mut self, file: FileName, len: u64) -> Result<(), SiteError> {
        Site::cut(&mut **self, file, len)
    }

    fn sync(&mut self, file: FileName) -> Result<(), SiteError> {
        Site::sync(&mut **self, file)
    }

    fn remove(&mut self, file: FileName) -> Result<(), SiteError> {
        Site::remove(&mut **self, file)
    }

    fn list(&mut self, after: Option<FileName>) -> Result<Option<FileName>, SiteError> {
        Site::list(&mut **self, after)
    }

    fn tell(&mut self, bytes: &[u8]) -> Result<(), SiteError> {
        Site::tell(&mut **self, bytes)
    }
}
