//! A folder and standard output as a site.
ghost use Rattle.std.specs.Prelude.{◌≡◌, ◌<◌, ◌≤◌, ◌+◌, ◌-◌, [], length, min, true, IfOk, IfSome, IfNone, OnOk, OnSome};
ghost use Rattle.px_site.specs.Cause.{Counted, TellCounted};
ghost use Rattle.px_site.specs.Disk.{at_rest};
ghost use Rattle.px_site.specs.State.{IsListed};
ghost use Rattle.px_realsite.specs.Piece.{EndsWith};
ghost use Rattle.px_realsite.specs.Traffic.{Asked, IsDurable, IsLocked, IsWhole, Moved, NoBytes, OnlyReads, OnlyTells, OnlyWrites, no_traffic};

use crate::folder::Folder;
use crate::refusals::Refusals;
use crate::system::{System, Traffic};
use px_site::{Fault, FileName, LONGEST_FILE, Site, SiteError};
use std::alloc::AllocError;
use std::fs::File;
use std::io::{self, ErrorKind};
use std::rt::Files;

/// The files of a folder, and standard output. The folder is made by the first write; until then it may be missing, and
/// reads as an empty one. Files in it that no store has are neither listed nor touched.
///
/// The site has the folder alone: its first use takes the system's lock on it, which it keeps to its end. Where another site has
/// it, in this process or in another one, each call answers the fault of its kind, and nothing was read or written.
///
/// A file in the folder's place, a folder in a file's place, and what may not be opened for reading and writing are
/// faults of the calls that meet them. A call that finds memory short, in this process or in the system, answers so; but
/// where a part was written before, it answers a fault. Output that is closed or full, or whose reader went away, is a
/// fault of `tell`.
#[derive(Drop)]
pub struct RealSite<R> {
    system: System<R>,
    folder: Folder,
    refusals: Refusals,
}

impl<R: Files<File = File> + Print + AllocGlobal + Clone + Drop> RealSite<R> {
    ghost use Rattle.px_site.specs.Cause.{no_counts};
    ghost use Rattle.px_realsite.specs.Path.{path_or_current};
    ghost use Rattle.px_realsite.specs.RealSite.{counted, folder_path, traffic_of};

    /// A site over the folder of this path, the current one where the path is empty. It touches nothing yet.
    pub fn new(rt: R, folder: &str) -> Result<RealSite<R>, AllocError>
        ensures over { IfOk result (λ site. folder_path site ≡ path_or_current folder.now) }
        ensures nothing_counted { IfOk result (λ site. counted site ≡ no_counts) }
        ensures nothing_asked { IfOk result (λ site. traffic_of site ≡ no_traffic) }
    {
        let folder = Folder::new(rt.alloc(), folder)?;
        Ok(RealSite {
            system: System::new(rt),
            folder,
            refusals: Refusals::new(),
        })
    }

    /// What was asked of the system since the site was made.
    pub fn traffic(&self) -> Traffic
        ensures { result ≡ traffic_of self.now }
    {
        self.system.traffic()
    }

    /// What the system said when it last refused a call on a file, as a text for people: which file, and why. None where it
    /// refused none.
    pub fn refusal(&self) -> Result<Option<String>, AllocError> {
        self.refusals.text(self.system.alloc(), self.folder.path())
    }

    /// The same of standard output.
    pub fn tell_refusal(&self) -> Option<io::Error> {
        self.refusals.of_tell()
    }
}

impl<R: Files<File = File> + Print + AllocGlobal + Clone + Drop> Site for RealSite<R> {
    ghost use Rattle.px_realsite.specs.RealSite.{counted, folder_path, read_of, traffic_of, written_of};

    ghost tells = { ⊥ };

    ghost state = { λ _. record { content = λ _. []; now = record { files = λ _. at_rest []; told = []; telling = [] }; past = [] } };

    ghost counts = { λ site. counted site };

    ghost reads_image = { λ tells. absurd tells };

    fn len(&mut self, file: FileName) -> Result<u64, SiteError>
        ensures bound { IfOk result (λ len. len ≤ LONGEST_FILE) }
        ensures counted { Counted Fault.Read (counted self.old) (counted self.new) result }
        ensures same_folder { folder_path self.new ≡ folder_path self.old }
        ensures asked { OnOk result (Asked (traffic_of self.old) (traffic_of self.new)) }
        ensures locked { OnOk result (IsLocked (traffic_of self.old) (traffic_of self.new)) }
        ensures no_bytes { NoBytes (traffic_of self.old) (traffic_of self.new) }
    {
        match self.folder.len(&mut self.system, file) {
            Ok(len) => Ok(len),
            Err(error) => self.refusals.refuse(Fault::Read, Some(file), error),
        }
    }

    fn read_at(&mut self, file: FileName, place: u64, buf: &mut [u8]) -> Result<usize, SiteError>
        ensures bound { IfOk result (λ n. n ≤ length buf.new) }
        ensures counted { Counted Fault.Read (counted self.old) (counted self.new) result }
        ensures same_folder { folder_path self.new ≡ folder_path self.old }
        ensures asked { place < LONGEST_FILE → 0 < length buf.new
            → OnOk result (Asked (traffic_of self.old) (traffic_of self.new)) }
        ensures moved { IfOk result (Moved (traffic_of self.old).bytes_read (traffic_of self.new).bytes_read) }
        ensures piece { IfOk result (λ n. 0 < n → EndsWith file place n (read_of self.new)) }
        ensures whole { IfOk result (λ n. IsWhole n (min (length buf.new) (LONGEST_FILE - place)) (traffic_of self.old) (traffic_of self.new)) }
        ensures locked { place < LONGEST_FILE → OnOk result (IsLocked (traffic_of self.old) (traffic_of self.new)) }
        ensures only_reads { OnlyReads (traffic_of self.old) (traffic_of self.new) }
    {
        if place >= LONGEST_FILE {
            return Ok(0);
        }
        match self.folder.read_at(&mut self.system, file, place, buf) {
            Ok(count) => Ok(count),
            Err(error) => self.refusals.refuse(Fault::Read, Some(file), error),
        }
    }

    fn write_at(&mut self, file: FileName, place: u64, bytes: &[u8]) -> Result<(), SiteError>
        requires { place + length bytes.now ≤ LONGEST_FILE }
        ensures counted { Counted Fault.Write (counted self.old) (counted self.new) result }
        ensures same_folder { folder_path self.new ≡ folder_path self.old }
        ensures asked { OnOk result (Asked (traffic_of self.old) (traffic_of self.new)) }
        ensures moved { OnOk result
            (Moved (traffic_of self.old).bytes_written (traffic_of self.new).bytes_written (length bytes.now)) }
        ensures piece { 0 < length bytes.now
            → OnOk result (EndsWith file place (length bytes.now) (written_of self.new)) }
        ensures locked { OnOk result ((traffic_of self.new).is_held ≡ true) }
        ensures only_writes { OnlyWrites (traffic_of self.old) (traffic_of self.new) }
    {
        match self.folder.write_at(&mut self.system, file, place, bytes) {
            Ok(()) => Ok(()),
            Err(error) => self.refusals.refuse(Fault::Write, Some(file), error),
        }
    }

    fn cut(&mut self, file: FileName, len: u64) -> Result<(), SiteError>
        ensures counted { Counted Fault.Write (counted self.old) (counted self.new) result }
        ensures same_folder { folder_path self.new ≡ folder_path self.old }
        ensures asked { OnOk result (Asked (traffic_of self.old) (traffic_of self.new)) }
        ensures locked { OnOk result (IsLocked (traffic_of self.old) (traffic_of self.new)) }
        ensures no_bytes { NoBytes (traffic_of self.old) (traffic_of self.new) }
    {
        match self.folder.cut(&mut self.system, file, len) {
            Ok(()) => Ok(()),
            Err(error) => self.refusals.refuse(Fault::Write, Some(file), error),
        }
    }

    fn sync(&mut self, file: FileName) -> Result<(), SiteError>
        ensures counted { Counted Fault.Sync (counted self.old) (counted self.new) result }
        ensures same_folder { folder_path self.new ≡ folder_path self.old }
        ensures asked { OnOk result (Asked (traffic_of self.old) (traffic_of self.new)) }
        ensures locked { OnOk result (IsLocked (traffic_of self.old) (traffic_of self.new)) }
        ensures no_bytes { NoBytes (traffic_of self.old) (traffic_of self.new) }
        ensures durable { OnOk result (IsDurable file (traffic_of self.old) (traffic_of self.new)) }
    {
        match self.folder.sync(&mut self.system, file) {
            Ok(()) => Ok(()),
            Err(error) => self.refusals.refuse(Fault::Sync, Some(file), error),
        }
    }

    fn remove(&mut self, file: FileName) -> Result<(), SiteError>
        ensures counted { Counted Fault.Remove (counted self.old) (counted self.new) result }
        ensures same_folder { folder_path self.new ≡ folder_path self.old }
        ensures asked { OnOk result (Asked (traffic_of self.old) (traffic_of self.new)) }
        ensures locked { OnOk result (IsLocked (traffic_of self.old) (traffic_of self.new)) }
        ensures no_bytes { NoBytes (traffic_of self.old) (traffic_of self.new) }
    {
        match self.folder.remove(&mut self.system, file) {
            Ok(()) => Ok(()),
            Err(error) => self.refusals.refuse(Fault::Remove, Some(file), error),
        }
    }

    fn list(&mut self, after: Option<FileName>) -> Result<Option<FileName>, SiteError>
        ensures bound { IfOk result (λ next. IfSome next (IsListed after)) }
        ensures counted { Counted Fault.List (counted self.old) (counted self.new) result }
        ensures same_folder { folder_path self.new ≡ folder_path self.old }
        ensures asked { IfNone after (OnOk result (Asked (traffic_of self.old) (traffic_of self.new))) }
        ensures looked { IfOk result (λ next. OnSome next (Asked (traffic_of self.old) (traffic_of self.new))) }
        ensures locked { OnOk result (IsLocked (traffic_of self.old) (traffic_of self.new)) }
        ensures no_bytes { NoBytes (traffic_of self.old) (traffic_of self.new) }
    {
        match self.folder.list(&mut self.system, after) {
            Ok(found) => Ok(found),
            Err(error) => self.refusals.refuse(Fault::List, None, error),
        }
    }

    fn tell(&mut self, bytes: &[u8]) -> Result<(), SiteError>
        ensures counted { TellCounted (counted self.old) (counted self.new) result }
        ensures same_folder { folder_path self.new ≡ folder_path self.old }
        ensures asked { 0 < length bytes.now → OnOk result (Asked (traffic_of self.old) (traffic_of self.new)) }
        ensures moved { OnOk result
            (Moved (traffic_of self.old).bytes_told (traffic_of self.new).bytes_told (length bytes.now)) }
        ensures only_tells { OnlyTells (traffic_of self.old) (traffic_of self.new) }
    {
        match write_all(&mut self.system, bytes) {
            Ok(()) => Ok(()),
            Err(error) => self.refusals.refuse_tell(error),
        }
    }
}

/// Writes to standard output until all bytes are written. Where some were, a want of memory isn't answered as one: that says that
/// nothing was done.
fn write_all<R: Print>(system: &mut System<R>, bytes: &[u8]) -> io::Result<()>
    ensures asked { 0 < length bytes.now → OnOk result (Asked system.old.traffic system.new.traffic) }
    ensures moved { OnOk result (Moved system.old.traffic.bytes_told system.new.traffic.bytes_told (length bytes.now)) }
    ensures only_tells { OnlyTells system.old.traffic system.new.traffic }
{
    let mut done = 0;
    for _ in 0..u64::MAX {
        if done == bytes.len() {
            return Ok(());
        }
        match system.tell(&bytes[done..]) {
            Ok(0) => return Err(ErrorKind::WriteZero.into()),
            Ok(count) => done += count,
            Err(error) if error.kind() == ErrorKind::Interrupted => {}
            Err(error) if done > 0 && error.kind() == ErrorKind::OutOfMemory => {
                return Err(ErrorKind::WriteZero.into());
            }
            Err(error) => return Err(error),
        }
    }
    Err(ErrorKind::TimedOut.into())
}
