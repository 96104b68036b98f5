// The files and the output of a site, with all that happened to them.
ghost use Rattle.std.specs.Prelude.{◌≡◌, ◌+◌, ◌-◌, ◌^◌, ◌≤◌, ℕ, min, length, [], ◌∷◌, ◌++◌, IfOk, IfSome, OnOk, OnErr};
ghost use Rattle.px_site.specs.Disk.{Wrote};
ghost use Rattle.px_site.specs.State.{IsListed, IsNextFile};
ghost use Rattle.px_memsite.specs.declared.event.Event.TheVariants.{Changed, Synced, Told, Put};
ghost use Rattle.px_memsite.specs.Changes.{change_of, IsWithinLimit};
ghost use Rattle.px_memsite.specs.Disk.{Shows, IsInOrder-prop, FitsLimit-prop};
ghost use Rattle.px_memsite.specs.Events.{after_event, after_change, after_tell, after_put, heard, reached, FitsLimit, AllFitLimit};
ghost use Rattle.std.proofs.Props.{props};

use crate::bytes::front;
use crate::change::Change;
use crate::event::Event;
use crate::file::MemFile;
use crate::files::{content_of, entry, next_file, roomy_entry};
use px_site::FileName;
use std::alloc::{AllocError, Global};

/// Files in order of their names, what was told, and all that happened, from which both follow.
#[derive(Drop)]
pub struct Disk {
    pub alloc: Global,
    pub files: Vec<MemFile>,
    pub told: Vec<u8>,
    pub moments: u64,
    pub history: Vec<Event>,
    ghost shows: { Shows files.items told.items moments (reached history.items) } by { Prim.hlevel (props, IsInOrder-prop) },
    ghost fits: { AllFitLimit history.items } by { Prim.hlevel (props, FitsLimit-prop) },
}

impl Disk {
    pub fn new(alloc: Global) -> Self
        ensures { result.history.items ≡ [] }
    {
        Disk {
            alloc,
            files: Vec::new(alloc),
            told: Vec::new(alloc),
            moments: 0,
            history: Vec::new(alloc),
        }
    }

    /// The bytes of a file as it reads.
    pub fn content(&self, file: FileName) -> &[u8]
        ensures value { result.now ≡ (reached self.now.history.items).content file }
        ensures bound { length result.now ≤ 2 ^ 48 }
    {
        content_of(&self.files, file)
    }

    /// The least name after this one whose file has a byte.
    pub fn next_file(&self, after: Option<FileName>) -> Option<FileName>
        ensures listed { IfSome result (IsListed after) }
        ensures next { IsNextFile (reached self.now.history.items).content after result }
    {
        next_file(&self.files, after)
    }

    /// Sets bytes of a file.
    pub fn write(
        &mut self,
        file: FileName,
        place: u64,
        bytes: &[u8],
        failure: Option<u64>,
    ) -> Result<(), AllocError>
        requires { place + length bytes.now ≤ 2 ^ 48 }
        ensures ok { OnOk result (reached self.new.history.items ≡ after_change file (Wrote place bytes.now) failure (reached self.old.history.items)) }
        ensures err { OnErr result (self.new.history.items ≡ self.old.history.items) }
    {
        let bytes = Vec::from_slice(self.alloc, bytes)?;
        self.play(Event::Changed(file, Change::Write(place, bytes), failure))
    }

    /// Tells bytes.
    pub fn tell(&mut self, bytes: &[u8], failure: Option<u64>) -> Result<(), AllocError>
        ensures ok { OnOk result (reached self.new.history.items ≡ after_tell bytes.now failure (reached self.old.history.items)) }
        ensures err { OnErr result (self.new.history.items ≡ self.old.history.items) }
    {
        let bytes = Vec::from_slice(self.alloc, bytes)?;
        self.play(Event::Told(bytes, failure))
    }

    /// Puts bytes into a file from outside, as synced.
    pub fn set_bytes(&mut self, file: FileName, bytes: &[u8]) -> Result<(), AllocError>
        requires { length bytes.now ≤ 2 ^ 48 }
        ensures ok { OnOk result (reached self.new.history.items ≡ after_put file bytes.now (reached self.old.history.items)) }
        ensures err { OnErr result (self.new.history.items ≡ self.old.history.items) }
    {
        let bytes = Vec::from_slice(self.alloc, bytes)?;
        self.play(Event::Put(file, bytes))
    }

    /// Plays an event: it is done, and written down.
    pub fn play(&mut self, event: Event) -> Result<(), AllocError>
        requires { FitsLimit event }
        ensures ok { OnOk result (self.new.history.items ≡ self.old.history.items ++ event ∷ []) }
        ensures state { OnOk result (reached self.new.history.items ≡ after_event event (reached self.old.history.items)) }
        ensures err { OnErr result (self.new.history.items ≡ self.old.history.items) }
    {
        match event {
            Event::Changed(file, change, failure) => self.change(file, change, failure),
            Event::Synced(file, failure) => self.sync(file, failure),
            Event::Told(bytes, failure) => self.say(bytes, failure),
            Event::Put(file, bytes) => self.put(file, bytes),
        }
    }

    /// Changes a file. Where the change fails, `failure` is how many of its bytes go through.
    fn change(
        &mut self,
        file: FileName,
        change: Change,
        failure: Option<u64>,
    ) -> Result<(), AllocError>
        requires { IsWithinLimit (change_of change) }
        ensures ok { OnOk result (self.new.history.items ≡ self.old.history.items ++ Changed file change failure ∷ []) }
        ensures err { OnErr result (self.new.history.items ≡ self.old.history.items) }
    {
        let content = change.next_content(self.alloc, content_of(&self.files, file), failure)?;
        let copy = change.copy(self.alloc)?;
        let at = roomy_entry(self.alloc, &mut self.files, file)?;
        self.history.push(Event::Changed(file, change, failure))?;
        self.files[at].begin(copy, content);
        self.moments = self.moments.saturating_add(2);
        Ok(())
    }

    /// Makes a file's content durable, unless it fails.
    fn sync(&mut self, file: FileName, failure: Option<u64>) -> Result<(), AllocError>
        ensures ok { OnOk result (self.new.history.items ≡ self.old.history.items ++ Synced file failure ∷ []) }
        ensures err { OnErr result (self.new.history.items ≡ self.old.history.items) }
    {
        match failure {
            Some(_) => {
                self.history.push(Event::Synced(file, failure))?;
                self.moments = self.moments.saturating_add(2);
                return Ok(());
            }
            None => {}
        }
        let content = Vec::from_slice(self.alloc, content_of(&self.files, file))?;
        let at = entry(self.alloc, &mut self.files, file)?;
        self.history.push(Event::Synced(file, failure))?;
        self.files[at].settle(content);
        self.moments = self.moments.saturating_add(2);
        Ok(())
    }

    /// Tells bytes. Where that fails, `failure` is how many of them go through.
    fn say(&mut self, bytes: Vec<u8>, failure: Option<u64>) -> Result<(), AllocError>
        ensures ok { OnOk result (self.new.history.items ≡ self.old.history.items ++ Told bytes failure ∷ []) }
        ensures err { OnErr result (self.new.history.items ≡ self.old.history.items) }
    {
        let out = Vec::from_slice(self.alloc, heard(&bytes, failure))?;
        self.told.reserve(out.len())?;
        self.history.push(Event::Told(bytes, failure))?;
        self.told.extend_from_slice(&out).unwrap();
        self.moments = self.moments.saturating_add(2);
        Ok(())
    }

    /// Puts bytes into a file from outside, as synced.
    fn put(&mut self, file: FileName, bytes: Vec<u8>) -> Result<(), AllocError>
        requires { length bytes.items ≤ 2 ^ 48 }
        ensures ok { OnOk result (self.new.history.items ≡ self.old.history.items ++ Put file bytes ∷ []) }
        ensures err { OnErr result (self.new.history.items ≡ self.old.history.items) }
    {
        let content = Vec::from_slice(self.alloc, &bytes)?;
        let synced = Vec::from_slice(self.alloc, &bytes)?;
        let at = entry(self.alloc, &mut self.files, file)?;
        self.history.push(Event::Put(file, bytes))?;
        self.files[at].put(content, synced);
        Ok(())
    }
}

/// What goes out of bytes that are told.
fn heard(bytes: &[u8], failure: Option<u64>) -> &[u8]
    ensures { result.now ≡ heard bytes.now failure }
{
    match failure {
        Some(through) => front(bytes, through),
        None => bytes,
    }
}
