// A site in memory whose changing calls are noted.
ghost use Rattle.std.specs.Prelude.{[]};
ghost use Rattle.px_site.specs.Disk.{at_rest};
ghost use Rattle.px_memsite.specs.Calls.{site_counts};

use crate::change::Change;
use px_memsite::MemSite;
use px_site::{FileName, Site, SiteError};
use std::alloc::{AllocError, Global};

/// Calls that were done, in their order.
#[derive(Drop)]
struct Notes {
    alloc: Global,
    changes: Vec<Change>,
    is_whole: bool,
}

impl Notes {
    /// Notes a call, where it was done.
    fn add(&mut self, is_done: bool, change: Result<Change, AllocError>) {
        if !is_done {
            return;
        }
        match change {
            Ok(change) => {
                if self.changes.push(change).is_err() {
                    self.is_whole = false;
                }
            }
            Err(_) => self.is_whole = false,
        }
    }
}

/// The site and the notes. To contracts it tells nothing: it is there for a program to look at.
#[derive(Drop)]
pub(crate) struct WatchedSite {
    site: MemSite,
    notes: Notes,
}

impl WatchedSite {
    /// Over a site of which no call was made yet.
    pub(crate) fn new(alloc: Global, site: MemSite) -> WatchedSite {
        WatchedSite {
            site,
            notes: Notes {
                alloc,
                changes: Vec::new(alloc),
                is_whole: true,
            },
        }
    }

    /// The calls that changed something, in their order. Fails where one couldn't be noted.
    pub(crate) fn into_changes(self) -> Result<Vec<Change>, AllocError> {
        if self.notes.is_whole {
            Ok(self.notes.changes)
        } else {
            Err(AllocError)
        }
    }

    pub(crate) fn told(&self) -> &[u8] {
        self.site.told()
    }

    pub(crate) fn into_site(self) -> MemSite {
        self.site
    }
}

impl Site for WatchedSite {
    ghost tells = { ⊥ };

    ghost state = { λ _. record { content = λ _. []; now = record { files = λ _. at_rest []; told = []; telling = [] }; past = [] } };

    ghost counts = { λ watched. site_counts watched.site };

    ghost reads_image = { λ tells. absurd tells };

    fn len(&mut self, file: FileName) -> Result<u64, SiteError> {
        self.site.len(file)
    }

    fn read_at(&mut self, file: FileName, place: u64, buf: &mut [u8]) -> Result<usize, SiteError> {
        self.site.read_at(file, place, buf)
    }

    fn write_at(&mut self, file: FileName, place: u64, bytes: &[u8]) -> Result<(), SiteError> {
        let change = Change::write(self.notes.alloc, file, place, bytes);
        let answer = self.site.write_at(file, place, bytes);
        self.notes.add(answer.is_ok(), change);
        answer
    }

    fn cut(&mut self, file: FileName, len: u64) -> Result<(), SiteError> {
        let lost = (self.site.content(file).len() as u64).saturating_sub(len);
        let answer = self.site.cut(file, len);
        self.notes
            .add(answer.is_ok(), Ok(Change::Cut { file, len, lost }));
        answer
    }

    fn sync(&mut self, file: FileName) -> Result<(), SiteError> {
        let answer = self.site.sync(file);
        self.notes.add(answer.is_ok(), Ok(Change::Sync(file)));
        answer
    }

    fn remove(&mut self, file: FileName) -> Result<(), SiteError> {
        let lost = self.site.content(file).len() as u64;
        let answer = self.site.remove(file);
        self.notes
            .add(answer.is_ok(), Ok(Change::Remove { file, lost }));
        answer
    }

    fn list(&mut self, after: Option<FileName>) -> Result<Option<FileName>, SiteError> {
        self.site.list(after)
    }

    fn tell(&mut self, bytes: &[u8]) -> Result<(), SiteError> {
        let change = Change::tell(self.notes.alloc, bytes);
        let answer = self.site.tell(bytes);
        self.notes.add(answer.is_ok(), change);
        answer
    }
}
