// One file in memory.
ghost use Rattle.std.specs.Prelude.{◌≡◌, OnOk};
ghost use Rattle.px_site.specs.Disk.{pending_more};
ghost use Rattle.px_memsite.specs.Changes.{change_of};
ghost use Rattle.px_memsite.specs.Files.{HasRoom, at_rest_view, state_of, view_of};

use crate::change::Change;
use px_site::FileName;
use std::alloc::AllocError;

/// A file as it reads, as it was at its last successful sync, and the changes since, the oldest
/// first.
#[derive(Drop)]
pub struct MemFile {
    pub name: FileName,
    pub content: Vec<u8>,
    pub synced: Vec<u8>,
    pub pending: Vec<Change>,
}

impl MemFile {
    /// Takes the room for one change more.
    pub fn make_room(&mut self) -> Result<(), AllocError>
        ensures name { self.new.name ≡ self.old.name }
        ensures view { view_of self.new ≡ view_of self.old }
        ensures room { OnOk result (HasRoom self.new) }
    {
        self.pending.reserve(1)
    }

    /// Begins a change, with the content that it leaves. There is room for one more.
    pub fn begin(&mut self, change: Change, content: Vec<u8>)
        requires { HasRoom self.old }
        ensures name { self.new.name ≡ self.old.name }
        ensures view { view_of self.new ≡ record { content = content.items; state = pending_more (change_of change) (state_of self.old) } }
    {
        self.pending.push(change).unwrap();
        self.content = content;
    }

    /// Makes its content durable; `content` is a copy of it.
    pub fn settle(&mut self, content: Vec<u8>)
        requires { content.items ≡ self.old.content.items }
        ensures name { self.new.name ≡ self.old.name }
        ensures view { view_of self.new ≡ at_rest_view self.old.content.items }
    {
        self.synced = content;
        self.pending.clear();
    }

    /// Puts this content there, as synced; `copy` is a copy of it.
    pub fn put(&mut self, content: Vec<u8>, copy: Vec<u8>)
        requires { copy.items ≡ content.items }
        ensures name { self.new.name ≡ self.old.name }
        ensures view { view_of self.new ≡ at_rest_view content.items }
    {
        self.content = content;
        self.settle(copy);
    }
}
