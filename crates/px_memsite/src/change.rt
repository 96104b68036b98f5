// A change of a file.
ghost use Rattle.std.specs.Prelude.{◌≡◌, [], ◌∷◌, IfOk};
ghost use Rattle.px_site.specs.Disk.{overlaid, touches};
ghost use Rattle.px_memsite.specs.Changes.{change_of, next_content, IsWithinLimit};

use crate::bytes::{front, overlaid};
use std::alloc::{AllocError, Global};

/// What a call does to a file's bytes.
#[derive(Drop)]
pub enum Change {
    /// These bytes are set, from this place on.
    Write(u64, Vec<u8>),
    /// The file is cut to this length, where it is longer.
    Cut(u64),
    /// The file is made empty.
    Remove,
}

impl Change {
    pub fn copy(&self, alloc: Global) -> Result<Change, AllocError>
        ensures { IfOk result (λ copy. change_of copy ≡ change_of self.now) }
    {
        match self {
            Change::Write(place, bytes) => {
                let bytes = Vec::from_slice(alloc, bytes)?;
                Ok(Change::Write(*place, bytes))
            }
            Change::Cut(len) => Ok(Change::Cut(*len)),
            Change::Remove => Ok(Change::Remove),
        }
    }

    /// The content that it leaves. Where it fails, `failure` is how many of its bytes go through.
    pub fn next_content(
        &self,
        alloc: Global,
        content: &[u8],
        failure: Option<u64>,
    ) -> Result<Vec<u8>, AllocError>
        requires { IsWithinLimit (change_of self.now) }
        ensures { IfOk result (λ next. next.items ≡ next_content (change_of self.now) failure content.now) }
    {
        match (self, failure) {
            (_, Some(0)) => Vec::from_slice(alloc, content),
            (Change::Write(place, bytes), Some(through)) => {
                let bytes = front(bytes, through);
                overlaid(alloc, content, *place as usize, bytes)
            }
            (_, Some(_)) => Vec::from_slice(alloc, content),
            (Change::Write(place, bytes), None) => overlaid(alloc, content, *place as usize, bytes),
            (Change::Cut(len), None) => Vec::from_slice(alloc, front(content, *len)),
            (Change::Remove, None) => Ok(Vec::new(alloc)),
        }
    }

    /// Its bytes over what was synced and written before it.
    pub fn written_over(&self, alloc: Global, written: Vec<u8>) -> Result<Vec<u8>, AllocError>
        requires { IsWithinLimit (change_of self.now) }
        ensures { IfOk result (λ next. next.items ≡ overlaid written.items (change_of self.now ∷ [])) }
    {
        match self {
            Change::Write(place, bytes) => overlaid(alloc, &written, *place as usize, bytes),
            _ => Ok(written),
        }
    }

    /// Whether it touches the byte at a place.
    pub fn touches(&self, at: u64) -> bool
        ensures { result ≡ touches (change_of self.now) at }
    {
        match self {
            Change::Write(place, bytes) => *place <= at && at - *place < bytes.len() as u64,
            Change::Cut(len) => *len <= at,
            Change::Remove => true,
        }
    }
}
