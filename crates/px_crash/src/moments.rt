// What is known of a run by a moment of it.

use crate::change::Change;
use px_site::FileName;
use std::alloc::{AllocError, Global};

/// How many bytes of a file were touched since its last sync, at most.
#[derive(Clone, Copy, Debug)]
struct Loose {
    file: FileName,
    bytes: u64,
}

/// What isn't synced, and what was acknowledged.
#[derive(Drop)]
pub(crate) struct Progress {
    loose: Vec<Loose>,
    /// How many commits were acknowledged.
    pub acknowledged: u64,
}

impl Progress {
    pub(crate) fn new(alloc: Global) -> Progress {
        Progress {
            loose: Vec::new(alloc),
            acknowledged: 0,
        }
    }

    /// A call begins. What is being told may be out in full, so a commit that it acknowledges counts.
    pub(crate) fn begin(&mut self, change: &Change) -> Result<(), AllocError> {
        if let Some((file, bytes)) = change.touched() {
            self.touch(file, bytes)?;
        }
        if change.told().is_some_and(is_acknowledgement) {
            self.acknowledged = self.acknowledged.saturating_add(1);
        }
        Ok(())
    }

    /// The call is over.
    pub(crate) fn end(&mut self, change: &Change) {
        match change {
            Change::Sync(file) => self.loose.retain(|loose| loose.file != *file),
            _ => {}
        }
    }

    /// How many bytes a crash may leave or not, at most.
    pub(crate) fn loose(&self) -> u64 {
        let mut sum = 0u64;
        for loose in self.loose.as_slice() {
            sum = sum.saturating_add(loose.bytes);
        }
        sum
    }

    fn touch(&mut self, file: FileName, bytes: u64) -> Result<(), AllocError> {
        for loose in self.loose.iter_mut() {
            if loose.file == file {
                loose.bytes = loose.bytes.saturating_add(bytes);
                return Ok(());
            }
        }
        self.loose.push(Loose { file, bytes })?;
        Ok(())
    }
}

/// Whether a reply acknowledges a commit.
pub(crate) fn is_acknowledgement(reply: &str) -> bool {
    reply.starts_with("committed ")
}
