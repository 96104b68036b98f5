// What a crash leaves of a file.
ghost use Rattle.std.specs.Prelude.{◌≡◌, ◌+◌, ◌-◌, ◌^◌, ◌<◌, ◌≤◌, cond, ◌&&◌, nat_lt, length, slice_index, IfOk, OnOk, IfSome, OnSome, IfNone};
ghost use Rattle.px_site.specs.Disk.{IsImage, written};
ghost use Rattle.px_memsite.specs.Crash.{is_touched, touched_below, touched_count, kept_behind, IsKept, IsTorn, IsWithin};
ghost use Rattle.px_memsite.specs.Files.{state_of};

use crate::crash::Keep;
use crate::file::MemFile;
use std::alloc::{AllocError, Global};

impl MemFile {
    /// What a crash leaves of it. `keep` becomes what is to be kept of the files behind it.
    pub fn image(&self, alloc: Global, keep: &mut Keep) -> Result<Vec<u8>, AllocError>
        requires { IsWithin (state_of self.now) }
        ensures kept { IfOk result (λ bytes. IsKept keep.old (state_of self.now) bytes.items) }
        ensures rest { OnOk result (keep.new ≡ kept_behind (touched_count (state_of self.now)) keep.old) }
    {
        match keep {
            Keep::Synced => Vec::from_slice(alloc, &self.synced),
            Keep::Written => self.written(alloc),
            Keep::Torn(left) => {
                let written = self.written(alloc)?;
                self.torn(alloc, &written, left)
            }
        }
    }

    /// What was synced, with the bytes of each write since over it.
    fn written(&self, alloc: Global) -> Result<Vec<u8>, AllocError>
        requires { IsWithin (state_of self.now) }
        ensures { IfOk result (λ bytes. bytes.items ≡ written (state_of self.now)) }
    {
        let mut bytes = Vec::from_slice(alloc, &self.synced)?;
        for change in &self.pending {
            bytes = change.written_over(alloc, bytes)?;
        }
        Ok(bytes)
    }

    /// The first `left` touched bytes as written, and the others as synced. `left` becomes what is
    /// left of it behind this file.
    fn torn(&self, alloc: Global, all_written: &[u8], left: &mut u64) -> Result<Vec<u8>, AllocError>
        requires { all_written.now ≡ written (state_of self.now) }
        ensures torn { IfOk result (λ bytes. IsTorn left.old (state_of self.now) bytes.items) }
        ensures left { OnOk result (left.new ≡ left.old - touched_count (state_of self.now)) }
    {
        let mut bytes = Vec::new(alloc);
        for at in 0..all_written.len() {
            match self.torn_byte(all_written, at, left) {
                Some(byte) => bytes.push(byte)?,
                None => return Ok(bytes),
            }
        }
        Ok(bytes)
    }

    /// The byte at a place as written, where it is touched and some are left to keep, or else as
    /// synced. Past what was synced there is none then.
    fn torn_byte(&self, all_written: &[u8], at: usize, left: &mut u64) -> Option<u8>
        requires { at < length all_written.now }
        ensures left { left.new ≡ left.old - cond (is_touched (state_of self.now) at) 1 0 }
        ensures some { IfSome result (λ byte. byte ≡ cond (is_touched (state_of self.now) at && nat_lt 0 left.old) (slice_index all_written.now at) (slice_index self.now.synced.items at)) }
        ensures within { OnSome result (length self.now.synced.items ≤ at → 0 < left.old) }
        ensures none { IfNone result ((length self.now.synced.items ≤ at) × (left.old ≡ 0)) }
    {
        if self.is_touched(at as u64) && *left > 0 {
            *left -= 1;
            return Some(all_written[at]);
        }
        if at < self.synced.len() {
            return Some(self.synced[at]);
        }
        None
    }

    fn is_touched(&self, at: u64) -> bool
        ensures { result ≡ is_touched (state_of self.now) at }
    {
        if at >= self.synced.len() as u64 {
            return true;
        }
        for change in &self.pending {
            if change.touches(at) {
                return true;
            }
        }
        false
    }
}
