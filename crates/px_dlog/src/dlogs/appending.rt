// A part appended.
ghost use Rattle.std.specs.Prelude.{◌≡◌, ℕ, ◌≤◌, false, List, length, Some, IfOk, IfErr, IsErrOf, OnOk, OnErr};
ghost use Rattle.px_site.specs.Cause.{NoneFell};
ghost use Rattle.px_site.specs.Names.{same_file};
ghost use Rattle.px_site.specs.State.{EachMoment};
ghost use Rattle.px_site.specs.declared.name.FileName.{FileName};
ghost use Rattle.px_dlog.specs.Errors.{HasCause, LeavesUntouched, UnlessFault};
ghost use Rattle.px_dlog.specs.Inventory.{logs_of};
ghost use Rattle.px_dlog.specs.Logs.{IsDlogOf, IsGrown, KeepsParts, Stored, full_at, full_log, part_log, with_part};
ghost use Rattle.px_dlog.specs.Part.{part_size, part_text};

use crate::dlogs::syncing::sync_log;
use crate::part::{LONGEST_PART, part_header};
use crate::{Dlogs, LogError, PartRef};
use px_site::{FileName, Site};
use std::alloc::AllocError;

impl Dlogs {
    /// Appends a part of these bytes for a table's slot. It goes to the current log; where that is full or there is none, to
    /// the next one, once each part of the current one is synced. LogFull where no log may have that number; OutOfMemory
    /// where the call or the site wants memory.
    ///
    /// After an error the logs are as before. The site is too, but that a full log may be synced; and a fault may leave other bytes
    /// in place of parts that don't rest.
    pub fn append_part<W: Site>(
        &mut self,
        site: &mut W,
        table: u8,
        slot: u32,
        bytes: &[u8],
    ) -> Result<PartRef, LogError>
        requires shortest { 1 ≤ length bytes.now }
        requires longest { length bytes.now ≤ LONGEST_PART }
        ensures names { IfOk result (λ part. (part.table ≡ table) × (part.slot ≡ slot) × (part.length ≡ length bytes.now)) }
        ensures place { IfOk result (λ part. (part.log ≡ part_log (logs_of self.old)) × (part.place ≡ (logs_of self.old).len part.log)) }
        ensures logs { IfOk result (λ part. IsGrown part.log (part_size part.length) (logs_of self.old) (logs_of self.new)) }
        ensures as_before { OnErr result (self.new ≡ self.old) }
        ensures appended { W.tells → (parts : List Stored) → IsDlogOf (logs_of self.old) parts (W.state site.old)
            → IfOk result (λ part. IsDlogOf (logs_of self.new) (with_part part bytes.now parts) (W.state site.new)) }
        ensures kept { W.tells → (parts : List Stored) → IsDlogOf (logs_of self.old) parts (W.state site.old)
            → IfErr result (UnlessFault (IsDlogOf (logs_of self.new) parts (W.state site.new))) }
        ensures untouched { W.tells → IfErr result (LeavesUntouched (full_log (logs_of self.old)) (W.state site.old) (W.state site.new)) }
        ensures others { W.tells → (name : FileName) → same_file (FileName.Dlog (part_log (logs_of self.old))) name ≡ false
            → (W.state site.new).content name ≡ (W.state site.old).content name }
        ensures moments { W.tells → (parts : List Stored) → IsDlogOf (logs_of self.old) parts (W.state site.old)
            → EachMoment (KeepsParts (W.state site.old).now) (W.state site.old) (W.state site.new) }
        ensures full { (n : ℕ) → full_at (logs_of self.old) ≡ Some n → IsErrOf result (LogError.LogFull n) }
        ensures none_fell { NoneFell (W.counts site.old) (W.counts site.new) }
        ensures cause { IfErr result (HasCause (logs_of self.old) (W.counts site.old) (W.counts site.new)) }
    {
        let Some(end) = self.inventory.end() else {
            return Err(LogError::LogFull(self.inventory.next));
        };
        fill(&mut self.buffer, table, slot, bytes)?;
        self.inventory.reserve()?;
        let text = self.buffer.as_slice();
        let size = text.len() as u32;
        sync_log(site, self.inventory.to_close(end))?;
        site.write_at(FileName::Dlog(end.log), u64::from(end.place), text)?;
        self.inventory.extend(end, size);
        Ok(PartRef {
            log: end.log,
            place: end.place,
            length: bytes.len() as u32,
            table,
            slot,
        })
    }
}

/// Puts a part of these bytes in place of what was there.
fn fill(buffer: &mut Vec<u8>, table: u8, slot: u32, bytes: &[u8]) -> Result<(), AllocError>
    requires { length bytes.now ≤ LONGEST_PART }
    ensures text { OnOk result (buffer.new.items ≡ part_text table slot bytes.now) }
    ensures size { OnOk result (length buffer.new.items ≡ part_size (length bytes.now)) }
{
    let header = part_header(table, slot, bytes);
    buffer.clear();
    buffer.extend_from_slice(&header)?;
    buffer.extend_from_slice(bytes)
}
