// A part read again.
ghost use Rattle.std.specs.Prelude.{◌≡◌, length, IfErr, OnOk, OnErr};
ghost use Rattle.px_site.specs.Cause.{NoneFell};
ghost use Rattle.px_site.specs.declared.name.FileName.{FileName};
ghost use Rattle.px_dlog.specs.Errors.{FindsNoPart, HasReadCause};
ghost use Rattle.px_dlog.specs.Logs.{Reads};

use crate::part::{LONGEST_PART, check_part, part_size};
use crate::{Dlogs, LogError, PartRef};
use px_site::{FileName, Site};

impl Dlogs {
    /// Appends the bytes of a part to `out`. Damaged exactly where no part of that length, table and slot checks at its place;
    /// OutOfMemory where the call or the site wants memory. The site stays as it is, and after an error `out` too.
    pub fn read_part<W: Site>(
        &self,
        site: &mut W,
        part: &PartRef,
        out: &mut Vec<u8>,
    ) -> Result<(), LogError>
        ensures read { W.tells → OnOk result (Reads part.now ((W.state site.old).content (FileName.Dlog part.now.log)) out.old.items out.new.items) }
        ensures damaged { W.tells → IfErr result (FindsNoPart part.now ((W.state site.old).content (FileName.Dlog part.now.log))) }
        ensures as_before { OnErr result (out.new.items ≡ out.old.items) }
        ensures same { W.tells → W.state site.new ≡ W.state site.old }
        ensures none_fell { NoneFell (W.counts site.old) (W.counts site.new) }
        ensures cause { IfErr result (HasReadCause (W.counts site.old) (W.counts site.new)) }
    {
        let damaged = LogError::Damaged {
            file: FileName::Dlog(part.log),
            place: u64::from(part.place),
        };
        let length = part.length as usize;
        if length > LONGEST_PART {
            return Err(damaged);
        }
        let mut buffer = vec![in *out.allocator(); 0; part_size(length)]?;
        let count = site.read_at(FileName::Dlog(part.log), u64::from(part.place), &mut buffer)?;
        let Some(bytes) = check_part(&buffer[..count], part.length, part.table, part.slot) else {
            return Err(damaged);
        };
        out.extend_from_slice(bytes)?;
        Ok(())
    }
}
