ghost use Rattle.std.specs.Prelude.{◌≡◌, IfSome, IfNone, IfOk, length};
ghost use Rattle.px_cells.specs.declared.slot.Slot.{Slot};
ghost use Rattle.px_cells.specs.Form.{has_body, has_key, has_no_body, has_no_part, is_free, is_slot, is_unused};
ghost use Rattle.px_model.specs.declared.limits.TheConstants.{LONGEST_KEY};
ghost use Rattle.px_recs.specs.declared.raw.TheConstants.{GAP_SIZE};
ghost use Rattle.px_recs.specs.Fields.{NumbersFit, PartsAt, raw_text};

use crate::code::state_of_code;
use crate::padding::{are_zeros, unpadded};
use crate::raw::{Numbers, Raw, read_raw};
use px_cells::{Slot, SlotState};
use px_model::{Bytes, LONGEST_BODY, LONGEST_KEY};
use std::alloc::{AllocError, Global};
use std::marker::Model;

/// A slot whose key and short part stand in the bytes that it was read from. It need not be in the form.
#[derive(Drop)]
pub(crate) struct Parts<'a> {
    state: SlotState,
    numbers: Numbers,
    key: &'a [u8],
    short: &'a [u8],
}

impl<'a> Model for Parts<'a> {
    ghost use Rattle.px_cells.specs.declared.slot.Slot.{Slot};
    ghost use Rattle.px_recs.specs.Fields.{slot_of};

    ghost Value = { Slot };

    ghost view = { λ p. slot_of p.state p.numbers p.key.now p.short.now };
}

impl<'a> Parts<'a> {
    /// The slot with these bytes. None exactly where they are those of no slot whose parts are as long as it says.
    pub(crate) fn read(bytes: &'a [u8], short: u32) -> Option<Parts<'a>>
        ensures some { IfSome result (PartsAt short bytes.now) }
        ensures none { IfNone result ((slot : Slot) → ¬ PartsAt short bytes.now slot) }
    {
        let raw = read_raw(bytes, short)?;
        Parts::from_raw(&raw)
    }

    fn from_raw(raw: &Raw<'a>) -> Option<Parts<'a>>
        requires gap_size { length raw.now.gap.now ≡ GAP_SIZE }
        requires fit { NumbersFit raw.now.numbers }
        requires key_size { length raw.now.key.now ≡ LONGEST_KEY }
        ensures some { IfSome result (PartsAt (length raw.now.short.now)
            (raw_text raw.now.state raw.now.key_length raw.now.gap.now raw.now.numbers raw.now.key.now raw.now.short.now)) }
        ensures none { IfNone result ((slot : Slot) → ¬ PartsAt (length raw.now.short.now)
            (raw_text raw.now.state raw.now.key_length raw.now.gap.now raw.now.numbers raw.now.key.now raw.now.short.now) slot) }
    {
        if !are_zeros(raw.gap) {
            return None;
        }
        let state = state_of_code(raw.state)?;
        let key = unpadded(raw.key, raw.key_length as usize)?;
        let here = (raw.numbers.total as usize).min(raw.short.len());
        let short = unpadded(raw.short, here)?;
        Some(Parts {
            state,
            numbers: raw.numbers,
            key,
            short,
        })
    }

    /// Whether the slot is in the form of a store with this short length.
    #[tactic(auto, unfolding(px_cells::specs::Form::is_slot))]
    pub(crate) fn is_in_form(&self, short: u32) -> bool
        ensures { result ≡ is_slot short self.now }
    {
        match self.state {
            SlotState::Free => self.is_free(),
            SlotState::Row => self.has_key() && self.has_body(short),
            SlotState::Deletion => { self.has_key() && self.numbers.tag == 0 && self.has_no_body() }
        }
    }

    fn is_free(&self) -> bool
        ensures { result ≡ is_free self.now }
    {
        self.numbers.xn == 0
            && self.numbers.row == 0
            && self.has_no_body()
            && (self.has_key() || self.is_unused())
    }

    fn is_unused(&self) -> bool
        ensures { result ≡ is_unused self.now }
    {
        self.key.is_empty() && self.numbers.next == 0 && self.numbers.tag == 0
    }

    fn has_key(&self) -> bool
        ensures { result ≡ has_key self.now }
    {
        1 <= self.key.len() && self.key.len() <= LONGEST_KEY
    }

    fn has_body(&self, short: u32) -> bool
        ensures { result ≡ has_body short self.now }
    {
        let total = self.numbers.total;
        total <= LONGEST_BODY
            && self.short.len() == total.min(short) as usize
            && if total <= short {
                self.has_no_part()
            } else {
                1 <= self.numbers.log
            }
    }

    fn has_no_body(&self) -> bool
        ensures { result ≡ has_no_body self.now }
    {
        self.numbers.total == 0 && self.short.is_empty() && self.has_no_part()
    }

    fn has_no_part(&self) -> bool
        ensures { result ≡ has_no_part self.now }
    {
        self.numbers.log == 0 && self.numbers.place == 0
    }

    /// The slot with bytes of its own.
    pub(crate) fn to_slot(&self, alloc: Global) -> Result<Slot, AllocError>
        ensures { IfOk result (λ slot. slot ≡ self.now) }
    {
        let numbers = self.numbers;
        Ok(Slot {
            state: self.state,
            xn: numbers.xn,
            next: numbers.next,
            row: numbers.row,
            tag: numbers.tag,
            total: numbers.total,
            log: numbers.log,
            place: numbers.place,
            key: Bytes::from_slice(alloc, self.key)?,
            short: Bytes::from_slice(alloc, self.short)?,
        })
    }
}
