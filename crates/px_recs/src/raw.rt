ghost use Rattle.std.specs.Prelude.{◌≡◌, ◌≢◌, ◌+◌, ◌<◌, ◌++◌, length, IfSome, IfNone};
ghost use Rattle.px_cells.specs.declared.limits.TheConstants.{SLOT_HEAD_SIZE};
ghost use Rattle.px_model.specs.declared.limits.TheConstants.{LONGEST_KEY};
ghost use Rattle.px_recs.specs.Fields.{numbers_text, raw_text, NumbersFit};

use px_bytes::Fields;
use px_model::LONGEST_KEY;

/// How many zero bytes follow the length of a slot's key.
const GAP_SIZE: usize = 2;

/// How many bytes the numbers of a slot have.
const NUMBERS_SIZE: usize = 32;

/// The numbers of a slot.
#[derive(Clone, Copy)]
pub(crate) struct Numbers {
    pub(crate) xn: u64,
    pub(crate) next: u32,
    pub(crate) row: u32,
    pub(crate) tag: u32,
    pub(crate) total: u32,
    pub(crate) log: u32,
    pub(crate) place: u32,
}

/// The fields of a slot as they stand in its bytes, whatever they are.
#[derive(Drop)]
pub(crate) struct Raw<'a> {
    pub(crate) state: u8,
    pub(crate) key_length: u8,
    pub(crate) gap: &'a [u8],
    pub(crate) numbers: Numbers,
    pub(crate) key: &'a [u8],
    pub(crate) short: &'a [u8],
}

/// None exactly where the bytes are more or fewer than a slot's.
#[tactic(auto, unfolding(crate::specs::Fields::raw_text), using(crate::proofs::Slots::numbers_size))]
pub(crate) fn read_raw(bytes: &[u8], short: u32) -> Option<Raw<'_>>
    ensures none { IfNone result (length bytes.now ≢ SLOT_HEAD_SIZE + short) }
    ensures gap_size { IfSome result (λ raw. length raw.gap.now ≡ GAP_SIZE) }
    ensures key_size { IfSome result (λ raw. length raw.key.now ≡ LONGEST_KEY) }
    ensures short_size { IfSome result (λ raw. length raw.short.now ≡ short) }
    ensures fit { IfSome result (λ raw. NumbersFit raw.numbers) }
    ensures some { IfSome result (λ raw. bytes.now ≡ raw_text raw.state raw.key_length raw.gap.now raw.numbers raw.key.now raw.short.now) }
{
    let mut fields = Fields::new(bytes);
    let state = fields.take_u8()?;
    let key_length = fields.take_u8()?;
    let gap = fields.take_slice(GAP_SIZE)?;
    let numbers = take_numbers(&mut fields)?;
    let key = fields.take_slice(LONGEST_KEY)?;
    let short = fields.take_slice(short as usize)?;
    if fields.left() != 0 {
        return None;
    }
    Some(Raw {
        state,
        key_length,
        gap,
        numbers,
        key,
        short,
    })
}

/// Without all of them some may be taken.
fn take_numbers(fields: &mut Fields<'_>) -> Option<Numbers>
    ensures none { IfNone result (length fields.old < NUMBERS_SIZE) }
    ensures taken { IfSome result (λ numbers. fields.old ≡ numbers_text numbers ++ fields.new) }
    ensures fit { IfSome result NumbersFit }
{
    let xn = fields.take_u64()?;
    let next = fields.take_u32()?;
    let row = fields.take_u32()?;
    let tag = fields.take_u32()?;
    let total = fields.take_u32()?;
    let log = fields.take_u32()?;
    let place = fields.take_u32()?;
    Some(Numbers {
        xn,
        next,
        row,
        tag,
        total,
        log,
        place,
    })
}
