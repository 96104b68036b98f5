ghost use Rattle.std.specs.Prelude.{◌<◌, ◌^◌, All};
ghost use Rattle.px_history.specs.Fitting.{PlacesFit};
ghost use Rattle.px_recs.specs.Text.{SlotFits};
ghost use Rattle.px_appending.specs.Versions.{FitsFields};

use px_cells::{Header, Slot};
use px_held::Prepared;

/// The numbers and bytes of what is prepared fit the fields of their cells, as their types say. It does nothing.
pub(crate) fn fits_fields(prepared: &Prepared)
    ensures { FitsFields prepared.now }
{
    places_fit(prepared.linking.header);
    slot_fits(&prepared.linking.slot);
}

fn places_fit(header: Header)
    ensures { PlacesFit header }
{
    fits_4_bytes(header.slots);
    fits_4_bytes(header.rows);
}

fn slot_fits(slot: &Slot)
    ensures { SlotFits slot.now }
{
    fits_8_bytes(slot.xn);
    fits_4_bytes(slot.next);
    fits_4_bytes(slot.row);
    fits_4_bytes(slot.tag);
    fits_4_bytes(slot.total);
    fits_4_bytes(slot.log);
    fits_4_bytes(slot.place);
    are_bytes(slot.key.as_slice());
    are_bytes(slot.short.as_slice());
}

fn fits_4_bytes(number: u32)
    ensures { number < 2 ^ 32 }
{}

fn fits_8_bytes(number: u64)
    ensures { number < 2 ^ 64 }
{}

fn are_bytes(bytes: &[u8])
    ensures { All (λ b. b < 2 ^ 8) bytes.now }
{}
