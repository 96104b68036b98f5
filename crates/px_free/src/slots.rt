ghost use Rattle.std.specs.Prelude.{◌≡◌, ◌↔◌, IsNone, IfSome};
ghost use Rattle.px_free.specs.Places.{AreFull, after_giving, after_taking, next_place, rows_of, slots_of};

use px_cells::Header;

/// Takes a slot: its number, and the header then. `next` is what the slot in front of the free list names as the next one;
/// where the list is empty it isn't looked at. None where every number was used and no slot is free.
pub fn take_slot(header: Header, next: u32) -> Option<(u32, Header)>
    ensures full { IsNone result ↔ AreFull (slots_of header) }
    ensures slot { IfSome result (λ taken. taken.0 ≡ next_place (slots_of header)) }
    ensures slots { IfSome result (λ taken. slots_of taken.1 ≡ after_taking (slots_of header) next) }
    ensures rows { IfSome result (λ taken. rows_of taken.1 ≡ rows_of header) }
{
    if header.free_slot == 0 {
        let slot = header.slots.checked_add(1)?;
        return Some((
            slot,
            Header {
                slots: slot,
                ..header
            },
        ));
    }
    Some((
        header.free_slot,
        Header {
            free_slot: next,
            ..header
        },
    ))
}

/// Gives a slot back: the header then. The caller writes the old front of the free list into the slot.
pub fn give_slot(header: Header, slot: u32) -> Header
    ensures slots { slots_of result ≡ after_giving (slots_of header) slot }
    ensures rows { rows_of result ≡ rows_of header }
{
    Header {
        free_slot: slot,
        ..header
    }
}
