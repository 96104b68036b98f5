ghost use Rattle.std.specs.Prelude.{◌≡◌, ◌↔◌, IsNone, IfSome};
ghost use Rattle.px_free.specs.Places.{AreFull, after_giving, after_taking, next_place, rows_of, slots_of};

use px_cells::Header;

/// Takes a row pointer: its number, and the header then. `next` is what the row pointer in front of the free list names as
/// the next one; where the list is empty it isn't looked at. None where every number was used and no row pointer is free.
pub fn take_row(header: Header, next: u32) -> Option<(u32, Header)>
    ensures full { IsNone result ↔ AreFull (rows_of header) }
    ensures row { IfSome result (λ taken. taken.0 ≡ next_place (rows_of header)) }
    ensures rows { IfSome result (λ taken. rows_of taken.1 ≡ after_taking (rows_of header) next) }
    ensures slots { IfSome result (λ taken. slots_of taken.1 ≡ slots_of header) }
{
    if header.free_row == 0 {
        let row = header.rows.checked_add(1)?;
        return Some((
            row,
            Header {
                rows: row,
                ..header
            },
        ));
    }
    Some((
        header.free_row,
        Header {
            free_row: next,
            ..header
        },
    ))
}

/// Gives a row pointer back: the header then. The caller writes the old front of the free list into the row pointer.
pub fn give_row(header: Header, row: u32) -> Header
    ensures rows { rows_of result ≡ after_giving (rows_of header) row }
    ensures slots { slots_of result ≡ slots_of header }
{
    Header {
        free_row: row,
        ..header
    }
}
