ghost use Rattle.std.specs.Prelude.{◌≡◌, IsTrue};
ghost use Rattle.px_cells.specs.Form.{is_short};
ghost use Rattle.px_recs.specs.Place.{is_number_of, place_of, size_of, table_file};

use px_cells::{CellKind, HEADER_SIZE, POINTER_SIZE, SLOT_HEAD_SIZE};
use px_site::FileName;

/// How many bytes a cell has, in a store with this short length.
pub fn cell_size(what: CellKind, short: u32) -> usize
    requires { IsTrue (is_short short) }
    ensures { result ≡ size_of short what }
{
    match what {
        CellKind::Header => HEADER_SIZE,
        CellKind::Slot => SLOT_HEAD_SIZE + short as usize,
        CellKind::Pointer => POINTER_SIZE,
    }
}

/// The place of a cell in its file, in bytes: the record file for a header and a slot, the row file for a row pointer.
pub fn cell_place(what: CellKind, number: u32, short: u32) -> u64
    requires number { IsTrue (is_number_of what number) }
    requires short { IsTrue (is_short short) }
    ensures { result ≡ place_of short what number }
{
    let size = cell_size(what, short) as u64;
    match what {
        CellKind::Header => 0,
        CellKind::Slot => HEADER_SIZE as u64 + u64::from(number - 1) * size,
        CellKind::Pointer => u64::from(number - 1) * size,
    }
}

/// The file in which a table, whose number is 1 to 8, has its cells of that kind: the record file for a header and a slot, the row
/// file for a row pointer.
pub fn table_file(what: CellKind, table: u8) -> FileName
    ensures { result ≡ table_file what table }
{
    match what {
        CellKind::Header | CellKind::Slot => FileName::Rec(table),
        CellKind::Pointer => FileName::Row(table),
    }
}
