ghost use Rattle.std.specs.Prelude.{◌≡◌, ◌≢◌, ◌≤◌, ◌+◌, ℕ, List, None, length, map};
ghost use Rattle.std.specs.List.{AllByRecursion};
ghost use Rattle.px_cells.specs.declared.cell.CellKind.TheVariants.{Header as AHeader, Pointer as APointer, Slot as ASlot};
ghost use Rattle.px_cells.specs.declared.header.Header.{Header};
ghost use Rattle.px_cells.specs.declared.slot.Slot.{Slot};
ghost use Rattle.px_free.specs.Places.{next_place, slots_of};
ghost use Rattle.px_recs.specs.Text.{HeaderAt, HeaderFits, PointerAt, SlotAt, SlotFits};
ghost use Rattle.px_chain.specs.Cells.{cell_of};
ghost use Rattle.px_chain.specs.Links.{BeginsRow, IsStored, VariesRow, chain_of, link_cells, linked, parts_of, row_taken, slot_taken, unlink_cells, unlinked};
ghost use Rattle.px_chain.specs.Sound.{IsSound, IsUsedRow, Layout, no_layout, no_places};
ghost use Rattle.px_chain.specs.Table.{Content, Table, laid};
ghost use Rattle.px_cells.specs.Unused.{free_pointer, unused_slot};
ghost use Rattle.px_chain.specs.Unused.{unused_table};
ghost use Rattle.px_laid.specs.Holds.{Holds};
ghost use Rattle.px_laid.specs.Places.{Places, laid_over, none_laid};
ghost use Rattle.px_laid.specs.Reading.{header_bytes, pointer_bytes, slot_bytes};
ghost use Rattle.px_laid.specs.Says.{AreSaid, ContentFits, CountsLaid, Says};
ghost use Rattle.px_laid.specs.Whole.{AreCellsOf, IsErrorOf};
ghost use Rattle.px_laid.specs.declared.table.TableCells.{TableCells};
ghost use Rattle.px_laid.specs.declared.table.TableError.TheVariants.{OutOfMemory};
ghost use Rattle.px_laid.specs.declared.table.TableError.{TableError};

use px_chain::{
    a_new_row_is_sound, a_new_variation_is_sound, no_cells_are_sound, unlinked_cells_are_sound,
};
use px_recs::one_reading;

/// Zero bytes, as which a cell is read that isn't there, are those of one that was never used.
pub fn what_is_not_laid_was_never_used()
    ensures header { (places : Places) (table : ℕ) → places AHeader table 0 ≡ None → HeaderAt (header_bytes places table) no_places }
    ensures pointer { (places : Places) (table number : ℕ) → places APointer table number ≡ None
        → PointerAt (pointer_bytes places table number) free_pointer }
    ensures slot { (short : ℕ) (places : Places) (table number : ℕ) → places ASlot table number ≡ None
        → SlotAt short (slot_bytes short places table number) unused_slot }
{}

/// Places that say a table, once the cells of its new contents are laid over them, say the table with these contents. So a log
/// of changes that linked and unlinked versions reads as the table that they made.
pub fn laid_texts_are_texts_of_what_is_laid()
    ensures { (short number : ℕ) (table : Table) (places : Places) (contents : List Content)
        → Says short number table places → AllByRecursion (ContentFits short) contents
        → Says short number (laid table contents) (laid_over places (map (cell_of number short) contents)) }
{}

/// The cells of one table lie over none of another.
pub fn cells_of_other_tables_change_nothing()
    ensures { (short number other : ℕ) (table : Table) (places : Places) (contents : List Content) → number ≢ other
        → Says short number table places → Says short number table (laid_over places (map (cell_of other short) contents)) }
{}

/// Places say one table.
pub fn what_is_said_is_one()
    ensures header { (short number : ℕ) (a b : Table) (places : Places) → Says short number a places → Says short number b places
        → a.header ≡ b.header }
    ensures slot { (short number : ℕ) (a b : Table) (places : Places) (n : ℕ) → Says short number a places
        → Says short number b places → a.slot n ≡ b.slot n }
    ensures pointer { (short number : ℕ) (a b : Table) (places : Places) (n : ℕ) → Says short number a places
        → Says short number b places → a.pointer n ≡ b.pointer n }
{
    one_reading();
}

/// What is read of places that say a table is this table, and where a cell lies at each place that it counts, it is read unless
/// memory is short.
pub fn what_is_said_is_read()
    ensures cells { (short number : ℕ) (table : Table) (places : Places) (cells : TableCells) → Says short number table places
        → AreCellsOf short places number cells → AreSaid table cells }
    ensures error { (short number : ℕ) (table : Table) (places : Places) (error : TableError) → Says short number table places
        → CountsLaid places number table.header → IsErrorOf short places number error → error ≡ OutOfMemory }
{
    one_reading();
}

/// Places hold a table without cells where nothing is laid. Where they hold a table, the cells that link or unlink versions of
/// it, laid over them, leave them holding the table that these make, and the cells of another table leave it as it is. So the
/// changes of a log, laid one after the other, are read as the table that they made (`what_is_said_is_read`).
pub fn held_tables_stay_held()
    ensures nothing { (short number : ℕ) → Holds short number unused_table no_layout none_laid }
    ensures new_row { (short number : ℕ) (table : Table) (layout : Layout) (places : Places) (header : Header) (slot : Slot)
        → Holds short number table layout places → IsStored short slot → BeginsRow table header slot → HeaderFits header → SlotFits slot
        → Holds short number (laid table (link_cells header (next_place (slots_of table.header)) slot))
        (linked (row_taken (slot_taken layout)) (next_place (slots_of table.header)) slot.row)
        (laid_over places (map (cell_of number short) (link_cells header (next_place (slots_of table.header)) slot))) }
    ensures new_variation { (short number : ℕ) (table : Table) (layout : Layout) (places : Places) (header : Header) (slot : Slot)
        → Holds short number table layout places → IsStored short slot → VariesRow table header slot → HeaderFits header → SlotFits slot
        → Holds short number (laid table (link_cells header (next_place (slots_of table.header)) slot))
        (linked (slot_taken layout) (next_place (slots_of table.header)) slot.row)
        (laid_over places (map (cell_of number short) (link_cells header (next_place (slots_of table.header)) slot))) }
    ensures unlinked { (short number : ℕ) (table : Table) (layout : Layout) (places : Places) (row from count : ℕ)
        → Holds short number table layout places → IsUsedRow table row → 1 ≤ count → from + count ≤ length (layout.chain row)
        → Holds short number (laid table (unlink_cells table.header (parts_of (chain_of table (layout.chain row)) from count)))
        (unlinked layout row from count)
        (laid_over places (map (cell_of number short) (unlink_cells table.header (parts_of (chain_of table (layout.chain row)) from count)))) }
    ensures other_table { (short number other : ℕ) (table : Table) (layout : Layout) (places : Places) (contents : List Content)
        → number ≢ other → Holds short number table layout places
        → Holds short number table layout (laid_over places (map (cell_of other short) contents)) }
{
    no_cells_are_sound();
    a_new_row_is_sound();
    a_new_variation_is_sound();
    unlinked_cells_are_sound();
}
