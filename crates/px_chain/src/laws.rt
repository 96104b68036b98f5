ghost use Rattle.std.specs.Prelude.{◌≡◌, ◌↔◌, ◌≤◌, ◌+◌, ℕ, List, Contains, drop, false, length, take};
ghost use Rattle.px_chain.specs.declared.chain.Linked.{Linked};
ghost use Rattle.px_cells.specs.declared.header.Header.{Header};
ghost use Rattle.px_cells.specs.declared.slot.Slot.{Slot};
ghost use Rattle.px_free.specs.Places.{next_place, slots_of};
ghost use Rattle.px_chain.specs.Links.{BeginsRow, IsSameVariation, IsStored, Parts, Rise, VariesRow, chain_of, is_emptied, link_cells, linked, parts_of, row_taken, slot_taken, unlink_cells, unlinked, unlinked_header, unlinked_pointer, unlinked_slots};
ghost use Rattle.px_chain.specs.Near.{near_at, near_cells, near_header, near_of, near_pointer, near_slots};
ghost use Rattle.px_chain.specs.Places.{StandsAt, slot_in};
ghost use Rattle.px_chain.specs.Sound.{IsApart, IsLinkedAlike, IsSound, IsUsedRow, IsVariation, Layout, head_of, key_of, next_slot, no_layout, no_places};
ghost use Rattle.px_chain.specs.Table.{Table, laid};

/// A table without places is sound.
pub fn no_cells_are_sound()
    ensures { (short : ℕ) (table : Table) → table.header ≡ no_places → IsSound short table no_layout }
{}

/// The first version of a row, in a slot and under a row pointer that were just taken: its cells over sound cells are sound,
/// with a chain of this slot alone, and all else is as before.
pub fn a_new_row_is_sound()
    ensures { (short : ℕ) (table : Table) (layout : Layout) (header : Header) (slot : Slot)
        → IsSound short table layout → IsStored short slot → BeginsRow table header slot
        → IsSound short (laid table (link_cells header (next_place (slots_of table.header)) slot))
        (linked (row_taken (slot_taken layout)) (next_place (slots_of table.header)) slot.row) }
{}

/// Another version of a row, in a slot that was just taken: its cells over sound cells are sound, with it in front of the
/// row's chain, and all else is as before.
pub fn a_new_variation_is_sound()
    ensures { (short : ℕ) (table : Table) (layout : Layout) (header : Header) (slot : Slot)
        → IsSound short table layout → IsStored short slot → VariesRow table header slot
        → IsSound short (laid table (link_cells header (next_place (slots_of table.header)) slot))
        (linked (slot_taken layout) (next_place (slots_of table.header)) slot.row) }
{}

/// The cells of an unlink, over sound cells, are sound: the row's chain lacks just these versions, whose slots are in front
/// of the free list, as is the row pointer where none is left, and all else is as before.
pub fn unlinked_cells_are_sound()
    ensures { (short : ℕ) (table : Table) (layout : Layout) (row from count : ℕ)
        → IsSound short table layout → IsUsedRow table row → 1 ≤ count → from + count ≤ length (layout.chain row)
        → IsSound short (laid table (unlink_cells table.header (parts_of (chain_of table (layout.chain row)) from count)))
        (unlinked layout row from count) }
{}

/// Each slot that isn't unlinked holds what it held; it may lead elsewhere.
pub fn slots_that_stay_hold_the_same()
    ensures { (short : ℕ) (table : Table) (layout : Layout) (row from count slot : ℕ)
        → IsSound short table layout → IsUsedRow table row → 1 ≤ count → from + count ≤ length (layout.chain row)
        → ¬ Contains (take count (drop from (layout.chain row))) slot
        → IsSameVariation (table.slot slot)
        ((laid table (unlink_cells table.header (parts_of (chain_of table (layout.chain row)) from count))).slot slot) }
{}

/// The rows after an unlink are those that have a version left, each with the key that it had.
pub fn rows_keep_their_keys()
    ensures rows { (short : ℕ) (table : Table) (layout : Layout) (row from count other : ℕ)
        → IsSound short table layout → IsUsedRow table row → 1 ≤ count → from + count ≤ length (layout.chain row)
        → IsUsedRow (laid table (unlink_cells table.header (parts_of (chain_of table (layout.chain row)) from count))) other
        ↔ (IsUsedRow table other × (other ≡ row → is_emptied (parts_of (chain_of table (layout.chain row)) from count) ≡ false)) }
    ensures keys { (short : ℕ) (table : Table) (layout : Layout) (row from count other : ℕ)
        → IsSound short table layout → IsUsedRow table row → 1 ≤ count → from + count ≤ length (layout.chain row)
        → IsUsedRow (laid table (unlink_cells table.header (parts_of (chain_of table (layout.chain row)) from count))) other
        → key_of (laid table (unlink_cells table.header (parts_of (chain_of table (layout.chain row)) from count))) other ≡ key_of table other }
{}

/// The cells of an unlink are in the order that a change has them, each once: the slots' numbers rise. They are two more than
/// the versions.
pub fn unlinked_cells_are_in_order()
    ensures order { (short : ℕ) (table : Table) (layout : Layout) (row from count : ℕ) → IsSound short table layout
        → Rise (unlinked_slots table.header (parts_of (chain_of table (layout.chain row)) from count)) }
    ensures count { (header : Header) (chain : List Linked) (from count : ℕ) → from + count ≤ length chain
        → length (unlink_cells header (parts_of chain from count)) ≡ count + 2 }
{}

/// The slots that go and their two neighbours tell the cells of an unlink; of the rest of the chain they are independent.
pub fn neighbours_tell_an_unlink()
    ensures header { (header : Header) (parts : Parts) → near_header header (near_of parts) ≡ unlinked_header header parts }
    ensures slots { (header : Header) (parts : Parts) → near_slots header (near_of parts) ≡ unlinked_slots header parts }
    ensures pointer { (header : Header) (parts : Parts) → near_pointer header (near_of parts) ≡ unlinked_pointer header parts }
    ensures cells { (header : Header) (parts : Parts) → near_cells header (near_of parts) ≡ unlink_cells header parts }
{}

/// In a chain these are the slots at their places: those from a place on, the one in front of it and the one behind them.
pub fn neighbours_stand_beside_a_run()
    ensures { (short : ℕ) (table : Table) (layout : Layout) (row from count : ℕ) → IsSound short table layout
        → from + count ≤ length (layout.chain row)
        → near_of (parts_of (chain_of table (layout.chain row)) from count) ≡ near_at table (layout.chain row) from count }
{}

/// A row pointer leads to the first slot of its row's chain, and each slot there, which holds a version of the row, to the one
/// behind it.
pub fn each_slot_leads_to_the_one_behind()
    ensures head { (short : ℕ) (table : Table) (layout : Layout) (row : ℕ) → IsSound short table layout → IsUsedRow table row
        → head_of table row ≡ slot_in (layout.chain row) 0 }
    ensures next { (short : ℕ) (table : Table) (layout : Layout) (row place slot : ℕ) → IsSound short table layout
        → StandsAt (layout.chain row) place slot → next_slot table slot ≡ slot_in (layout.chain row) (place + 1) }
    ensures variation { (short : ℕ) (table : Table) (layout : Layout) (row place slot : ℕ) → IsSound short table layout
        → StandsAt (layout.chain row) place slot → IsVariation table row slot }
{}

/// No list of sound cells meets a place twice, and no two of them share a slot.
pub fn a_place_stands_once()
    ensures chains { (short : ℕ) (table : Table) (layout : Layout) (row : ℕ) → IsSound short table layout → IsApart (layout.chain row) }
    ensures free_slots { (short : ℕ) (table : Table) (layout : Layout) → IsSound short table layout → IsApart layout.free_slots }
    ensures free_rows { (short : ℕ) (table : Table) (layout : Layout) → IsSound short table layout → IsApart layout.free_rows }
    ensures one_chain { (short : ℕ) (table : Table) (layout : Layout) (row other slot : ℕ) → IsSound short table layout
        → Contains (layout.chain row) slot → Contains (layout.chain other) slot → row ≡ other }
    ensures chain_or_free { (short : ℕ) (table : Table) (layout : Layout) (row slot : ℕ) → IsSound short table layout
        → Contains (layout.chain row) slot → ¬ Contains layout.free_slots slot }
    ensures one_place { (short : ℕ) (table : Table) (layout : Layout) (row place other slot : ℕ) → IsSound short table layout
        → StandsAt (layout.chain row) place slot → StandsAt (layout.chain row) other slot → place ≡ other }
{}

/// The cells alone say what stands in the chains and on the free lists.
pub fn sound_cells_have_one_layout()
    ensures chains { (short : ℕ) (table : Table) (a b : Layout) (row : ℕ) → IsSound short table a → IsSound short table b
        → a.chain row ≡ b.chain row }
    ensures free_slots { (short : ℕ) (table : Table) (a b : Layout) → IsSound short table a → IsSound short table b
        → a.free_slots ≡ b.free_slots }
    ensures free_rows { (short : ℕ) (table : Table) (a b : Layout) → IsSound short table a → IsSound short table b
        → a.free_rows ≡ b.free_rows }
{}

/// What slots hold besides their links makes no cells unsound, as long as it is in a form that the store may have.
pub fn cells_with_the_same_links_are_sound()
    ensures { (short : ℕ) (table other : Table) (layout : Layout) → IsSound short table layout → IsLinkedAlike short table other
        → IsSound short other layout }
{}
