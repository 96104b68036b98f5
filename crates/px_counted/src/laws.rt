ghost use Rattle.std.specs.Prelude.{◌≡◌, ◌+◌, ◌-◌, ◌^◌, ◌<◌, ◌≤◌, ◌↔◌, ℕ, List, Contains, length, true};
ghost use Rattle.px_calls.specs.Steps.{is_full};
ghost use Rattle.px_chain.specs.Sound.{IsApart, IsSound, IsUsedRow, Layout};
ghost use Rattle.px_chain.specs.Table.{Table};
ghost use Rattle.px_free.specs.Places.{AreFull, rows_of, slots_of};
ghost use Rattle.px_history.specs.Fitting.{IsTable};
ghost use Rattle.px_history.specs.Store.{Store};
ghost use Rattle.px_model.specs.Chains.{variations, variations_of_table};
ghost use Rattle.px_model.specs.Machine.{Machine};
ghost use Rattle.px_model.specs.Rows.{in_order};
ghost use Rattle.px_model.specs.declared.limits.TheConstants.{MOST_VARIATIONS};
ghost use Rattle.px_shown.specs.Parts.{Parts};
ghost use Rattle.px_tables.specs.Linking.{IsFull};
ghost use Rattle.px_cell_laws.specs.Holding.{HoldsChains};
ghost use Rattle.px_counted.specs.Counts.{slots_in_all_chains, slots_in_chains, used_rows};

/// Each slot that was ever used stands on the free list or in the chain of a used row, each row pointer is free or used, and
/// none is counted twice.
pub fn places_are_counted()
    ensures slots { (short : ℕ) (table : Table) (layout : Layout) → IsSound short table layout
        → table.header.slots ≡ length layout.free_slots + slots_in_chains table layout }
    ensures rows { (short : ℕ) (table : Table) (layout : Layout) → IsSound short table layout
        → table.header.rows ≡ length layout.free_rows + length (used_rows table) }
    ensures used { (table : Table) (row : ℕ) → Contains (used_rows table) row ↔ IsUsedRow table row }
    ensures once { (table : Table) → IsApart (used_rows table) }
{}

/// A table whose slots' numbers fit has none left just where its chains have as many as a table may have versions. Each used row
/// has a chain of at least one, so row pointers run out only where slots have.
pub fn row_pointers_last_as_long_as_slots()
    ensures full { (short : ℕ) (table : Table) (layout : Layout) → IsSound short table layout → table.header.slots < 2 ^ 32
        → (AreFull (slots_of table.header) ↔ (slots_in_chains table layout ≡ MOST_VARIATIONS)) }
    ensures one_each { (short : ℕ) (table : Table) (layout : Layout) → IsSound short table layout
        → length (used_rows table) ≤ slots_in_chains table layout }
    ensures rows_first { (short : ℕ) (table : Table) (layout : Layout) → IsSound short table layout → table.header.slots < 2 ^ 32
        → AreFull (rows_of table.header) → AreFull (slots_of table.header) }
{}

/// A table's versions are the slots in its chains, whose numbers are those used less those on the free list. So the table is full
/// of versions just where its header says that no slot is left, which is where no place is left for a key of it, new or not, and
/// where a call that writes is told that it is full.
pub fn variations_are_the_slots_in_chains()
    ensures in_chains { (parts : Parts) (m : Machine) (store : Store) (t : ℕ) → HoldsChains parts m store → in_order m.opening ≡ true
        → variations_of_table m t ≡ slots_in_chains (store.tables t) (store.layouts t) }
    ensures counted { (parts : Parts) (m : Machine) (store : Store) (t : ℕ) → HoldsChains parts m store → in_order m.opening ≡ true
        → variations_of_table m t ≡ (store.tables t).header.slots - length (store.layouts t).free_slots }
    ensures full { (parts : Parts) (m : Machine) (store : Store) (t : ℕ) → HoldsChains parts m store → in_order m.opening ≡ true
        → (store.tables t).header.slots < 2 ^ 32
        → (AreFull (slots_of (store.tables t).header) ↔ (variations_of_table m t ≡ MOST_VARIATIONS)) }
    ensures no_place { (parts : Parts) (m : Machine) (store : Store) (t : ℕ) (key : List ℕ) → HoldsChains parts m store → in_order m.opening ≡ true
        → (store.tables t).header.slots < 2 ^ 32
        → (IsFull (store.tables t) key ↔ (variations_of_table m t ≡ MOST_VARIATIONS)) }
    ensures calls { (parts : Parts) (m : Machine) (store : Store) (t : ℕ) (key : List ℕ) → HoldsChains parts m store → in_order m.opening ≡ true
        → (store.tables t).header.slots < 2 ^ 32 → (IsFull (store.tables t) key ↔ (is_full m t ≡ true)) }
{}

/// The versions of all tables are the slots in their chains, where no table but those with these numbers has a row.
pub fn all_variations_are_the_slots_in_chains()
    ensures { (parts : Parts) (m : Machine) (store : Store) (tables : ℕ) → HoldsChains parts m store → in_order m.opening ≡ true
        → ((t row : ℕ) → ¬ IsTable tables t → ¬ IsUsedRow (store.tables t) row)
        → variations m ≡ slots_in_all_chains tables store }
{}
