ghost use Rattle.std.specs.Prelude.{◌≡◌, ◌≢◌, ◌≤◌, ◌+◌, ◌++◌, ◌⊎◌, ◌↔◌, [], ◌∷◌, ℕ, List, All, Contains, None, Some, drop, false, length, option_map, take, true};
ghost use Rattle.px_cells.specs.declared.header.Header.{Header};
ghost use Rattle.px_cells.specs.declared.slot.Slot.{Slot};
ghost use Rattle.px_cells.specs.declared.slot.SlotState.TheVariants as state;
ghost use Rattle.px_chain.specs.Links.{IsStored, linked};
ghost use Rattle.px_chain.specs.Sound.{IsUsedRow, Layout, key_of, no_layout, no_places};
ghost use Rattle.px_model.specs.declared.row.Row.{Row};
ghost use Rattle.px_model.specs.declared.write.Write.{Write};
ghost use Rattle.px_model.specs.Rows.{Key, after};
ghost use Rattle.px_model_laws.specs.Keys.{row_written};
ghost use Rattle.px_machine_laws.specs.Seen.{last_of_key};
ghost use Rattle.px_shown.specs.Changes.{IsLink, layouts_unlinked, left_of, with_link, with_unlink};
ghost use Rattle.px_shown.specs.Example.{done_up_to, one_place, row_with, versions};
ghost use Rattle.px_shown.specs.Moves.{MayMove, with_move};
ghost use Rattle.px_shown.specs.Parts.{AgreeInChains, Parts};
ghost use Rattle.px_shown.specs.Shown.{Done, Shows, done_with, first_done, row_of, row_shown, slot_shown, write_of};
ghost use Rattle.px_shown.specs.Tables.{AreSound, Layouts, Tables, slots_of_row, with_layout};
ghost use Rattle.px_shown.specs.Writes.{AreInFront, AreWritesOf, HasNoneDone, HasNoneOf, IsInFront};

/// The same cells show one list of rows.
pub fn rows_shown_are_one()
    ensures { (parts : Parts) (tables : Tables) (layouts : Layouts) (done : Done) (a b : List Row)
        → Shows parts tables layouts done a → Shows parts tables layouts done b → a ≡ b }
{}

/// Tables without places show no rows.
pub fn no_cells_show_no_rows()
    ensures { (parts : Parts) (tables : Tables) (layouts : Layouts) (done : Done) → ((t : ℕ) → (tables t).header ≡ no_places) → Shows parts tables layouts done [] }
{}

/// Of a chain what the newest version that is done wrote is shown; nothing where none is done. What is shown is the row of one
/// slot, which the data logs have no part in choosing.
pub fn the_newest_done_is_shown()
    ensures newest { (parts : Parts) (t : ℕ) (done : Done) (before behind : List Slot) (slot : Slot) → HasNoneDone done before → done slot.xn ≡ true
        → row_shown parts t done (before ++ slot ∷ behind) ≡ row_written (write_of parts t slot) }
    ensures none { (parts : Parts) (t : ℕ) (done : Done) (slots : List Slot) → HasNoneDone done slots → row_shown parts t done slots ≡ None }
    ensures slot { (parts : Parts) (t : ℕ) (done : Done) (slots : List Slot)
        → row_shown parts t done slots ≡ option_map (row_of parts t) (slot_shown done slots) }
{}

/// A body that fits its slot is the slot's short part; a longer one goes on with the bytes that the slot names in a data log.
pub fn a_long_body_goes_on_in_a_log()
    ensures short { (parts : Parts) (t : ℕ) (slot : Slot) → slot.log ≡ 0 → (row_of parts t slot).body ≡ slot.short }
    ensures long { (parts : Parts) (t : ℕ) (slot : Slot) → slot.log ≢ 0
        → (row_of parts t slot).body ≡ slot.short ++ parts slot.log slot.place }
{}

/// Of a chain in which 9 deleted what 5 wrote over what 3 wrote, whatever lies in the data logs.
pub fn a_chain_at_four_moments()
    ensures nothing_done { (parts : Parts) → row_shown parts 2 (done_up_to 2) versions ≡ None }
    ensures oldest_done { (parts : Parts) → row_shown parts 2 (done_up_to 3) versions ≡ Some (row_with (97 ∷ [])) }
    ensures newer_done { (parts : Parts) → row_shown parts 2 (done_up_to 5) versions ≡ Some (row_with (98 ∷ [])) }
    ensures all_done { (parts : Parts) → row_shown parts 2 (done_up_to 9) versions ≡ None }
{}

/// The first row of a store: once its transaction is done, it is what the cells show.
pub fn a_first_row_is_shown()
    ensures { (parts : Parts) (short : ℕ) (tables : Tables) (done : Done) (t : ℕ) (slot : Slot) → ((n : ℕ) → (tables n).header ≡ no_places)
        → IsStored short slot → slot.state ≡ state.Row → slot.row ≡ 1 → slot.next ≡ 0 → done slot.xn ≡ false
        → Shows parts (with_link tables t one_place slot) (with_layout (λ n. no_layout) t (linked no_layout 1 1)) (done_with slot.xn done) (row_of parts t slot ∷ []) }
{}

/// What is done is asked only of numbers in the chains.
pub fn only_numbers_in_chains_are_asked()
    ensures { (parts : Parts) (tables : Tables) (layouts : Layouts) (done other : Done) (rows : List Row)
        → ((t row : ℕ) → IsUsedRow (tables t) row → All (λ slot. done slot.xn ≡ other slot.xn) (slots_of_row (tables t) (layouts t) row))
        → Shows parts tables layouts done rows → Shows parts tables layouts other rows }
{}

/// The data logs are asked only at the references of slots in the chains: where two hold the same bytes there, the tables show the
/// same rows, and tell the same writes of a transaction.
pub fn only_references_in_chains_are_asked()
    ensures references { (parts others : Parts) (tables : Tables) (layouts : Layouts) (done : Done) (rows : List Row)
        → AgreeInChains parts others tables layouts → Shows parts tables layouts done rows → Shows others tables layouts done rows }
    ensures writes { (parts others : Parts) (xn : ℕ) (tables : Tables) (layouts : Layouts) (writes : List Write)
        → AgreeInChains parts others tables layouts → AreWritesOf parts xn tables layouts writes → AreWritesOf others xn tables layouts writes }
{}

/// Tables without places are sound, and a link and an unlink leave all tables so.
pub fn tables_stay_sound()
    ensures none { (short : ℕ) (tables : Tables) → ((t : ℕ) → (tables t).header ≡ no_places) → AreSound short tables (λ t. no_layout) }
    ensures link { (short : ℕ) (tables : Tables) (layouts : Layouts) (t : ℕ) (header : Header) (slot : Slot) (after : Layout)
        → AreSound short tables layouts → IsStored short slot → IsLink (tables t) (layouts t) header slot after
        → AreSound short (with_link tables t header slot) (with_layout layouts t after) }
    ensures unlink { (short : ℕ) (tables : Tables) (layouts : Layouts) (t row from count : ℕ)
        → AreSound short tables layouts → IsUsedRow (tables t) row → 1 ≤ count → from + count ≤ length ((layouts t).chain row)
        → AreSound short (with_unlink tables layouts t row from count) (layouts_unlinked layouts t row from count) }
{}

/// A version that isn't done, linked over sound cells, leaves the rows that are shown as they are, whether it begins a row or not.
pub fn what_is_not_done_shows_nothing()
    ensures { (parts : Parts) (short : ℕ) (tables : Tables) (layouts : Layouts) (done : Done) (rows : List Row) (t : ℕ) (header : Header) (slot : Slot) (after : Layout)
        → AreSound short tables layouts → IsStored short slot → IsLink (tables t) (layouts t) header slot after
        → done slot.xn ≡ false
        → Shows parts tables layouts done rows → Shows parts (with_link tables t header slot) (with_layout layouts t after) done rows }
{}

/// Once a transaction counts as done whose versions stand in front of all that is done, the cells show the rows after its writes.
/// What another transaction wrote still stands in front of all that is done, where no chain has versions of both; so where they
/// wrote no key in common.
pub fn a_commit_shows_its_writes()
    ensures shows { (parts : Parts) (tables : Tables) (layouts : Layouts) (done : Done) (xn : ℕ) (rows : List Row) (writes : List Write)
        → AreInFront done xn tables layouts → AreWritesOf parts xn tables layouts writes
        → Shows parts tables layouts done rows → Shows parts tables layouts (done_with xn done) (after rows writes) }
    ensures in_front { (tables : Tables) (layouts : Layouts) (done : Done) (xn other : ℕ)
        → ((t row : ℕ) → IsUsedRow (tables t) row
        → HasNoneOf xn (slots_of_row (tables t) (layouts t) row) ⊎ HasNoneOf other (slots_of_row (tables t) (layouts t) row))
        → AreInFront done other tables layouts → AreInFront (done_with xn done) other tables layouts }
    ensures in_front_elsewhere { (parts : Parts) (tables : Tables) (layouts : Layouts) (done : Done) (xn other : ℕ) (writes others : List Write)
        → AreWritesOf parts xn tables layouts writes → AreWritesOf parts other tables layouts others
        → ((key : Key) → (last_of_key key writes ≡ None) ⊎ (last_of_key key others ≡ None))
        → AreInFront done other tables layouts → AreInFront (done_with xn done) other tables layouts }
{}

/// A transaction without versions wrote nothing. One that is linked is its last write, and no other transaction's; and what a
/// transaction wrote stays in front of all that is done, as long as the version that is linked isn't done. In one chain this
/// holds in both directions.
pub fn a_write_that_is_linked()
    ensures none { (parts : Parts) (xn : ℕ) (tables : Tables) (layouts : Layouts)
        → ((t row : ℕ) → IsUsedRow (tables t) row → HasNoneOf xn (slots_of_row (tables t) (layouts t) row)) → AreWritesOf parts xn tables layouts [] }
    ensures none_in_front { (done : Done) (xn : ℕ) (tables : Tables) (layouts : Layouts)
        → ((t row : ℕ) → IsUsedRow (tables t) row → HasNoneOf xn (slots_of_row (tables t) (layouts t) row)) → AreInFront done xn tables layouts }
    ensures own { (parts : Parts) (short : ℕ) (tables : Tables) (layouts : Layouts) (writes : List Write) (t : ℕ) (header : Header) (slot : Slot) (after : Layout)
        → AreSound short tables layouts → IsStored short slot → IsLink (tables t) (layouts t) header slot after
        → AreWritesOf parts slot.xn tables layouts writes
        → AreWritesOf parts slot.xn (with_link tables t header slot) (with_layout layouts t after) (writes ++ write_of parts t slot ∷ []) }
    ensures of_others { (parts : Parts) (short : ℕ) (tables : Tables) (layouts : Layouts) (xn : ℕ) (writes : List Write) (t : ℕ) (header : Header) (slot : Slot) (after : Layout)
        → AreSound short tables layouts → IsStored short slot → IsLink (tables t) (layouts t) header slot after
        → slot.xn ≢ xn
        → AreWritesOf parts xn tables layouts writes → AreWritesOf parts xn (with_link tables t header slot) (with_layout layouts t after) writes }
    ensures in_front { (short : ℕ) (tables : Tables) (layouts : Layouts) (done : Done) (xn : ℕ) (t : ℕ) (header : Header) (slot : Slot) (after : Layout)
        → AreSound short tables layouts → IsStored short slot → IsLink (tables t) (layouts t) header slot after
        → done slot.xn ≡ false
        → AreInFront done xn tables layouts → AreInFront done xn (with_link tables t header slot) (with_layout layouts t after) }
    ensures in_one_chain { (done : Done) (xn : ℕ) (slot : Slot) (slots : List Slot)
        → done slot.xn ≡ false → IsInFront done xn (slot ∷ slots) ↔ IsInFront done xn slots }
{}

/// A row whose key a transaction didn't write has none of its versions.
pub fn a_key_that_was_not_written()
    ensures { (parts : Parts) (xn : ℕ) (tables : Tables) (layouts : Layouts) (writes : List Write) (t row : ℕ) → AreWritesOf parts xn tables layouts writes → IsUsedRow (tables t) row
        → last_of_key (t, key_of (tables t) row) writes ≡ None → HasNoneOf xn (slots_of_row (tables t) (layouts t) row) }
{}

/// The cells of an unlink, over sound cells, show the same rows, where what is left of the chain shows the slot that the whole one
/// showed. The data logs have no part in that.
pub fn an_unlink_shows_the_same()
    ensures { (parts : Parts) (short : ℕ) (tables : Tables) (layouts : Layouts) (done : Done) (rows : List Row) (t row from count : ℕ)
        → AreSound short tables layouts → IsUsedRow (tables t) row → 1 ≤ count → from + count ≤ length ((layouts t).chain row)
        → slot_shown done (left_of (slots_of_row (tables t) (layouts t) row) from count) ≡ slot_shown done (slots_of_row (tables t) (layouts t) row)
        → Shows parts tables layouts done rows
        → Shows parts (with_unlink tables layouts t row from count) (layouts_unlinked layouts t row from count) done rows }
{}

/// What is left of a chain shows the slot that the whole one showed: where none of those that go is done; where one that is done
/// stands in front of them; and where the first that is done is a deletion, and nothing that is left is done.
pub fn what_may_be_unlinked()
    ensures not_done { (done : Done) (slots : List Slot) (from count : ℕ)
        → HasNoneDone done (take count (drop from slots))
        → slot_shown done (left_of slots from count) ≡ slot_shown done slots }
    ensures older { (done : Done) (slots : List Slot) (slot : Slot) (from count : ℕ)
        → Contains (take from slots) slot → done slot.xn ≡ true
        → slot_shown done (left_of slots from count) ≡ slot_shown done slots }
    ensures deleted { (done : Done) (slots : List Slot) (slot : Slot) (from count : ℕ)
        → first_done done slots ≡ Some slot → slot.state ≡ state.Deletion
        → HasNoneDone done (left_of slots from count)
        → slot_shown done (left_of slots from count) ≡ slot_shown done slots }
{}

/// An unlink of versions that aren't a transaction's leaves its writes as they are; and of whatever versions, what a transaction
/// wrote stays in front of all that is done.
pub fn an_unlink_leaves_the_writes_of_others()
    ensures of_others { (parts : Parts) (short : ℕ) (tables : Tables) (layouts : Layouts) (xn : ℕ) (writes : List Write) (t row from count : ℕ)
        → AreSound short tables layouts → IsUsedRow (tables t) row → 1 ≤ count → from + count ≤ length ((layouts t).chain row)
        → HasNoneOf xn (take count (drop from (slots_of_row (tables t) (layouts t) row)))
        → AreWritesOf parts xn tables layouts writes
        → AreWritesOf parts xn (with_unlink tables layouts t row from count) (layouts_unlinked layouts t row from count) writes }
    ensures in_front { (short : ℕ) (tables : Tables) (layouts : Layouts) (done : Done) (xn : ℕ) (t row from count : ℕ)
        → AreSound short tables layouts → IsUsedRow (tables t) row → 1 ≤ count → from + count ≤ length ((layouts t).chain row)
        → AreInFront done xn tables layouts
        → AreInFront done xn (with_unlink tables layouts t row from count) (layouts_unlinked layouts t row from count) }
{}

/// Where the part of a slot in a chain was moved to another place in the data logs, the cells stay sound, and show the same rows,
/// with the same keys. What each transaction wrote stays as it was, in front of all that was done.
pub fn a_move_shows_the_same()
    ensures sound { (parts : Parts) (short : ℕ) (tables : Tables) (layouts : Layouts) (t number log place : ℕ)
        → MayMove parts short tables layouts t number log place
        → AreSound short tables layouts → AreSound short (with_move tables t number log place) layouts }
    ensures shows { (parts : Parts) (short : ℕ) (tables : Tables) (layouts : Layouts) (done : Done) (rows : List Row) (t number log place : ℕ)
        → MayMove parts short tables layouts t number log place
        → Shows parts tables layouts done rows → Shows parts (with_move tables t number log place) layouts done rows }
    ensures writes { (parts : Parts) (short : ℕ) (tables : Tables) (layouts : Layouts) (xn : ℕ) (writes : List Write) (t number log place : ℕ)
        → MayMove parts short tables layouts t number log place
        → AreWritesOf parts xn tables layouts writes → AreWritesOf parts xn (with_move tables t number log place) layouts writes }
    ensures in_front { (tables : Tables) (layouts : Layouts) (done : Done) (xn t number log place : ℕ)
        → AreInFront done xn tables layouts → AreInFront done xn (with_move tables t number log place) layouts }
    ensures none_of { (tables : Tables) (layouts : Layouts) (xn t number log place n row : ℕ)
        → HasNoneOf xn (slots_of_row (tables n) (layouts n) row) → HasNoneOf xn (slots_of_row (with_move tables t number log place n) (layouts n) row) }
    ensures rows { (tables : Tables) (t number log place n row : ℕ)
        → IsUsedRow (with_move tables t number log place n) row ↔ IsUsedRow (tables n) row }
    ensures keys { (tables : Tables) (t number log place n row : ℕ)
        → key_of (with_move tables t number log place n) row ≡ key_of (tables n) row }
{}
