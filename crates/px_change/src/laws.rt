//! Written is read, one reading, sizes, and what the definitions say of small examples.
ghost use Rattle.std.specs.Prelude.{◌≡◌, ◌≤◌, ℕ, List, [], ◌∷◌, length, true, false};
ghost use Rattle.px_change.specs.Examples.{commit_of, header, pointer, slot, with_cells};
ghost use Rattle.px_change.specs.Grammar.{is_change, may_hold};
ghost use Rattle.px_change.specs.Reading.{HoldsChange};
ghost use Rattle.px_change.specs.Text.{change_text};
ghost use Rattle.px_change.specs.declared.change.Change.{Change};

use crate::ChangeKind;
use crate::limits::{END_SIZE, LONGEST_TEXT};

/// What was written is read again as the same change.
pub fn written_is_read()
    ensures { (short : ℕ) (change : Change) → is_change short change ≡ true → HoldsChange short (change_text change) change }
{}

/// Nothing else is read as that change.
pub fn read_is_written()
    ensures { (short : ℕ) (bytes : List ℕ) (change : Change) → HoldsChange short bytes change
        → (is_change short change ≡ true) × (bytes ≡ change_text change) }
{}

/// Bytes are read in one way, whatever the short lengths.
pub fn one_reading()
    ensures { (s t : ℕ) (bytes : List ℕ) (c d : Change) → HoldsChange s bytes c → HoldsChange t bytes d → c ≡ d }
{}

/// The bytes of a change fit a frame, whose payload has 18 to 8,192.
pub fn fits_a_frame()
    ensures { (short : ℕ) (change : Change) → is_change short change ≡ true
        → (END_SIZE ≤ length (change_text change)) × (length (change_text change) ≤ LONGEST_TEXT) }
{}

/// The bytes of a Put in a store whose short length is 64.
pub fn size_of_a_put()
    ensures { (change : Change) → change.kind ≡ ChangeKind.Put → is_change 64 change ≡ true → length (change_text change) ≡ 230 }
{}

/// The bytes of transaction 1's commit as the first one.
pub fn text_of_a_commit()
    ensures { change_text (commit_of 1 1) ≡ 2 ∷ 0 ∷ 0 ∷ 0 ∷ 0 ∷ 0 ∷ 0 ∷ 0 ∷ 1 ∷ 0 ∷ 0 ∷ 0 ∷ 0 ∷ 0 ∷ 0 ∷ 0 ∷ 1 ∷ 0 ∷ [] }
{}

/// Which cells a change has: of one table, rising, of the right sizes, and as its kind asks.
pub fn what_a_store_may_have()
    ensures put { is_change 64 (with_cells ChangeKind.Put (header 1 ∷ slot 1 5 ∷ pointer 1 2 ∷ [])) ≡ true }
    ensures other_short { is_change 65 (with_cells ChangeKind.Put (header 1 ∷ slot 1 5 ∷ pointer 1 2 ∷ [])) ≡ false }
    ensures no_slot { is_change 64 (with_cells ChangeKind.Put (header 1 ∷ pointer 1 2 ∷ pointer 1 3 ∷ [])) ≡ false }
    ensures sweep { is_change 64 (with_cells ChangeKind.Sweep (header 8 ∷ slot 8 4 ∷ slot 8 5 ∷ pointer 8 2 ∷ [])) ≡ true }
    ensures tidy { is_change 64 (with_cells ChangeKind.Tidy (header 8 ∷ slot 8 4 ∷ slot 8 5 ∷ [])) ≡ true }
    ensures falling { is_change 64 (with_cells ChangeKind.Sweep (header 8 ∷ slot 8 5 ∷ slot 8 4 ∷ pointer 8 2 ∷ [])) ≡ false }
    ensures twice { is_change 64 (with_cells ChangeKind.Sweep (header 8 ∷ slot 8 4 ∷ slot 8 4 ∷ pointer 8 2 ∷ [])) ≡ false }
    ensures two_tables { is_change 64 (with_cells ChangeKind.Tidy (header 7 ∷ slot 8 4 ∷ slot 8 5 ∷ [])) ≡ false }
    ensures no_table { is_change 64 (with_cells ChangeKind.Move (slot 9 4 ∷ [])) ≡ false }
    ensures fifth { is_change 64 (with_cells ChangeKind.Sweep (header 8 ∷ slot 8 3 ∷ slot 8 4 ∷ slot 8 5 ∷ pointer 8 2 ∷ [])) ≡ false }
    ensures move_one { is_change 64 (with_cells ChangeKind.Move (slot 1 4 ∷ [])) ≡ true }
    ensures unnumbered { is_change 64 (with_cells ChangeKind.Move (slot 1 0 ∷ [])) ≡ false }
    ensures end_with_cell { is_change 64 (with_cells ChangeKind.Rollback (slot 1 4 ∷ [])) ≡ false }
    ensures end_alone { is_change 64 (with_cells ChangeKind.Rollback []) ≡ true }
{}

/// A commit's number goes with its frame's, and a table with the store's.
pub fn what_a_frame_may_hold()
    ensures next { may_hold 1 0 64 (commit_of 1 1) ≡ true }
    ensures too_great { may_hold 1 0 64 (commit_of 1 2) ≡ false }
    ensures no_commit { may_hold 1 0 64 (commit_of 1 0) ≡ false }
    ensures table { may_hold 2 0 64 (with_cells ChangeKind.Move (slot 2 4 ∷ [])) ≡ true }
    ensures no_table { may_hold 1 0 64 (with_cells ChangeKind.Move (slot 2 4 ∷ [])) ≡ false }
{}
