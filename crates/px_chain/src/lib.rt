//! The chains of a table's versions: what makes cells sound, and the cells that link and unlink versions.
//!
//! A row pointer heads the chain of a row's versions, the newest first; the slots and row pointers that are in no chain stand on
//! free lists. `link` and `unlink` compute the few cells that a change of the log carries. They see only what they are given, so
//! that cells stay sound is a law of its own.
//!
//! - `chain`: `Linked`, a slot with its number.
//! - `linking`, `unlinking`: `link`, and `unlink` with what it changes apart from its bytes, `Unlinked`; `cut` has what it reads, the
//!   slots that go and their neighbours, `cells` the cells' bytes.
//! - `views`: `visible`, the version that a reader sees.
//! - `laws`: cells of a link or an unlink, over sound cells, are sound; what sound cells are has one layout.
//!
//! `specs/Sound` says what sound cells are, `specs/Places` which slots stand where in a chain, `specs/Links` what a link and an
//! unlink change, `specs/Near` what of a chain tells that, `specs/Table` what cells over a table are.
#![tactic(auto)]

mod cells;
mod chain;
mod cut;
mod laws;
mod linking;
mod unlinking;
mod views;

pub use chain::Linked;
pub use cut::Cut;
pub use laws::{
    a_new_row_is_sound, a_new_variation_is_sound, a_place_stands_once,
    cells_with_the_same_links_are_sound, each_slot_leads_to_the_one_behind,
    neighbours_stand_beside_a_run, neighbours_tell_an_unlink, no_cells_are_sound,
    rows_keep_their_keys, slots_that_stay_hold_the_same, sound_cells_have_one_layout,
    unlinked_cells_are_in_order, unlinked_cells_are_sound,
};
pub use linking::link;
pub use unlinking::{Unlinked, unlink};
pub use views::{SlotView, visible};
