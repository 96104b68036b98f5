ghost use Rattle.std.specs.Prelude.{◌≡◌, ◌<◌, ◌≤◌, ◌^◌, ◌↔◌, IsTrue, [], ◌∷◌, ◌++◌, None, Some, IfOk, MatchOption, OnOk, if◌then◌else◌, length, map};
ghost use Rattle.px_chain.specs.Places.{slot_before};
ghost use Rattle.px_chain.specs.Sound.{IsUsedRow, Layout};
ghost use Rattle.px_shown.specs.Tables.{slots_of_row};
ghost use Rattle.px_tables.specs.Held.{HasLayout, table_of};
ghost use Rattle.px_tidy.specs.Kept.{is_other, is_row, place_kept, tidied_away};
ghost use Rattle.px_tidy.specs.Numbers.{done_of};
ghost use Rattle.px_tidy.specs.Unneeded.{unneeded_at};
ghost use Rattle.px_tidy.specs.Rows.{HasNoRowPast, IsNextRow};

use crate::done::Done;
use px_cells::SlotState;
use px_tables::Table;
use std::alloc::{AllocError, Global};

/// A version of a row that goes.
#[derive(Clone, Copy, Debug, PartialEq, Eq)]
pub struct Unneeded {
    pub slot: u32,
    /// The slot in front of it in the row's chain, 0 where there is none.
    pub newer: u32,
}

/// The versions of a row that go: all but the newest one that is done, and that one too where it is a deletion. The oldest
/// comes first, and in this order they are to be unlinked, so that of each the slot in front is still there. It takes no memory
/// where the row's one version stays, and fails only for want of memory.
pub fn versions_to_tidy(
    alloc: Global,
    table: &Table,
    row: u32,
    done: &Done,
) -> Result<Vec<Unneeded>, AllocError>
    requires { IsUsedRow (table_of table.now.cells) row }
    ensures { IfOk result (λ versions. (layout : Layout) → HasLayout table.now.cells layout
        → versions.items ≡ map (unneeded_at (layout.chain row)) (tidied_away (done_of done.now) (slots_of_row (table_of table.now.cells) layout row))) }
{
    let kept = place_kept(table, row, done);
    if kept == Some(0) && has_one_version(table, row) {
        return Ok(Vec::new(alloc));
    }
    let chain = table.slots_of(row)?;
    let mut versions = Vec::new(alloc);
    for place in (0..chain.len()).rev() {
        push_other(&mut versions, chain.as_slice(), place, kept)?;
    }
    Ok(versions)
}

/// Whether the row has one version, and not more.
fn has_one_version(table: &Table, row: u32) -> bool
    requires { IsUsedRow (table_of table.now.cells) row }
    ensures { (layout : Layout) → HasLayout table.now.cells layout → (IsTrue result ↔ length (layout.chain row) ≤ 1) }
{
    let mut versions = table.versions(row);
    let _newest = versions.next();
    versions.next().is_none()
}

/// Appends the version at the place, where it isn't the one that stays.
fn push_other(
    versions: &mut Vec<Unneeded>,
    chain: &[u32],
    place: usize,
    kept: Option<usize>,
) -> Result<(), AllocError>
    requires { place < length chain.now }
    ensures { OnOk result (versions.new.items ≡ (if is_other kept place then versions.old.items ++ unneeded_at chain.now place ∷ [] else versions.old.items)) }
{
    if kept != Some(place) {
        versions.push(Unneeded {
            slot: chain[place],
            newer: slot_before(chain, place),
        })?;
    }
    Ok(())
}

/// The slot in front of a place, 0 where none is.
fn slot_before(chain: &[u32], place: usize) -> u32
    requires { place < length chain.now }
    ensures { result ≡ slot_before chain.now place }
{
    if place == 0 {
        return 0;
    }
    chain[place - 1]
}

/// The place of the version that stays: the newest that is done, where it is a row.
fn place_kept(table: &Table, row: u32, done: &Done) -> Option<usize>
    requires { IsUsedRow (table_of table.now.cells) row }
    ensures { (layout : Layout) → HasLayout table.now.cells layout
        → result ≡ place_kept (done_of done.now) (slots_of_row (table_of table.now.cells) layout row) }
{
    chain_fits(table, row);
    let mut place: usize = 0;
    for (_, slot) in table.versions(row) {
        if done.is_done(slot.xn) {
            return if_row(slot.state, place);
        }
        place += 1;
    }
    None
}

fn if_row(state: SlotState, place: usize) -> Option<usize>
    ensures { result ≡ (if is_row state then Some place else None) }
{
    match state {
        SlotState::Row => Some(place),
        SlotState::Free | SlotState::Deletion => None,
    }
}

/// A chain has no more versions than the table has slots.
fn chain_fits(table: &Table, row: u32)
    requires { IsUsedRow (table_of table.now.cells) row }
    ensures { (layout : Layout) × HasLayout table.now.cells layout × (length (layout.chain row) < 2 ^ 32) }
{
    table.is_sound();
    let _slots = table.header().slots;
}

/// The least used row past another one. None exactly where no row past it is used.
pub fn next_row(table: &Table, after: u32) -> Option<u32>
    ensures { MatchOption result (HasNoRowPast (table_of table.now.cells) after) (IsNextRow (table_of table.now.cells) after) }
{
    for before in after..table.header().rows {
        let row = before + 1;
        if table.pointer(row).used {
            return Some(row);
        }
    }
    None
}
