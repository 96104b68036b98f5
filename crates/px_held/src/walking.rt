ghost use Rattle.std.specs.Prelude.{◌≡◌, ◌≢◌, ◌↔◌, ◌≤◌, IfErr, IfOk, IsTrue, find, map, option_map};
ghost use Rattle.px_cell_laws.specs.Reading.{view_of};
ghost use Rattle.px_cells.specs.declared.slot.SlotState.TheVariants.{Free};
ghost use Rattle.px_chain.specs.Sound.{IsUsedRow, Layout};
ghost use Rattle.px_chain.specs.Visible.{is_visible};
ghost use Rattle.px_chain_laws.specs.Reading.{is_committed};
ghost use Rattle.px_history.specs.Fitting.{IsStoredNumber};
ghost use Rattle.px_model.specs.declared.limits.TheConstants.{STORED_NUMBERS_END};
ghost use Rattle.px_tables.specs.Held.{HasLayout, table_of};
ghost use Rattle.px_held.specs.Numbers.{IsPastVersions, IsUnstored};
ghost use Rattle.px_held.specs.Sweeping.{newer_in};

use crate::reader::Reader;
use px_cells::SlotState;
use px_chain::SlotView;
use px_model::{STORED_NUMBERS_END, Standing};
use px_tables::Table;
use px_xacts::Xacts;

/// The slot of the version of a row that the reader sees: the walk stops there.
pub(crate) fn seen(table: &Table, row: u32, reader: &Reader<'_>) -> Option<u32>
    requires { IsUsedRow (table_of table.now.cells) row }
    ensures { (layout : Layout) → HasLayout table.now.cells layout → result
        ≡ option_map (λ view. view.slot) (find (is_visible reader.now.own reader.now.snapshot)
        (map (view_of reader.now.xacts.now (table_of table.now.cells)) (layout.chain row))) }
{
    for (slot, version) in table.versions(row) {
        let xn = version.xn;
        let standing = reader.xacts.standing(xn);
        let view = SlotView { slot, xn, standing };
        if view.is_visible(reader.own, reader.snapshot) {
            return Some(slot);
        }
    }
    None
}

/// The newest version of a row whose transaction committed since the opening: the walk stops there.
pub(crate) fn newest_committed(table: &Table, row: u32, xacts: &Xacts) -> Option<SlotView>
    requires { IsUsedRow (table_of table.now.cells) row }
    ensures { (layout : Layout) → HasLayout table.now.cells layout → result
        ≡ find (λ view. is_committed view.standing) (map (view_of xacts.now (table_of table.now.cells)) (layout.chain row)) }
{
    for (slot, version) in table.versions(row) {
        let xn = version.xn;
        let standing = xacts.standing(xn);
        if is_committed(standing) {
            return Some(SlotView { slot, xn, standing });
        }
    }
    None
}

fn is_committed(standing: Standing) -> bool
    ensures { result ≡ is_committed standing }
{
    matches!(standing, Standing::Committed(_))
}

/// The slot in front of this one in the chain of a row, 0 where it is the newest: the walk stops there. None where it isn't in the chain.
pub(crate) fn newer_of(table: &Table, row: u32, slot: u32) -> Option<u32>
    requires { IsUsedRow (table_of table.now.cells) row }
    ensures { (layout : Layout) → HasLayout table.now.cells layout → result ≡ newer_in 0 slot (layout.chain row) }
{
    let mut newer = 0;
    for (number, _) in table.versions(row) {
        if number == slot {
            return Some(newer);
        }
        newer = number;
    }
    None
}

/// The least number from this one on past those of all versions of a table; or the first slot whose version has no stored number.
pub(crate) fn number_past(table: &Table, first: u64) -> Result<u64, u32>
    requires { first ≤ STORED_NUMBERS_END }
    ensures past { IfOk result (IsPastVersions first (table_of table.now.cells)) }
    ensures stored { IfOk result (λ next. next ≤ STORED_NUMBERS_END) }
    ensures unstored { IfErr result (IsUnstored (table_of table.now.cells)) }
{
    let mut next = first;
    for before in 0..table.header().slots {
        let number = before + 1;
        let slot = table.slot(number);
        if is_version(slot.state) {
            if !is_stored(slot.xn) {
                return Err(number);
            }
            next = next.max(slot.xn + 1);
        }
    }
    Ok(next)
}

fn is_version(state: SlotState) -> bool
    ensures { IsTrue result ↔ (state ≢ Free) }
{
    matches!(state, SlotState::Row | SlotState::Deletion)
}

fn is_stored(number: u64) -> bool
    ensures { IsTrue result ↔ IsStoredNumber number }
{
    number >= 1 && number < STORED_NUMBERS_END
}
