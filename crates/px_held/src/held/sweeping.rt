ghost use Rattle.std.specs.Prelude.{◌≡◌, ◌≤◌, ◌&&◌, ℕ, IfErr, IfOk, IfSome};
ghost use Rattle.px_history.specs.Store.{Store};
ghost use Rattle.px_site.specs.Cause.{NoneFell};
ghost use Rattle.px_tidy.specs.Kept.{is_row};
ghost use Rattle.px_held.specs.Errors.{HasReadCause, IsPassing};
ghost use Rattle.px_held.specs.Serving.{HasSameForm, Serves};
ghost use Rattle.px_held.specs.Sweeping.{GoesWith, IsDueAt, base_run, is_row_in, own_run};
ghost use Rattle.px_held.specs.Unlinking.{HasVersions};

use super::Held;
use crate::error::HeldError;
use crate::run::Run;
use crate::walking;
use px_cells::{CellKind, Slot, SlotState};
use px_site::Site;
use px_xacts::Due;

impl Held {
    /// The versions of a row that go with the sweep of a write that is due: behind a row that committed the base, a deletion that
    /// committed with the base, and what was rolled back alone. None where there is no such base. The chain is walked only where the
    /// version itself goes, from the newest to it. Damaged where the version isn't in its row's chain.
    pub fn versions_to_sweep<W: Site>(
        &mut self,
        site: &mut W,
        due: &Due,
    ) -> Result<Option<Run>, HeldError>
        ensures goes { (store : Store) (place : ℕ) → Serves (W.state site.old) self.old store → IsDueAt store due.now place
            → IfOk result (GoesWith store due.now place) }
        ensures stand { (store : Store) → Serves (W.state site.old) self.old store
            → IfOk result (λ found. IfSome found (λ run. HasVersions store due.now.table due.now.row run.newer run.first run.count)) }
        ensures few { IfOk result (λ found. IfSome found (λ run. run.count ≤ 2)) }
        ensures form { HasSameForm self.old self.new }
        ensures keeps { (store : Store) → Serves (W.state site.old) self.old store → Serves (W.state site.new) self.new store }
        ensures same { W.tells → W.state site.new ≡ W.state site.old }
        ensures sound { W.tells → (store : Store) (place : ℕ) → Serves (W.state site.old) self.old store → IsDueAt store due.now place → IfErr result IsPassing }
        ensures fault { IfErr result (HasReadCause (W.counts site.old) (W.counts site.new)) }
        ensures none_fell { NoneFell (W.counts site.old) (W.counts site.new) }
    {
        let slots = self.table_with_slot(due.table, due.slot)?;
        let version = slots.slot(due.slot);
        if keeps_row(due, version) {
            return Ok(base_run(due.slot, version.next));
        }
        let table = self.table_with(due.table, due.row)?;
        match walking::newer_of(table, due.row, due.slot) {
            Some(newer) => Ok(Some(own_run(due, newer, version.next))),
            None => Err(self.damage(CellKind::Slot, due.table, due.slot)),
        }
    }
}

/// Whether the write committed the version in the slot, a row of its row pointer.
fn keeps_row(due: &Due, version: &Slot) -> bool
    ensures { result ≡ due.now.committed && is_row_in due.now version.now }
{
    due.committed && is_row_in(due, version)
}

fn is_row_in(due: &Due, version: &Slot) -> bool
    ensures { result ≡ is_row_in due.now version.now }
{
    due.slot != 0 && version.row == due.row && is_row(version.state)
}

fn is_row(state: SlotState) -> bool
    ensures { result ≡ is_row state }
{
    matches!(state, SlotState::Row)
}

fn base_run(slot: u32, next: u32) -> Option<Run>
    ensures is { result ≡ base_run slot next }
    ensures few { IfSome result (λ run. run.count ≤ 2) }
{
    if next == 0 {
        return None;
    }
    Some(Run {
        newer: slot,
        first: next,
        count: 1,
    })
}

fn own_run(due: &Due, newer: u32, next: u32) -> Run
    ensures is { result ≡ own_run due.now.committed newer due.now.slot next }
    ensures few { result.count ≤ 2 }
{
    let with_base = due.committed && next != 0;
    Run {
        newer,
        first: due.slot,
        count: if with_base { 2 } else { 1 },
    }
}
