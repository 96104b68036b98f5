ghost use Rattle.std.specs.Prelude.{◌≡◌, ◌≤◌, All, IfErr, IfOk, length};
ghost use Rattle.px_beginning.specs.Numbers.{IsNext};
ghost use Rattle.px_held.specs.Errors.{HasReadCause, IfDamage};
ghost use Rattle.px_held.specs.Serving.{HasSameForm, Serves};
ghost use Rattle.px_history.specs.Fitting.{IsStoredNumber};
ghost use Rattle.px_history.specs.Store.{Store};
ghost use Rattle.px_life.specs.Front.{AreStored, done_by};
ghost use Rattle.px_model.specs.declared.limits.TheConstants.{MOST_TABLES, STORED_NUMBERS_END};
ghost use Rattle.px_site.specs.Cause.{NoneFell};
ghost use Rattle.px_tidy.specs.Numbers.{done_of};
ghost use Rattle.px_tidying.specs.Numbers.{IsPastChanges, IsPastTables, IsUnstoredIn};

use px_change::{Change, ChangeKind};
use px_held::{Held, HeldError};
use px_restart::Restart;
use px_site::Site;
use px_tidy::Done;
use std::alloc::{AllocError, Global};

/// The number of the next transaction: the least that neither the restart nor a frame that was read nor a version of the tables names, nor
/// a greater one. Damaged where a version has no stored number, at its slot.
pub fn next_number<W: Site>(
    site: &mut W,
    held: &mut Held,
    restart: &Restart,
    changes: &[Change],
) -> Result<u64, HeldError>
    requires next { restart.now.next ≤ STORED_NUMBERS_END }
    requires tables { restart.now.tables ≤ MOST_TABLES }
    requires held { length held.old.tables ≡ restart.now.tables }
    requires frames { All (λ change. IsStoredNumber change.xn) changes.now }
    ensures next { (store : Store) → Serves (W.state site.old) held.old store → IfOk result (IsNext restart.now changes.now store.tables store.layouts) }
    ensures stored { (store : Store) → Serves (W.state site.old) held.old store → IfOk result (λ next. AreStored store.tables store.layouts) }
    ensures end { IfOk result (λ next. next ≤ STORED_NUMBERS_END) }
    ensures unstored { W.tells → (store : Store) → Serves (W.state site.old) held.old store
        → IfErr result (IfDamage (IsUnstoredIn held.old.short restart.now.tables store.tables)) }
    ensures form { HasSameForm held.old held.new }
    ensures keeps { (store : Store) → Serves (W.state site.old) held.old store → Serves (W.state site.new) held.new store }
    ensures same { W.tells → W.state site.new ≡ W.state site.old }
    ensures fault { IfErr result (HasReadCause (W.counts site.old) (W.counts site.new)) }
    ensures none_fell { NoneFell (W.counts site.old) (W.counts site.new) }
{
    let next = past_changes(restart.next, changes);
    past_tables(site, held, restart.tables, next)
}

/// The least number from this one on past those of all changes.
fn past_changes(first: u64, changes: &[Change]) -> u64
    requires first { first ≤ STORED_NUMBERS_END }
    requires frames { All (λ change. IsStoredNumber change.xn) changes.now }
    ensures past { IsPastChanges first changes.now result }
    ensures end { result ≤ STORED_NUMBERS_END }
{
    let mut next = first;
    for change in changes {
        next = next.max(change.xn + 1);
    }
    next
}

/// The least number from this one on past those of all versions of the tables 1 to `tables`.
fn past_tables<W: Site>(
    site: &mut W,
    held: &mut Held,
    tables: u32,
    first: u64,
) -> Result<u64, HeldError>
    requires first { first ≤ STORED_NUMBERS_END }
    requires tables { tables ≤ MOST_TABLES }
    ensures past { (store : Store) → Serves (W.state site.old) held.old store → IfOk result (IsPastTables first store.tables tables) }
    ensures end { IfOk result (λ next. next ≤ STORED_NUMBERS_END) }
    ensures unstored { W.tells → (store : Store) → Serves (W.state site.old) held.old store
        → IfErr result (IfDamage (IsUnstoredIn held.old.short tables store.tables)) }
    ensures form { HasSameForm held.old held.new }
    ensures keeps { (store : Store) → Serves (W.state site.old) held.old store → Serves (W.state site.new) held.new store }
    ensures same { W.tells → W.state site.new ≡ W.state site.old }
    ensures fault { IfErr result (HasReadCause (W.counts site.old) (W.counts site.new)) }
    ensures none_fell { NoneFell (W.counts site.old) (W.counts site.new) }
{
    let mut next = first;
    for before in 0..tables {
        next = held.number_past(site, (before + 1) as u8, next)?;
    }
    Ok(next)
}

/// Who is done: the numbers below the restart's low mark, and those of whom a Commit was read. It fails only for want of memory.
pub fn done_by(alloc: Global, restart: &Restart, changes: &[Change]) -> Result<Done, AllocError>
    ensures { IfOk result (λ done. done_of done ≡ done_by restart.now changes.now) }
{
    let mut done = Done::new(alloc, restart.low);
    for change in changes {
        if let ChangeKind::Commit = change.kind {
            done.add(change.xn)?;
        }
    }
    Ok(done)
}
