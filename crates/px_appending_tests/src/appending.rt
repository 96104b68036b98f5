ghost use Rattle.std.specs.Prelude.{◌≡◌, [], ◌∷◌, All, IfOk, length};
ghost use Rattle.px_chain.specs.Links.{IsStored};
ghost use Rattle.px_chain.specs.Sound.{no_places};
ghost use Rattle.px_held.specs.Serving.{AreNumbered};
ghost use Rattle.px_history.specs.Store.{Store};
ghost use Rattle.px_site.specs.State.{State};
ghost use Rattle.px_tidying.specs.Opening.{HasStore, opening};
ghost use Rattle.px_appending_tests.specs.declared.appending.TheConstants.{RESTART};

use px_appending::{append_end, append_version, flush};
use px_cells::{Slot, SlotState};
use px_change::ChangeKind;
use px_held::{Held, Prepared};
use px_log::{Xlog, open_log};
use px_memsite::MemSite;
use px_model::Bytes;
use px_restart::Restart;
use px_tables::{Place, Table};
use std::alloc::{AllocError, Global};
use std::process::Abort;
use std::test::Fail;

/// A new store with one table.
const RESTART: Restart = Restart {
    serial: 1,
    tables: 1,
    short: 16,
    commits: 0,
    next: 1,
    low: 1,
    first: 0,
    redo: 0,
    durable: 0,
    segment: 1,
};

fn tables(alloc: Global) -> Result<Vec<Table>, AllocError>
    ensures numbered { IfOk result (λ tables. AreNumbered 16 tables.items) }
    ensures unused { IfOk result (λ tables. All (λ table. table.cells.header ≡ no_places) tables.items) }
    ensures count { IfOk result (λ tables. length tables.items ≡ 1) }
{
    let mut tables = Vec::new(alloc);
    tables.push(Table::new(alloc, 1, 16)?)?;
    Ok(tables)
}

/// The slot of a row with the key `a` and no body, which transaction 3 writes.
fn version(alloc: Global, place: Place) -> Result<Slot, AllocError>
    ensures row { IfOk result (λ slot. slot.row ≡ place.row) }
    ensures next { IfOk result (λ slot. slot.next ≡ place.next) }
    ensures key { IfOk result (λ slot. slot.key ≡ 97 ∷ []) }
    ensures writer { IfOk result (λ slot. slot.xn ≡ 3) }
    ensures stored { IfOk result (IsStored 16) }
{
    Ok(Slot {
        state: SlotState::Row,
        xn: 3,
        next: place.next,
        row: place.row,
        tag: 0,
        total: 0,
        log: 0,
        place: 0,
        key: Bytes::from_slice(alloc, b"a")?,
        short: Bytes::new(alloc),
    })
}

/// Appends a version of that row.
fn write(alloc: Global, site: &mut MemSite, held: &mut Held, log: &mut Xlog) -> Result<(), Fail>
    requires short { held.old.short ≡ 16 }
    requires store { (site : State) → (store : Store) × HasStore store (opening site held.old log.old) }
{
    let place = held.place_for(site, 1, b"a")?.ok_or("the table is full")?;
    let slot = version(alloc, place)?;
    let prepared = Prepared::link(1, place, slot);
    append_version(site, held, log, prepared)?;
    Ok(())
}

#[test]
fn a_version_and_its_commit_are_read_again(rt: HostRuntime) -> Result<(), Fail> {
    let alloc = rt.alloc();
    let mut site = MemSite::new(alloc)?;
    let (mut log, _none) = open_log(alloc, &mut site, &RESTART)?;
    let mut held = Held::new(16, tables(alloc)?);
    write(alloc, &mut site, &mut held, &mut log)?;
    append_end(alloc, &mut site, &mut log, 3, Some(1))?;
    append_end(alloc, &mut site, &mut log, 4, None)?;
    assert_eq!(rt; (log.frames(), log.durable()), (3, 0));
    flush(&mut site, &mut log)?;
    assert_eq!(rt; log.durable(), 3);
    assert_eq!(rt; held.row_of(&mut site, 1, b"a")?, Some(1));
    let (_log, changes) = open_log(alloc, &mut site, &RESTART)?;
    let kinds_are = match changes.as_slice() {
        [put, commit, rollback] => {
            put.kind == ChangeKind::Put
                && (commit.kind, commit.xn, commit.commit) == (ChangeKind::Commit, 3, 1)
                && (rollback.kind, rollback.xn) == (ChangeKind::Rollback, 4)
        }
        _ => false,
    };
    assert!(rt; kinds_are);
    Ok(())
}
