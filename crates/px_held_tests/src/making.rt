ghost use Rattle.std.specs.Prelude.{◌≡◌, [], ◌∷◌, All, IfOk, OnOk};
ghost use Rattle.px_chain.specs.Links.{IsStored};
ghost use Rattle.px_chain.specs.Sound.{no_places};
ghost use Rattle.px_held.specs.Serving.{AreNumbered, Serves};
ghost use Rattle.px_history.specs.Store.{Store};
ghost use Rattle.px_site.specs.State.{State};
ghost use Rattle.px_held_tests.specs.declared.making.TheConstants.{SHORT};

use px_cells::{Slot, SlotState};
use px_held::{Held, Prepared};
use px_memsite::MemSite;
use px_model::{Bytes, Session};
use px_tables::{Place, Table};
use px_tidy::Done;
use px_xacts::{Begun, WriteAt, Xacts};
use std::alloc::{AllocError, Global};
use std::test::Fail;

const SHORT: u32 = 16;

/// The greatest stored number at the opening.
pub(crate) const BASE: u64 = 10;

/// Links a version of the row with this key of one byte in the only table, whose tag is the writer's number.
fn link(held: &mut Held, alloc: Global, key: u8, xn: u32) -> Result<(), Fail>
    requires short { held.old.short ≡ SHORT }
    requires serves { (site : State) → (store : Store) × Serves site held.old store }
    ensures short { OnOk result (held.new.short ≡ SHORT) }
    ensures serves { OnOk result ((site : State) → (store : Store) × Serves site held.new store) }
{
    let mut site = MemSite::new(alloc)?;
    let place = held
        .place_for(&mut site, 1, &[key])?
        .ok_or("the table is full")?;
    let slot = version(alloc, place, key, xn)?;
    let prepared = Prepared::link(1, place, slot);
    let _version = held.version_of(&prepared);
    held.lay(prepared);
    Ok(())
}

fn alone(alloc: Global) -> Result<Vec<Table>, AllocError>
    ensures numbered { IfOk result (λ tables. AreNumbered SHORT tables.items) }
    ensures unused { IfOk result (λ tables. All (λ table. table.cells.header ≡ no_places) tables.items) }
{
    let mut tables = Vec::new(alloc);
    tables.push(Table::new(alloc, 1, SHORT)?)?;
    Ok(tables)
}

/// The slot of a version of the row with this key of one byte.
fn version(alloc: Global, place: Place, key: u8, xn: u32) -> Result<Slot, AllocError>
    ensures row { IfOk result (λ slot. slot.row ≡ place.row) }
    ensures next { IfOk result (λ slot. slot.next ≡ place.next) }
    ensures key { IfOk result (λ slot. slot.key ≡ key ∷ []) }
    ensures stored { IfOk result (IsStored SHORT) }
{
    Ok(Slot {
        state: SlotState::Row,
        xn: u64::from(xn),
        next: place.next,
        row: place.row,
        tag: xn,
        total: 0,
        log: 0,
        place: 0,
        key: Bytes::from_slice(alloc, &[key])?,
        short: Bytes::new(alloc),
    })
}

/// Tables that hold versions of these keys, the oldest first. They serve a store.
pub(crate) fn held(alloc: Global, versions: &[(u8, u32)]) -> Result<Held, Fail>
    ensures { IfOk result (λ held. (site : State) → (store : Store) × Serves site held store) }
{
    let mut held = Held::new(SHORT, alone(alloc)?);
    for (key, xn) in versions {
        link(&mut held, alloc, *key, *xn)?;
    }
    Ok(held)
}

/// Unlinks the oldest version that goes of the first row. Answers its slot, and how many cells that changes.
pub(crate) fn unlink_oldest(
    held: &mut Held,
    alloc: Global,
    done: &Done,
) -> Result<(u32, usize), Fail>
    requires { (site : State) → (store : Store) × Serves site held.old store }
{
    let mut site = MemSite::new(alloc)?;
    let row = held.next_row(&mut site, 1, 0)?.ok_or("no row")?;
    let versions = held.versions_to_tidy(&mut site, 1, row, done)?;
    let oldest = *versions.first().ok_or("none goes")?;
    let prepared = held.prepare_unlink(&mut site, 1, row, oldest.newer, oldest.slot, 1)?;
    let cells = held.cells_unlinked(&prepared)?;
    held.lay_unlinked(prepared);
    Ok((oldest.slot, cells.as_slice().len()))
}

/// The transactions since the opening: the first wrote a row and committed, the second one is open.
pub(crate) fn xacts(alloc: Global) -> Result<Xacts, Fail> {
    let mut all = Xacts::new(alloc, BASE)?;
    let first = Session::of(0).ok_or("no session")?;
    let key = Bytes::from_slice(alloc, b"a")?;
    let (row, slot) = (1, 2);
    let write = WriteAt {
        table: 1,
        row,
        slot,
        key,
    };
    if let Begun::Number(_) = all.begin(first, 0)? {
        all.add_write(first, write)?;
    }
    let _number = all.number(first).ok_or("it hasn't begun")?;
    all.end(first, true);
    let _begun = all.begin(Session::of(1).ok_or("no session")?, 0)?;
    Ok(all)
}
