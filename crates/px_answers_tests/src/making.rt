ghost use Rattle.std.specs.Bool.{OnTrue};
ghost use Rattle.std.specs.Prelude.{◌≡◌, ◌<◌, [], ◌∷◌, IfOk, IsSomeAnd, length};
ghost use Rattle.px_model.specs.declared.limits.TheConstants.{MOST_WRITES};
ghost use Rattle.px_xacts.specs.Transactions.{open_of};
ghost use Rattle.px_chain.specs.Links.{IsStored};
ghost use Rattle.px_held.specs.Serving.{AreNumbered};
ghost use Rattle.px_answers_tests.specs.declared.making.TheConstants.{SHORT};

use px_answers::Caller;
use px_calls::{Reply, reply_text};
use px_cells::{Slot, SlotState};
use px_held::{Held, Prepared};
use px_memsite::MemSite;
use px_model::{Bytes, MOST_WRITES, Session};
use px_tables::{Place, Table};
use px_xacts::{Begun, WriteAt, Xacts};
use std::alloc::{AllocError, Global};
use std::test::Fail;

pub(crate) const SHORT: u32 = 16;

/// The greatest stored number at the opening.
const BASE: u64 = 10;

/// The only table of a store whose short length is `SHORT`.
#[derive(Drop)]
struct OneTable {
    held: Held,
    ghost short: { held.short ≡ SHORT },
}

impl OneTable {
    fn new(alloc: Global) -> Result<OneTable, AllocError> {
        let held = Held::new(SHORT, alone(alloc)?);
        Ok(OneTable { held })
    }

    /// Links a version of the row with this key of one byte, whose tag is the writer's number: a row, or a deletion of it.
    fn link(&mut self, alloc: Global, key: u8, xn: u32, is_row: bool) -> Result<(), Fail> {
        let mut site = MemSite::new(alloc)?;
        let place = self
            .held
            .place_for(&mut site, 1, &[key])?
            .ok_or("the table is full")?;
        let slot = version(alloc, place, key, xn, is_row)?;
        let prepared = Prepared::link(1, place, slot);
        let _version = self.held.version_of(&prepared);
        self.held.lay(prepared);
        Ok(())
    }
}

fn alone(alloc: Global) -> Result<Vec<Table>, AllocError>
    ensures { IfOk result (λ tables. AreNumbered SHORT tables.items) }
{
    let mut tables = Vec::new(alloc);
    tables.push(Table::new(alloc, 1, SHORT)?)?;
    Ok(tables)
}

/// The slot of a version of the row with this key of one byte.
fn version(alloc: Global, place: Place, key: u8, xn: u32, is_row: bool) -> Result<Slot, AllocError>
    ensures row { IfOk result (λ slot. slot.row ≡ place.row) }
    ensures next { IfOk result (λ slot. slot.next ≡ place.next) }
    ensures key { IfOk result (λ slot. slot.key ≡ key ∷ []) }
    ensures stored { IfOk result (IsStored SHORT) }
{
    if is_row {
        row(alloc, place, key, xn)
    } else {
        deletion(alloc, place, key, xn)
    }
}

fn row(alloc: Global, place: Place, key: u8, xn: u32) -> Result<Slot, AllocError>
    ensures row { IfOk result (λ slot. slot.row ≡ place.row) }
    ensures next { IfOk result (λ slot. slot.next ≡ place.next) }
    ensures key { IfOk result (λ slot. slot.key ≡ key ∷ []) }
    ensures stored { IfOk result (IsStored SHORT) }
{
    Ok(Slot {
        state: SlotState::Row,
        xn: u64::from(xn),
        next: place.next,
        row: place.row,
        tag: xn,
        total: 0,
        log: 0,
        place: 0,
        key: Bytes::from_slice(alloc, &[key])?,
        short: Bytes::new(alloc),
    })
}

fn deletion(alloc: Global, place: Place, key: u8, xn: u32) -> Result<Slot, AllocError>
    ensures row { IfOk result (λ slot. slot.row ≡ place.row) }
    ensures next { IfOk result (λ slot. slot.next ≡ place.next) }
    ensures key { IfOk result (λ slot. slot.key ≡ key ∷ []) }
    ensures stored { IfOk result (IsStored SHORT) }
{
    Ok(Slot {
        state: SlotState::Deletion,
        xn: u64::from(xn),
        next: place.next,
        row: place.row,
        tag: 0,
        total: 0,
        log: 0,
        place: 0,
        key: Bytes::from_slice(alloc, &[key])?,
        short: Bytes::new(alloc),
    })
}

/// A table with these versions, the oldest first: a key of one byte, the writer's stored number, and whether it is a row.
pub(crate) fn held(alloc: Global, versions: &[(u8, u32, bool)]) -> Result<Held, Fail> {
    let mut one = OneTable::new(alloc)?;
    for (key, xn, is_row) in versions {
        one.link(alloc, *key, *xn, *is_row)?;
    }
    Ok(one.held)
}

/// The transactions since the opening. Session 2 began first; then session 0 began, wrote and committed; then session 1 began.
/// Their stored numbers are 11, 12 and 13.
pub(crate) fn xacts(alloc: Global) -> Result<Xacts, Fail> {
    let mut all = Xacts::new(alloc, BASE)?;
    let writer = session(0)?;
    let _first = all.begin(session(2)?, 0)?;
    let write = WriteAt {
        table: 1,
        row: 1,
        slot: 3,
        key: Bytes::from_slice(alloc, b"a")?,
    };
    if let Begun::Number(_) = all.begin(writer, 0)? {
        all.add_write(writer, write)?;
    }
    let _number = all.number(writer).ok_or("it hasn't begun")?;
    all.end(writer, true);
    let _third = all.begin(session(1)?, 0)?;
    Ok(all)
}

/// Adds so many writes to the session's transaction, but no more than it may have.
pub(crate) fn add_writes(
    alloc: Global,
    all: &mut Xacts,
    session: Session,
    writes: usize,
) -> Result<(), AllocError> {
    for _write in 0..writes {
        if !may_add(all, session) {
            return Ok(());
        }
        let write = WriteAt {
            table: 1,
            row: 1,
            slot: 1,
            key: Bytes::new(alloc),
        };
        all.add_write(session, write)?;
    }
    Ok(())
}

/// Tells whether the session's transaction may have one more write.
fn may_add(all: &Xacts, session: Session) -> bool
    ensures { OnTrue result (IsSomeAnd (open_of all.now session) (λ transaction. length transaction.writes < MOST_WRITES)) }
{
    match all.open_of(session) {
        Some(transaction) => transaction.writes.as_slice().len() < MOST_WRITES,
        None => false,
    }
}

pub(crate) fn session(number: u8) -> Result<Session, Fail> {
    Ok(Session::of(number).ok_or("no such session")?)
}

/// That session.
pub(crate) fn caller(all: &Xacts, session: Session) -> Caller<'_> {
    Caller {
        session,
        xacts: all,
        tables: 1,
        short: SHORT,
    }
}

/// The reply's text.
pub(crate) fn text(alloc: Global, reply: &Reply) -> Result<Vec<u8>, AllocError> {
    let mut out = Vec::new(alloc);
    reply_text(reply, &mut out)?;
    Ok(out)
}
