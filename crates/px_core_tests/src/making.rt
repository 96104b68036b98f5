//! The core of a store that was just made. No function that a test calls has a clause, so that no test is proved over what a
//! core ensures.

ghost use Rattle.std.specs.Prelude.{◌≡◌, All, IfOk, length};
ghost use Rattle.px_chain.specs.Sound.{no_places};
ghost use Rattle.px_held.specs.Serving.{AreNumbered};

use px_active::Active;
use px_calls::{Call, reply_text};
use px_change::ChangeKind;
use px_core::Core;
use px_held::Held;
use px_log::open_log;
use px_memsite::MemSite;
use px_model::Session;
use px_opened::{lay_all, open_tables};
use px_restart::Restart;
use px_tables::Table;
use std::alloc::{AllocError, Global};
use std::test::Fail;

/// A new store with two tables, whose slots hold bodies of up to 64 bytes.
const RESTART: Restart = Restart {
    serial: 1,
    tables: 2,
    short: 64,
    commits: 0,
    next: 1,
    low: 1,
    first: 0,
    redo: 0,
    durable: 0,
    segment: 1,
};

fn tables(alloc: Global) -> Result<Vec<Table>, AllocError>
    ensures numbered { IfOk result (λ tables. AreNumbered 64 tables.items) }
    ensures unused { IfOk result (λ tables. All (λ table. table.cells.header ≡ no_places) tables.items) }
    ensures count { IfOk result (λ tables. length tables.items ≡ 2) }
{
    let mut tables = Vec::new(alloc);
    tables.push(Table::new(alloc, 1, 64)?)?;
    tables.push(Table::new(alloc, 2, 64)?)?;
    Ok(tables)
}

/// Its core, over a site in memory.
pub(crate) fn new_core(alloc: Global) -> Result<Core<MemSite>, Fail> {
    let mut site = MemSite::new(alloc)?;
    let (log, _none) = open_log(alloc, &mut site, &RESTART)?;
    let held = Held::new(64, tables(alloc)?);
    let active = Active::new(alloc, 0, 0)?;
    Ok(Core::new(alloc, site, held, active, log))
}

/// The text of the reply to a call.
pub(crate) fn answer(
    alloc: Global,
    core: &mut Core<MemSite>,
    session: Session,
    call: Call,
) -> Result<String, Fail> {
    let reply = core.step(session, call)?;
    let mut text = Vec::new(alloc);
    reply_text(&reply, &mut text)?;
    Ok(String::from_utf8(text)?)
}

/// What the frames of the log say that was done, as it is read again over the site that the core leaves.
pub(crate) fn kinds_in_log(alloc: Global, core: Core<MemSite>) -> Result<Vec<ChangeKind>, Fail> {
    let mut site = core.close();
    let (_log, changes) = open_log(alloc, &mut site, &RESTART)?;
    let mut kinds = Vec::new(alloc);
    for change in changes.as_slice() {
        kinds.push(change.kind)?;
    }
    Ok(kinds)
}

/// The cells that the log leaves, read over the site that the core leaves, are sound.
pub(crate) fn survey(alloc: Global, core: Core<MemSite>) -> Result<(), Fail> {
    let mut site = core.close();
    let (_log, changes) = open_log(alloc, &mut site, &RESTART)?;
    let laid = lay_all(alloc, changes.as_slice())?;
    let _tables = open_tables(alloc, RESTART.tables, RESTART.short, &laid)?;
    Ok(())
}
