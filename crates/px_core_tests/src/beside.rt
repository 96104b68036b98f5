use crate::definitions::Definitions;
use crate::drawn::Drawn;
use crate::making::{answer, new_core, survey};
use px_calls::{Reply, reply_text};
use px_core::Core;
use px_memsite::MemSite;
use px_model::{KeyOf, Row, RowList};
use std::alloc::Global;
use std::process::Abort;
use std::test::Fail;

/// The seeds of four scripts.
const SEEDS: [u64; 4] = [1, 20, 300, 4000];

/// A store of two tables and six keys has no more rows.
const MOST_ROWS: usize = 13;

/// After how many calls of a script the cells are surveyed.
const CALLS: [usize; 5] = [100, 200, 300, 400, 500];

fn text_of(alloc: Global, reply: &Reply) -> Result<String, Fail> {
    let mut text = Vec::new(alloc);
    reply_text(reply, &mut text)?;
    Ok(String::from_utf8(text)?)
}

/// A call that is drawn is answered as its definition has it.
fn call_once(
    rt: &impl Abort,
    alloc: Global,
    core: &mut Core<MemSite>,
    definitions: &mut Definitions,
    drawn: &mut Drawn,
) -> Result<(), Fail> {
    let session = drawn.session()?;
    let call = drawn.call(alloc)?;
    let want = text_of(alloc, &definitions.step(session, call.copy()?)?)?;
    let got = answer(alloc, core, session, call)?;
    assert_eq!(rt; got.as_str(), want.as_str());
    Ok(())
}

/// The rows that are committed, one after the other.
fn rows_of(alloc: Global, core: &mut Core<MemSite>) -> Result<RowList, Fail> {
    let mut rows = RowList::new(alloc);
    let mut last = None;
    for _ in 0..MOST_ROWS {
        let Some(row) = core.next_row(last.as_ref())? else {
            return Ok(rows);
        };
        last = Some(name_of(&row)?);
        rows.push(row)?;
    }
    Err("too many rows".into())
}

fn name_of(row: &Row) -> Result<KeyOf, Fail> {
    Ok(KeyOf {
        table: row.table,
        key: row.key.copy()?,
    })
}

/// The first calls of a script, so many. Behind them the rows are those of the definitions, and the cells sound.
fn play(rt: &impl Abort, alloc: Global, seed: u64, calls: usize) -> Result<(), Fail> {
    let mut drawn = Drawn::of(seed);
    let mut definitions = Definitions::new(alloc)?;
    let mut core = new_core(alloc)?;
    for _ in 0..calls {
        call_once(rt, alloc, &mut core, &mut definitions, &mut drawn)?;
    }
    let want = text_of(alloc, &Reply::Rows(definitions.committed()?))?;
    let got = text_of(alloc, &Reply::Rows(rows_of(alloc, &mut core)?))?;
    assert_eq!(rt; got.as_str(), want.as_str());
    survey(alloc, core)
}

/// The cells are surveyed after each hundredth call.
fn play_hundreds(rt: &impl Abort, alloc: Global, seed: u64) -> Result<(), Fail> {
    for calls in CALLS {
        play(rt, alloc, seed, calls)?;
    }
    Ok(())
}

#[test]
fn drawn_calls_are_answered_as_defined(rt: HostRuntime) -> Result<(), Fail> {
    for seed in SEEDS {
        play_hundreds(&rt, rt.alloc(), seed)?;
    }
    Ok(())
}
