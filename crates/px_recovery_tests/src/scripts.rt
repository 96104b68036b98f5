use px_calls::{Call, Event, reply_text};
use px_core::Core;
use px_memsite::MemSite;
use px_model::Session;
use px_recovery::{OpenReport, Opened, make, open_store};
use px_script::{Line, parse_line};
use std::alloc::Global;
use std::test::Fail;

/// Calls of sessions, one a line, of which the last commits; and the rows of table 1 behind it, as they are told where line ends are
/// ` | `.
pub(crate) struct Part {
    pub lines: &'static str,
    pub rows: &'static str,
}

/// What was found in a store, and its site again.
#[derive(Drop)]
pub(crate) struct Seen {
    pub report: OpenReport,
    pub rows: String,
    pub site: MemSite,
}

fn open_core(alloc: Global, site: MemSite) -> Result<Opened<MemSite>, Fail> {
    match open_store(alloc, site) {
        Ok(opened) => Ok(opened),
        Err(_refused) => Err("not opened".into()),
    }
}

/// Opens a store, and reads its rows.
pub(crate) fn look_into(alloc: Global, site: MemSite) -> Result<Seen, Fail> {
    let Opened { mut core, report } = open_core(alloc, site)?;
    answer(alloc, &mut core, "a begin")?;
    let told = answer(alloc, &mut core, "a scan 1")?;
    let rows = told.trim_end().replace(alloc, "\n", " | ")?;
    Ok(Seen {
        report,
        rows,
        site: core.close(),
    })
}

/// The site of a new store, when these calls were answered, and those behind them that don't commit.
pub(crate) fn played(alloc: Global, parts: &[Part], rest: &str) -> Result<MemSite, Fail> {
    let mut site = MemSite::new(alloc)?;
    make(&mut site, 1, 16)?;
    let Opened { mut core, .. } = open_core(alloc, site)?;
    for part in parts {
        run_lines(alloc, &mut core, part.lines)?;
    }
    run_lines(alloc, &mut core, rest)?;
    Ok(core.close())
}

fn run_lines(alloc: Global, core: &mut Core<MemSite>, lines: &str) -> Result<(), Fail> {
    for line in lines.lines() {
        answer(alloc, core, line)?;
    }
    Ok(())
}

/// The text of the reply to a call.
fn answer(alloc: Global, core: &mut Core<MemSite>, line: &str) -> Result<String, Fail> {
    let (session, call) = call_of(alloc, line)?;
    let reply = core.step(session, call)?;
    let mut text = Vec::new(alloc);
    reply_text(&reply, &mut text)?;
    Ok(String::from_utf8(text)?)
}

fn call_of(alloc: Global, line: &str) -> Result<(Session, Call), Fail> {
    match parse_line(alloc, line.as_bytes())? {
        Some(Line::Step(event)) => session_call(event),
        _ => Err("no step".into()),
    }
}

fn session_call(event: Event) -> Result<(Session, Call), Fail> {
    match event {
        Event::Session(session, call) => Ok((session, call)),
        Event::Activity(_) => Err("no call".into()),
    }
}
