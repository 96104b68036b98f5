use crate::making::{answer, kinds_in_log, new_core};
use crate::scripts::{SCRIPTS, TWO_SESSIONS};
use px_calls::{Call, Event};
use px_change::ChangeKind::{self, Commit, Put, Rollback};
use px_core::Core;
use px_memsite::MemSite;
use px_model::Session;
use px_script::{Line, parse_line};
use std::alloc::Global;
use std::process::Abort;
use std::test::Fail;

/// The frames that the calls of two sessions leave: one of each write, one of each end of a transaction with writes.
const FRAMES: [ChangeKind; 7] = [Put, Commit, Put, Put, Rollback, Put, Commit];

/// The session and the call of a line.
fn call_of(alloc: Global, line: &str) -> Result<(Session, Call), Fail> {
    match parse_line(alloc, line.as_bytes())? {
        Some(Line::Step(event)) => session_call(event),
        _ => Err("no step".into()),
    }
}

fn session_call(event: Event) -> Result<(Session, Call), Fail> {
    match event {
        Event::Session(session, call) => Ok((session, call)),
        Event::Activity(_) => Err("no call".into()),
    }
}

/// An answer as it is told.
fn told(alloc: Global, answer: &str) -> Result<String, Fail> {
    let mut text = answer.replace(alloc, " | ", "\n")?;
    text.push('\n')?;
    Ok(text)
}

/// The core answers each call of the script as written there.
fn run_calls(
    rt: &impl Abort,
    alloc: Global,
    core: &mut Core<MemSite>,
    script: &str,
) -> Result<(), Fail> {
    for line in script.trim().lines() {
        let (asked, want) = line.split_once(" > ").ok_or("no answer")?;
        let (session, call) = call_of(alloc, asked)?;
        let got = answer(alloc, core, session, call)?;
        assert_eq!(rt; got.as_str(), told(alloc, want)?.as_str(), "at {line}");
    }
    Ok(())
}

#[test]
fn two_sessions_are_answered_and_logged(rt: HostRuntime) -> Result<(), Fail> {
    let mut core = new_core(rt.alloc())?;
    run_calls(&rt, rt.alloc(), &mut core, TWO_SESSIONS)?;
    let kinds = kinds_in_log(rt.alloc(), core)?;
    assert!(rt; kinds.as_slice() == FRAMES.as_slice());
    Ok(())
}

/// A script on a store of its own.
fn run_anew(rt: &impl Abort, alloc: Global, script: &str) -> Result<(), Fail> {
    let mut core = new_core(alloc)?;
    run_calls(rt, alloc, &mut core, script)
}

#[test]
fn scripts_are_answered_as_written(rt: HostRuntime) -> Result<(), Fail> {
    for script in SCRIPTS {
        run_anew(&rt, rt.alloc(), script)?;
    }
    Ok(())
}
