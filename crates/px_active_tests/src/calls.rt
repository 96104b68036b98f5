use px_active::{Active, NewWrite};
use px_calls::reply_text;
use px_model::{MOST_WRITES, Session};
use std::alloc::Global;
use std::process::Abort;
use std::test::Fail;

/// What a session does: it begins, writes the row `a`, takes that back, which tells whether nobody held the key before, or ends,
/// which tells whether it commits.
#[derive(Clone, Copy)]
enum Step {
    Begin,
    Write,
    TakeBack(bool),
    End(bool),
}

/// Who does what, what it is told, the number of who holds `a` then, and the session's stored number where it has writes; 0 is none.
#[test]
fn two_sessions_take_turns(rt: HostRuntime) -> Result<(), Fail> {
    let mut active = Active::new(rt.alloc(), 10, 5)?;
    for (number, step, told, holder, writer) in [
        (0, Step::Begin, "began 1\n", 0, 0),
        (1, Step::Begin, "began 2\n", 0, 0),
        (0, Step::Write, "free", 1, 11),
        (0, Step::Write, "held", 1, 11),
        (0, Step::TakeBack(false), "", 1, 11),
        (0, Step::TakeBack(true), "", 0, 0),
        (0, Step::Write, "free", 1, 11),
        (0, Step::End(true), "committed 6\n", 0, 0),
        (1, Step::End(true), "ended\n", 0, 0),
        (1, Step::Begin, "began 3\n", 0, 0),
        (1, Step::Write, "free", 3, 13),
        (1, Step::End(false), "rolled back\n", 0, 0),
    ] {
        let session = Session::of(number).ok_or("no such session")?;
        let answer = answer(rt.alloc(), &mut active, session, step)?;
        assert_eq!(rt; answer.as_slice(), told.as_bytes());
        assert_eq!(rt; active.locks.holder(1, b"a").unwrap_or(0), holder);
        assert_eq!(rt; active.writer(session).unwrap_or(0), writer);
    }
    Ok(())
}

fn answer(
    alloc: Global,
    active: &mut Active,
    session: Session,
    step: Step,
) -> Result<Vec<u8>, Fail> {
    let mut out = Vec::new(alloc);
    match step {
        Step::Begin => reply_text(&active.begin(session, 0)?, &mut out)?,
        Step::Write => {
            out.extend_from_slice(if write(alloc, active, session)? {
                b"free"
            } else {
                b"held"
            })?
        }
        Step::TakeBack(free) => take_back(active, session, free)?,
        Step::End(_) if active.commits >= 100 => return Err("too many commits".into()),
        Step::End(committed) => reply_text(&active.end(session, committed), &mut out)?,
    }
    Ok(out)
}

fn write(alloc: Global, active: &mut Active, session: Session) -> Result<bool, Fail> {
    let transaction = active.xacts.open_of(session).ok_or("no transaction")?;
    let number = transaction.number;
    if transaction.writes.as_slice().len() >= MOST_WRITES {
        return Err("too many writes".into());
    }
    if active.locks.holder(1, b"a").unwrap_or(number) != number {
        return Err("another one holds the key".into());
    }
    let write = NewWrite {
        session,
        number,
        table: 1,
        row: 1,
        slot: 1,
        key: b"a",
    };
    Ok(active.write(alloc, &write)?)
}

fn take_back(active: &mut Active, session: Session, free: bool) -> Result<(), Fail> {
    let transaction = active.xacts.open_of(session).ok_or("no transaction")?;
    if transaction.writes.as_slice().is_empty() {
        return Err("it has no writes".into());
    }
    active.take_back(session, free);
    Ok(())
}
