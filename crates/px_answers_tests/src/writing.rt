use crate::making::{add_writes, caller, held, session, text, xacts};
use px_answers::{Asked, may_write};
use px_locks::Locks;
use px_memsite::MemSite;
use std::alloc::Global;
use std::process::Abort;
use std::test::Fail;

/// `a` and `c` were written before the opening, `a` by session 0 since, which committed; session 1 wrote `b` and deleted `c`.
const VERSIONS: [(u8, u32, bool); 5] = [
    (b'a', 3, true),
    (b'c', 4, true),
    (b'a', 12, true),
    (b'b', 13, true),
    (b'c', 13, false),
];

const LONG_KEY: [u8; 65] = [1; 65];

const LONG_BODY: [u8; 17] = [7; 17];

/// Who asks, how many writes it made, the table, the key and the body; and the answer.
#[test]
fn inserts_are_refused_in_order(rt: HostRuntime) -> Result<(), Fail> {
    for (number, writes, table, key, body, answer) in [
        (
            0,
            0,
            2,
            b"".as_slice(),
            LONG_BODY.as_slice(),
            "no transaction\n",
        ),
        (
            2,
            10_000,
            2,
            b"".as_slice(),
            LONG_BODY.as_slice(),
            "no table\n",
        ),
        (
            2,
            10_000,
            0,
            b"".as_slice(),
            LONG_BODY.as_slice(),
            "no table\n",
        ),
        (
            2,
            10_000,
            1,
            b"".as_slice(),
            LONG_BODY.as_slice(),
            "limit key\n",
        ),
        (
            2,
            10_000,
            1,
            LONG_KEY.as_slice(),
            LONG_BODY.as_slice(),
            "limit key\n",
        ),
        (
            2,
            10_000,
            1,
            b"b".as_slice(),
            LONG_BODY.as_slice(),
            "limit body\n",
        ),
        (
            2,
            10_000,
            1,
            b"b".as_slice(),
            b"".as_slice(),
            "limit writes\n",
        ),
        (2, 9_999, 1, b"b".as_slice(), b"".as_slice(), "conflict 3\n"),
        (2, 0, 1, b"a".as_slice(), b"".as_slice(), "conflict 2\n"),
        (1, 0, 1, b"a".as_slice(), b"".as_slice(), "duplicate\n"),
        (1, 0, 1, b"c".as_slice(), b"".as_slice(), "13\n"),
        (1, 0, 1, b"d".as_slice(), b"".as_slice(), "13\n"),
    ] {
        let asked = Asked::insert(table, key, body);
        let answered = answer_to(rt.alloc(), number, writes, &asked)?;
        assert_eq!(rt; answered.as_slice(), answer.as_bytes());
    }
    Ok(())
}

#[test]
fn updates_and_deletions_want_a_row(rt: HostRuntime) -> Result<(), Fail> {
    for (number, key, answer) in [
        (2, b"a", "conflict 2\n"),
        (2, b"d", "missing\n"),
        (1, b"c", "missing\n"),
        (1, b"a", "13\n"),
        (1, b"b", "13\n"),
    ] {
        let updated = answer_to(rt.alloc(), number, 0, &Asked::update(1, key, b""))?;
        assert_eq!(rt; updated.as_slice(), answer.as_bytes());
        let deleted = answer_to(rt.alloc(), number, 0, &Asked::delete(1, key))?;
        assert_eq!(rt; deleted.as_slice(), answer.as_bytes());
    }
    Ok(())
}

/// The text of the refusal, or a line with the writer's stored number, where the session's transaction made so many writes.
fn answer_to(alloc: Global, number: u8, writes: usize, asked: &Asked<'_>) -> Result<Vec<u8>, Fail> {
    let mut all = xacts(alloc)?;
    let session = session(number)?;
    add_writes(alloc, &mut all, session, writes)?;
    let mut held = held(alloc, &VERSIONS)?;
    let mut site = MemSite::new(alloc)?;
    let mut locks = Locks::new(alloc)?;
    locks.take(1, b"b", 3)?;
    let caller = caller(&all, session);
    match may_write(&mut site, &mut held, &caller, &locks, asked)? {
        Ok(writer) => Ok(format!(in alloc; "{}\n", writer.stored)?.into_bytes()),
        Err(refusal) => Ok(text(alloc, &refusal)?),
    }
}
