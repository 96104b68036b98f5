use crate::making::{caller, held, session, text, xacts};
use px_answers::{Tickets, fetch, find, get, hold, scan};
use px_memsite::MemSite;
use std::process::Abort;
use std::test::Fail;

/// `a` and `c` were written before the opening, `a` by session 0 since, which committed; session 1 wrote `b` and deleted `c`.
const VERSIONS: [(u8, u32, bool); 5] = [
    (b'a', 3, true),
    (b'c', 4, true),
    (b'a', 12, true),
    (b'b', 13, true),
    (b'c', 13, false),
];

#[test]
fn each_session_gets_its_rows(rt: HostRuntime) -> Result<(), Fail> {
    let all = xacts(rt.alloc())?;
    let all = &all;
    let mut held = held(rt.alloc(), &VERSIONS)?;
    let mut site = MemSite::new(rt.alloc())?;
    for (number, key, replied) in [
        (2, b"a", "row 3 -\n"),
        (2, b"b", "none\n"),
        (2, b"c", "row 4 -\n"),
        (1, b"a", "row 12 -\n"),
        (1, b"b", "row 13 -\n"),
        (1, b"c", "none\n"),
        (1, b"d", "none\n"),
        (0, b"a", "no transaction\n"),
    ] {
        let caller = caller(all, session(number)?);
        let reply = get(&mut site, &mut held, &caller, 1, key)?;
        assert_eq!(rt; text(rt.alloc(), &reply)?.as_slice(), replied.as_bytes());
    }
    Ok(())
}

#[test]
fn each_session_scans_its_rows(rt: HostRuntime) -> Result<(), Fail> {
    let all = xacts(rt.alloc())?;
    let all = &all;
    let mut held = held(rt.alloc(), &VERSIONS)?;
    let mut site = MemSite::new(rt.alloc())?;
    for (number, replied) in [
        (2, "found 2\nat 61 3 -\nat 63 4 -\n"),
        (1, "found 2\nat 61 12 -\nat 62 13 -\n"),
    ] {
        let caller = caller(all, session(number)?);
        let reply = scan(rt.alloc(), &mut site, &mut held, &caller, 1)?;
        assert_eq!(rt; text(rt.alloc(), &reply)?.as_slice(), replied.as_bytes());
    }
    for (number, tag, replied) in [(2, 4, "found 1\nat 63 4 -\n"), (1, 4, "found 0\n")] {
        let caller = caller(all, session(number)?);
        let reply = find(rt.alloc(), &mut site, &mut held, &caller, 1, tag)?;
        assert_eq!(rt; text(rt.alloc(), &reply)?.as_slice(), replied.as_bytes());
    }
    Ok(())
}

#[test]
fn a_ticket_keeps_its_row(rt: HostRuntime) -> Result<(), Fail> {
    let all = xacts(rt.alloc())?;
    let all = &all;
    let mut held = held(rt.alloc(), &VERSIONS)?;
    let mut site = MemSite::new(rt.alloc())?;
    let mut tickets = Tickets::new(rt.alloc())?;
    for (key, replied) in [
        (b"a", "held 1\n"),
        (b"c", "missing\n"),
        (b"b", "held 2\n"),
        (b"b", "held 3\n"),
        (b"a", "held 4\n"),
        (b"a", "limit tickets\n"),
    ] {
        let caller = caller(all, session(1)?);
        let reply = hold(&mut site, &mut held, &caller, &mut tickets, 1, key)?;
        assert_eq!(rt; text(rt.alloc(), &reply)?.as_slice(), replied.as_bytes());
    }
    for (number, ticket, replied) in [
        (1, 2, "row 13 -\n"),
        (1, 5, "no ticket\n"),
        (1, 0, "no ticket\n"),
        (2, 1, "no ticket\n"),
    ] {
        let caller = caller(all, session(number)?);
        let reply = fetch(&caller, &tickets, ticket)?;
        assert_eq!(rt; text(rt.alloc(), &reply)?.as_slice(), replied.as_bytes());
    }
    tickets.clear(session(1)?);
    let caller = caller(all, session(1)?);
    let reply = fetch(&caller, &tickets, 1)?;
    assert_eq!(rt;
        text(rt.alloc(), &reply)?.as_slice(),
        b"no ticket\n".as_slice()
    );
    Ok(())
}
