use crate::calls::{Call, first_wrong};
use crate::folders::{clear, site_over};
use px_site::{FileName, Site};
use std::fs;
use std::test::Fail;

/// Names that a store has, in no order.
const NAMES: [&str; 10] = [
    "ilog",
    "index",
    "restart-0",
    "xlog-10",
    "xlog-2",
    "dlog-4294967295",
    "dlog-10",
    "dlog-9",
    "row-8",
    "rec-1",
];

/// The same in order.
const LISTED: [FileName; 10] = [
    FileName::Rec(1),
    FileName::Row(8),
    FileName::Dlog(9),
    FileName::Dlog(10),
    FileName::Dlog(u32::MAX),
    FileName::Xlog(2),
    FileName::Xlog(10),
    FileName::Restart(0),
    FileName::Index,
    FileName::Ilog,
];

/// Names that no store has.
const FOREIGN: [&str; 15] = [
    "rec-0",
    "rec-9",
    "row-01",
    "dlog-0",
    "dlog-+1",
    "dlog--1",
    "dlog-4294967296",
    "xlog-",
    "xlog",
    "xlog-1 ",
    "restart-2",
    "Index",
    "ilog.bak",
    "données",
    "rec-1\n",
];

/// Makes files of these names in the folder `order`.
fn make_files(rt: &HostRuntime, names: &[&str]) -> Result<(), Fail> {
    for name in names {
        fs::write(rt, format!(in rt.alloc(); "order/{name}")?, "a")?;
    }
    Ok(())
}

/// Whether they are as they were made.
fn are_as_made(rt: &HostRuntime, names: &[&str]) -> Result<bool, Fail> {
    for name in names {
        let bytes = fs::read(rt, format!(in rt.alloc(); "order/{name}")?)?;
        if bytes.as_slice() != b"a".as_slice() {
            return Ok(false);
        }
    }
    Ok(true)
}

/// Whether a listing gives these names, and no more.
fn lists<S: Site>(site: &mut S, names: &[FileName]) -> bool {
    let mut after = None;
    for name in names {
        let next = Some(*name);
        if site.list(after) != Ok(next) {
            return false;
        }
        after = next;
    }
    site.list(after) == Ok(None)
}

#[test]
fn names_of_the_store_are_listed_in_order(rt: HostRuntime) -> Result<(), Fail> {
    let mut site = site_over(&rt, "order")?;
    fs::create_dir(&rt, "order")?;
    make_files(&rt, &NAMES)?;
    make_files(&rt, &FOREIGN)?;
    fs::write(&rt, "order/rec-2", "")?;
    fs::create_dir(&rt, "order/rec-3")?;
    assert!(rt; lists(&mut site, &LISTED));
    let anywhere = [
        Call::List(Some(FileName::Rec(4)), Some(FileName::Row(8))),
        Call::List(Some(FileName::Xlog(5)), Some(FileName::Xlog(10))),
    ];
    assert_eq!(rt; first_wrong(&mut site, &anywhere), None);
    assert!(rt; are_as_made(&rt, &FOREIGN)?);
    clear(&rt, "order")
}

/// Data logs by their numbers, for short.
const fn log(number: u32) -> FileName {
    FileName::Dlog(number)
}

#[test]
fn a_listing_goes_on_while_files_come_and_go(rt: HostRuntime) -> Result<(), Fail> {
    let mut site = site_over(&rt, "walk")?;
    let made = [
        Call::Write(log(2), 0, b"a"),
        Call::Write(log(4), 0, b"a"),
        Call::Write(log(6), 0, b"a"),
        Call::Write(log(8), 0, b"a"),
    ];
    assert_eq!(rt; first_wrong(&mut site, &made), None);
    fs::write(&rt, "walk/dlog-7", "")?;
    let calls = [
        Call::List(None, Some(log(2))),
        // One came.
        Call::Write(log(3), 0, b"a"),
        Call::List(Some(log(2)), Some(log(3))),
        // One was removed.
        Call::Remove(log(4)),
        Call::List(Some(log(3)), Some(log(6))),
        // One got its first byte.
        Call::Write(log(7), 0, b"a"),
        Call::Write(log(1), 0, b"a"),
        Call::List(Some(log(6)), Some(log(7))),
        // One was emptied.
        Call::Cut(log(8), 0),
        Call::List(Some(log(7)), None),
        // One came before.
        Call::List(None, Some(log(1))),
    ];
    assert_eq!(rt; first_wrong(&mut site, &calls), None);
    clear(&rt, "walk")
}
