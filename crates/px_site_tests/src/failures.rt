// Calls that fail.
use crate::calls::{Call, made};
use px_memsite::{Failure, Keep, MemSite, Pick};
use px_site::{Fault, FileName, SiteError};
use std::process::Abort;
use std::test::Fail;

const LOG: FileName = FileName::Xlog(1);

/// A call, the number or the fault that it answers, and the log's content then.
type Row<'a> = (Call<'a>, Result<u64, Fault>, &'a [u8]);

fn run(rt: &impl Abort, site: &mut MemSite, rows: &[Row]) {
    for (call, want, content) in rows {
        assert_eq!(rt; made(rt, site, *call), want.map_err(SiteError::Fault));
        assert_eq!(rt; site.content(LOG), *content);
    }
}

#[test]
fn the_calls_that_are_named_fail(rt: HostRuntime) -> Result<(), Fail> {
    let mut site = MemSite::failing(rt.alloc(), &[0, 2, 5, 7, 9, 11, 12, 14])?;
    let rows: [Row; 16] = [
        (Call::Len(LOG), Err(Fault::Read), &[]),
        (Call::Len(LOG), Ok(0), &[]),
        (Call::Write(LOG, 1, &[5]), Err(Fault::Write), &[]),
        (Call::Write(LOG, 1, &[5]), Ok(0), &[0, 5]),
        (Call::Cut(LOG, 2), Ok(0), &[0, 5]),
        (Call::Cut(LOG, 0), Err(Fault::Write), &[0, 5]),
        (Call::Read(LOG, 1), Ok(1), &[0, 5]),
        (Call::Read(LOG, 1), Err(Fault::Read), &[0, 5]),
        (Call::Sync(LOG), Ok(0), &[0, 5]),
        (Call::Sync(LOG), Err(Fault::Sync), &[0, 5]),
        (Call::List, Ok(0), &[0, 5]),
        (Call::List, Err(Fault::List), &[0, 5]),
        (Call::Remove(LOG), Err(Fault::Remove), &[0, 5]),
        (Call::Remove(LOG), Ok(0), &[]),
        (Call::Tell(b"a"), Err(Fault::Tell), &[]),
        (Call::Tell(b"b"), Ok(0), &[]),
    ];
    run(&rt, &mut site, &rows);
    assert_eq!(rt; site.told(), b"b".as_slice());
    Ok(())
}

#[test]
fn calls_fail_half_way(rt: HostRuntime) -> Result<(), Fail> {
    let failures = [Failure { call: 0, bytes: 2 }, Failure { call: 2, bytes: 1 }];
    let mut site = MemSite::failing_partway(rt.alloc(), &failures)?;
    let rows: [Row; 3] = [
        (
            Call::Write(LOG, 1, &[7, 8, 9]),
            Err(Fault::Write),
            &[0, 7, 8],
        ),
        (Call::Tell(b"a\n"), Ok(0), &[0, 7, 8]),
        (Call::Tell(b"b\n"), Err(Fault::Tell), &[0, 7, 8]),
    ];
    run(&rt, &mut site, &rows);
    assert_eq!(rt; site.told(), b"a\nb".as_slice());
    assert_eq!(rt; site.moments(), 6);
    let left = site.crash(Pick {
        moment: 6,
        keep: Keep::Written,
    })?;
    assert_eq!(rt; left.content(LOG), [0, 7, 8, 9].as_slice());
    Ok(())
}
