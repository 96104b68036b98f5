use crate::files::{FIRST, FRAMES, LOG, MADE, SAVED, SECOND};
use crate::stores::store;
use px_memsite::MemSite;
use px_recovery::{MakeError, make};
use px_site::{Fault, FileName};
use std::test::Fail;

#[test]
fn a_store_is_made_in_an_empty_site(rt: HostRuntime) -> Result<(), Fail> {
    let mut site = MemSite::new(rt.alloc())?;
    make(&mut site, 1, 16)?;
    assert_eq!(rt; site.content(FIRST), MADE.as_slice());
    for file in [SECOND, LOG, FileName::Rec(1), FileName::Index] {
        assert_eq!(rt; site.content(file).len(), 0);
    }
    // the write, the sync, and the two moments of each
    assert_eq!(rt; site.moments(), 4);
    Ok(())
}

#[test]
fn no_store_is_made_where_there_is_something(rt: HostRuntime) -> Result<(), Fail> {
    let mut torn = *SAVED;
    torn[8] = 1;
    for (file, bytes, made) in [
        (FIRST, MADE.as_slice(), Err(MakeError::NotEmpty)),
        (SECOND, SAVED.as_slice(), Err(MakeError::NotEmpty)),
        (LOG, b"\0".as_slice(), Err(MakeError::NotEmpty)),
        (FileName::Rec(1), b"a", Err(MakeError::NotEmpty)),
        (FileName::Ilog, b"a", Err(MakeError::NotEmpty)),
        (FIRST, torn.as_slice(), Ok(())),
        (SECOND, torn.as_slice(), Ok(())),
    ] {
        let mut site = MemSite::new(rt.alloc())?;
        site.put_file(file, bytes)?;
        assert_eq!(rt; make(&mut site, 1, 16), made);
        if made.is_err() {
            assert_eq!(rt; site.content(file), bytes);
        }
    }
    Ok(())
}

#[test]
fn each_call_of_make_may_fail(rt: HostRuntime) -> Result<(), Fail> {
    for (call, fault, again) in [
        (0, Fault::List, Ok(())),
        (1, Fault::List, Ok(())),
        (2, Fault::Read, Ok(())),
        (3, Fault::Read, Ok(())),
        (4, Fault::Write, Ok(())),
        // the store is there, but a crash may take it
        (5, Fault::Sync, Err(MakeError::NotEmpty)),
    ] {
        let mut site = MemSite::failing(rt.alloc(), &[call])?;
        assert_eq!(rt; make(&mut site, 1, 16), Err(MakeError::Fault(fault)));
        assert_eq!(rt; make(&mut site, 1, 16), again);
    }
    Ok(())
}

#[test]
fn a_store_stays_whichever_call_of_make_fails(rt: HostRuntime) -> Result<(), Fail> {
    // the first listing finds the log, and nothing more is asked
    for (call, error) in [
        (0, MakeError::Fault(Fault::List)),
        (1, MakeError::NotEmpty),
        (2, MakeError::NotEmpty),
        (3, MakeError::NotEmpty),
        (4, MakeError::NotEmpty),
        (5, MakeError::NotEmpty),
    ] {
        let mut site = store(&rt, rt.alloc(), &[call], FRAMES.as_slice())?;
        let moments = site.moments();
        assert_eq!(rt; make(&mut site, 1, 16), Err(error), "call {call}");
        assert_eq!(rt; site.moments(), moments, "call {call}");
        assert_eq!(rt; site.content(FIRST), MADE.as_slice());
        assert_eq!(rt; site.content(LOG), FRAMES.as_slice());
    }
    Ok(())
}
