use crate::store::{end, open, sweep};
use px_model::Session;
use px_xacts::{Begun, Xacts};
use std::test::Fail;

#[test]
fn the_first_and_the_last_stored_number_are_given_out(rt: HostRuntime) -> Result<(), Fail> {
    let alloc = rt.alloc();
    let first = Session::of(0).ok_or("no session")?;
    let second = Session::of(1).ok_or("no session")?;
    let mut all = Xacts::new(alloc, 0)?;
    assert_eq!(rt; open(alloc, &mut all, first, 0, 1)?, Begun::Number(1));
    assert_eq!(rt; (all.horizon(), all.low()), (0, 1));
    let mut all = Xacts::new(alloc, 4_611_686_018_427_387_902)?;
    assert_eq!(rt; open(alloc, &mut all, first, 0, 0)?, Begun::Number(1));
    assert_eq!(rt; open(alloc, &mut all, second, 0, 0)?, Begun::LimitBegins);
    assert_eq!(rt; open(alloc, &mut all, first, 0, 0)?, Begun::OpenAlready);
    assert_eq!(rt; all.low(), 4_611_686_018_427_387_903);
    Ok(())
}

#[test]
fn many_transactions_follow_each_other(rt: HostRuntime) -> Result<(), Fail> {
    let alloc = rt.alloc();
    let session = Session::of(15).ok_or("no session")?;
    let mut all = Xacts::new(alloc, 0)?;
    for round in 0..10_000 {
        assert_eq!(rt;
            open(alloc, &mut all, session, round, 3)?,
            Begun::Number(round + 1)
        );
        assert!(rt; end(&mut all, session, round % 2 == 0));
        for _write in 0..3 {
            assert!(rt; sweep(&mut all));
        }
    }
    assert_eq!(rt; all.count(), 10_000);
    assert_eq!(rt; all.horizon(), 10_000);
    assert_eq!(rt; all.low(), 10_001);
    assert_eq!(rt; all.floor(), None);
    Ok(())
}
