use crate::scripts::{NOT_ACKNOWLEDGED, run_with_fault, sync_of_the_commit};
use crate::stores::{call, crash_at, store, told_by, told_since, words_of};
use px_calls::Status;
use px_memsite::{Failure, Keep, MemSite, Pick};
use px_model::Bytes;
use px_run::pbxt_run;
use px_source::MemSource;
use std::test::Fail;

#[test]
fn a_commit_whose_sync_fails_is_not_acknowledged(rt: HostRuntime) -> Result<(), Fail> {
    let alloc = rt.alloc();
    let number = sync_of_the_commit(alloc)?;
    for (keep, want) in [
        (Keep::Synced, "opened commits 0 rows 0 redone 0\n"),
        (Keep::Written, "opened commits 1 rows 1 redone 2\n"),
    ] {
        let (site, _told, _code) = run_with_fault(alloc, number)?;
        let moment = site.moments();
        let mut left = crash_at(site, Pick { moment, keep })?;
        assert_eq!(rt; told_by(alloc, "run", "", &mut left)?.as_str(), want);
    }
    Ok(())
}

#[test]
fn each_failing_call_ends_the_run_by_its_kind(rt: HostRuntime) -> Result<(), Fail> {
    let alloc = rt.alloc();
    // seven calls make the store, and fewer than 40 more are made by the run
    for number in 7..40 {
        let (site, told, code) = run_with_fault(alloc, number)?;
        let told = told.as_str();
        let on_disk = told.ends_with("\n") && told.contains("disk fault: ");
        assert!(rt;
            code == 0 || code == 8 || (code == 6 && on_disk),
            "at {number}: {told:?}"
        );
        let pick = Pick {
            moment: site.moments(),
            keep: Keep::Written,
        };
        let mut left = crash_at(site, pick)?;
        let status = call(alloc, "run", "", &mut left)?;
        assert_eq!(rt; status.code(), 0, "at {number}");
    }
    let (_site, _told, first) = run_with_fault(alloc, 7)?;
    let (_site, _told, last) = run_with_fault(alloc, 40)?;
    assert_eq!(rt; (first, last), (6, 0));
    Ok(())
}

#[test]
fn an_output_that_fails_has_a_front_of_the_line(rt: HostRuntime) -> Result<(), Fail> {
    let alloc = rt.alloc();
    // the first call of `tell` is the last one of `make`
    let failures = [Failure { call: 6, bytes: 4 }];
    let mut site = MemSite::failing_partway(alloc, &failures)?;
    let status = call(alloc, "make 1 64", "", &mut site)?;
    assert_eq!(rt; status.code(), 8);
    assert_eq!(rt; site.told(), b"made".as_slice());
    let before = site.told().len();
    call(alloc, "run", "", &mut site)?;
    let told = told_since(alloc, before, &site)?;
    assert_eq!(rt; told.as_str(), "opened commits 0 rows 0 redone 0\n");
    Ok(())
}

#[test]
fn an_input_that_fails_ends_the_run(rt: HostRuntime) -> Result<(), Fail> {
    let alloc = rt.alloc();
    let mut site = store(alloc)?;
    let before = site.told().len();
    let words = words_of(alloc, "run")?;
    let input = Bytes::from_slice(alloc, NOT_ACKNOWLEDGED.lines.as_bytes())?;
    let mut source = MemSource::new(input, 7, Bytes::from_slice(alloc, &[0])?);
    let status = pbxt_run(alloc, &words, &mut source, &mut site);
    assert_eq!(rt; status.code(), Status::SourceFault.code());
    let told = told_since(alloc, before, &site)?;
    assert_eq!(rt;
        told.as_str(),
        "opened commits 0 rows 0 redone 0\nsource fault\n"
    );
    Ok(())
}
