use crate::stores::{failing_store, store, told_since, words_of};
use px_memsite::MemSite;
use px_model::Bytes;
use px_run::pbxt_run;
use px_source::{MemSource, Source};
use std::alloc::Global;
use std::test::Fail;

/// So many lines `a begin`.
const LINES: u64 = 20_000;

/// How many bytes the source has left, a million at most.
fn count_left(source: &mut MemSource) -> Result<usize, Fail> {
    let mut room = [0u8; 1000];
    let mut left: usize = 0;
    for _read in 0..10_000 {
        match source.read(&mut room) {
            Ok(0) => return Ok(left),
            Ok(count) => left = left.saturating_add(count),
            Err(_) => return Err(Fail::new("a read failed")),
        }
    }
    Err(Fail::new("more bytes than are told"))
}

/// Runs over those lines, and answers the exit status and how many bytes the input has left then.
fn run_many(alloc: Global, site: &mut MemSite) -> Result<(u8, usize), Fail> {
    let words = words_of(alloc, "run")?;
    let line = Bytes::from_slice(alloc, b"a begin\n")?;
    let mut source = MemSource::repeat(line, LINES);
    let status = pbxt_run(alloc, &words, &mut source, site);
    let left = count_left(&mut source)?;
    Ok((status.code(), left))
}

#[test]
fn a_line_is_answered_before_the_next_piece_is_taken(rt: HostRuntime) -> Result<(), Fail> {
    let alloc = rt.alloc();
    // the call that tells the first reply is among these
    for number in 7..40 {
        let mut site = failing_store(alloc, &[number])?;
        let before = site.told().len();
        let (code, left) = run_many(alloc, &mut site)?;
        let told = told_since(alloc, before, &site)?;
        if code == 8 && told.as_str() == "opened commits 0 rows 0 redone 0\n" {
            assert_eq!(rt; left, 160_000 - 65_536);
            return Ok(());
        }
    }
    Err(Fail::new("the first reply was told"))
}

#[test]
fn an_overlong_line_is_read_no_further(rt: HostRuntime) -> Result<(), Fail> {
    let alloc = rt.alloc();
    let mut site = store(alloc)?;
    let words = words_of(alloc, "run")?;
    let mut source = MemSource::repeat(Bytes::from_slice(alloc, b"0")?, 17_000_000);
    let status = pbxt_run(alloc, &words, &mut source, &mut site);
    assert_eq!(rt; status.code(), 2);
    assert_eq!(rt; count_left(&mut source)?, 17_000_000 - 16_777_216 - 65_536);
    Ok(())
}
