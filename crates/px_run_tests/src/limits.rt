use crate::stores::{store, told_by, told_since, words_of};
use px_model::Bytes;
use px_run::pbxt_run;
use px_source::MemSource;
use std::alloc::Global;
use std::test::Fail;

#[test]
fn a_script_that_is_too_long_is_answered_as_far_as_it_was_read(
    rt: HostRuntime,
) -> Result<(), Fail> {
    let alloc = rt.alloc();
    let mut site = store(alloc)?;
    let mut line = Vec::from_slice(alloc, b"a insert 1 01 10 ")?;
    line.resize(16_777_215, b'0')?;
    line.push(b'\n')?;
    let mut source = MemSource::repeat(Bytes::from_vec(line), 100);
    let before = site.told().len();
    let words = words_of(alloc, "run")?;
    let status = pbxt_run(alloc, &words, &mut source, &mut site);
    assert_eq!(rt; status.code(), 11);
    let mut want = String::new(alloc);
    want.push_str("opened commits 0 rows 0 redone 0\n")?;
    for _line in 0..64 {
        want.push_str("no transaction\n")?;
    }
    want.push_str("too long\n")?;
    assert_eq!(rt; told_since(alloc, before, &site)?.as_str(), want.as_str());
    Ok(())
}

/// The most writes of a transaction.
const MOST_WRITES: usize = 10_000;

/// The line over and over.
fn repeated(alloc: Global, line: &str, times: usize) -> Result<String, Fail> {
    let mut text = String::new(alloc);
    for _ in 0..times {
        text.push_str(line)?;
    }
    Ok(text)
}

/// A transaction that writes so many rows with different keys, and is committed.
fn inserts(alloc: Global, count: usize) -> Result<String, Fail> {
    let mut script = String::new(alloc);
    script.push_str("a begin\n")?;
    for key in 0..count {
        script.push_str(&format!(in alloc; "a insert 1 {key:04x} 7 aa\n")?)?;
    }
    script.push_str("a commit\n")?;
    Ok(script)
}

/// What `dump` tells of those rows.
fn dump_of(alloc: Global, count: usize) -> Result<String, Fail> {
    let mut told = format!(in alloc; "rows {count}\n")?;
    for key in 0..count {
        told.push_str(&format!(in alloc; "row 1 {key:04x} 7 aa\n")?)?;
    }
    Ok(told)
}

#[test]
fn a_transaction_has_ten_thousand_writes(rt: HostRuntime) -> Result<(), Fail> {
    let alloc = rt.alloc();
    let mut site = store(alloc)?;
    // one more than there may be
    let script = inserts(alloc, MOST_WRITES + 1)?;
    let inserted = repeated(alloc, "inserted\n", MOST_WRITES)?;
    let want = format!(in alloc;
        "opened commits 0 rows 0 redone 0\nbegan 1\n{inserted}limit writes\ncommitted 1\n"
    )?;
    let told = told_by(alloc, "run", &script, &mut site)?;
    assert_eq!(rt; told.as_str(), want.as_str());
    let told = told_by(alloc, "run", "", &mut site)?;
    assert_eq!(rt; told.as_str(), "opened commits 1 rows 10000 redone 10001\n");
    let told = told_by(alloc, "dump", "", &mut site)?;
    assert!(rt; told.as_str() == dump_of(alloc, MOST_WRITES)?.as_str());
    Ok(())
}

/// How many transactions of four lines are ten thousand lines.
const TRANSACTIONS: usize = 2_500;

#[test]
fn ten_thousand_lines_are_answered(rt: HostRuntime) -> Result<(), Fail> {
    let alloc = rt.alloc();
    let mut site = store(alloc)?;
    let mut script = String::new(alloc);
    let mut want = String::from_str(alloc, "opened commits 0 rows 0 redone 0\n")?;
    for number in 1..=TRANSACTIONS {
        script.push_str(&format!(in alloc;
            "a begin\na insert 1 {number:04x} 7 aa\na get 1 {number:04x}\na commit\n"
        )?)?;
        want.push_str(&format!(in alloc;
            "began {number}\ninserted\nrow 7 aa\ncommitted {number}\n"
        )?)?;
    }
    let told = told_by(alloc, "run", &script, &mut site)?;
    assert!(rt; told.as_str() == want.as_str());
    let told = told_by(alloc, "run", "", &mut site)?;
    assert_eq!(rt;
        told.as_str(),
        "opened commits 2500 rows 2500 redone 5000\n"
    );
    Ok(())
}
