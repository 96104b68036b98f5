use crate::calls::{Call, first_wrong, has};
use crate::folders::{clear, site_over};
use px_realsite::RealSite;
use px_site::{FileName, Site};
use std::fs;
use std::test::Fail;

const LOG: FileName = FileName::Xlog(1);

/// Whether these bytes stand in the log, or there is none and they are none.
fn is_found(rt: &HostRuntime, path: &str, bytes: &[u8]) -> Result<bool, Fail> {
    if !fs::exists(rt, path)? {
        return Ok(bytes.is_empty());
    }
    Ok(fs::read(rt, path)?.as_slice() == bytes)
}

#[test]
fn a_file_is_as_the_disk_model_says(rt: HostRuntime) -> Result<(), Fail> {
    let table: [(Call, &[u8]); 12] = [
        (Call::Cut(LOG, 3), b""),
        (Call::Remove(LOG), b""),
        (Call::Write(LOG, 4, b"end"), b"\0\0\0\0end"),
        (Call::Write(LOG, 0, b"head"), b"headend"),
        (Call::Write(LOG, 2, b"ART"), b"heARTnd"),
        (Call::Cut(LOG, 7), b"heARTnd"),
        (Call::Cut(LOG, 1 << 48), b"heARTnd"),
        (Call::Cut(LOG, 4), b"heAR"),
        (Call::Write(LOG, 6, b"x"), b"heAR\0\0x"),
        (Call::Write(LOG, 9, b""), b"heAR\0\0x\0\0"),
        (Call::Remove(LOG), b""),
        (
            Call::Write(LOG, 1, b"twenty bytes, so that a read of 16 falls short"),
            b"\0twenty bytes, so that a read of 16 falls short",
        ),
    ];
    let mut site = site_over(&rt, "model")?;
    for (call, bytes) in table {
        let calls = [call, Call::Read(LOG, bytes), Call::Sync(LOG)];
        assert_eq!(rt; first_wrong(&mut site, &calls), None);
        assert!(rt; is_found(&rt, "model/xlog-1", bytes)?);
    }
    clear(&rt, "model")
}

#[test]
fn a_folder_that_is_missing_reads_as_empty(rt: HostRuntime) -> Result<(), Fail> {
    let mut site = site_over(&rt, "missing")?;
    let calls = [
        Call::Read(LOG, b""),
        Call::ReadEnd(LOG, 0),
        Call::ReadEnd(LOG, u64::MAX),
        Call::List(None, None),
        Call::Cut(LOG, 0),
        Call::Remove(LOG),
        Call::Sync(LOG),
    ];
    assert_eq!(rt; first_wrong(&mut site, &calls), None);
    assert!(rt;
        !fs::exists(&rt, "missing")?,
        "only a write makes the folder"
    );
    let calls = [
        Call::Write(LOG, 0, b"a"),
        Call::Sync(LOG),
        Call::List(None, Some(LOG)),
    ];
    assert_eq!(rt; first_wrong(&mut site, &calls), None);
    clear(&rt, "missing")
}

/// More files than a site has open at once, each written in two turns.
const MANY: u32 = 150;

/// What stands in the file of this number: the number, and its complement.
fn content(number: u32) -> [u8; 8] {
    (u64::from(number) << u32::BITS | u64::from(!number)).to_be_bytes()
}

fn is_begun<S: Site>(site: &mut S, number: u32) -> bool {
    let file = FileName::Dlog(number);
    site.write_at(file, 0, &content(number)[..4]).is_ok()
}

fn is_ended<S: Site>(site: &mut S, number: u32) -> bool {
    let file = FileName::Dlog(number);
    site.write_at(file, 4, &content(number)[4..]).is_ok() && site.sync(file).is_ok()
}

fn is_whole<S: Site>(site: &mut S, number: u32) -> bool {
    has(site, FileName::Dlog(number), &content(number))
}

#[test]
fn more_files_are_used_than_are_open(rt: HostRuntime) -> Result<(), Fail> {
    let mut site = site_over(&rt, "many")?;
    for number in 1..=MANY {
        assert!(rt; is_begun(&mut site, number));
    }
    for number in 1..=MANY {
        assert!(rt; is_ended(&mut site, number));
    }
    for number in 1..=MANY {
        assert!(rt; is_whole(&mut site, number));
    }
    drop(site);
    let mut other = RealSite::new(rt.clone()?, "many")?;
    for number in 1..=MANY {
        assert!(rt; is_whole(&mut other, number));
    }
    clear(&rt, "many")
}

/// Compiles where a site may be handed to another thread.
fn handed_over<T: Send>(value: T) -> T {
    value
}

#[test]
fn a_site_can_go_to_another_thread(rt: HostRuntime) -> Result<(), Fail> {
    let mut site = handed_over(site_over(&rt, "thread")?);
    site.tell(b"told\n")?;
    clear(&rt, "thread")
}
