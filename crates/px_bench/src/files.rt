use crate::timing::tell;
use px_realsite::RealSite;
use px_site::{FileName, Site, SiteError};
use std::fs;
use std::time::CpuClock;

/// Where the site stands, in the folder that the program runs in. It is taken away again.
pub const FOLDER: &str = "px_bench-site";

const FILE: FileName = FileName::Xlog(1);

const PIECE: [u8; 250] = [0x61; 250];

const PIECE_SIZE: u64 = 250;

const _: () = prove!(PIECE_SIZE as usize == PIECE.len());

/// So many pieces written one behind the other.
pub fn writes(rt: &HostRuntime, count: u32) -> anyhow::Result<()> {
    clear(rt)?;
    let mut site = RealSite::new(rt.clone()?, FOLDER)?;
    let start = rt.process_cpu_time()?;
    let written = write_all(&mut site, count);
    tell(rt, "write_at", start)?;
    let Ok(len) = written else {
        anyhow::bail!("the folder refused a write");
    };
    println!(rt; "writes {count}: {len} bytes")?;
    clear(rt)
}

/// The same, each piece synced before the next.
pub fn syncs(rt: &HostRuntime, count: u32) -> anyhow::Result<()> {
    clear(rt)?;
    let mut site = RealSite::new(rt.clone()?, FOLDER)?;
    let start = rt.process_cpu_time()?;
    let written = sync_all(&mut site, count);
    tell(rt, "sync", start)?;
    let Ok(len) = written else {
        anyhow::bail!("the folder refused a write or a sync");
    };
    println!(rt; "syncs {count}: {len} bytes")?;
    clear(rt)
}

/// So many pieces written, and then read one by one.
pub fn reads(rt: &HostRuntime, count: u32) -> anyhow::Result<()> {
    clear(rt)?;
    let mut site = RealSite::new(rt.clone()?, FOLDER)?;
    let start = rt.process_cpu_time()?;
    let written = write_all(&mut site, count);
    tell(rt, "write_at", start)?;
    let start = rt.process_cpu_time()?;
    let read = read_all(&mut site, count);
    tell(rt, "read_at", start)?;
    let (Ok(_), Ok(bytes)) = (written, read) else {
        anyhow::bail!("the folder refused a write or a read");
    };
    println!(rt; "reads {count}: {bytes} bytes")?;
    clear(rt)
}

/// So many files made, with a byte in each, and then listed once.
pub fn lists(rt: &HostRuntime, count: u32) -> anyhow::Result<()> {
    clear(rt)?;
    let mut site = RealSite::new(rt.clone()?, FOLDER)?;
    let start = rt.process_cpu_time()?;
    let made = make_all(&mut site, count);
    tell(rt, "first_write", start)?;
    let start = rt.process_cpu_time()?;
    let listed = list_all(&mut site);
    tell(rt, "list", start)?;
    let (Ok(()), Ok(files)) = (made, listed) else {
        anyhow::bail!("the folder refused a write or a listing");
    };
    println!(rt; "lists {count}: {files} files")?;
    clear(rt)
}

/// Takes the folder away with all that is in it.
pub fn clear(rt: &HostRuntime) -> anyhow::Result<()> {
    if fs::exists(rt, FOLDER)? {
        fs::remove_dir_all(rt, FOLDER)?;
    }
    Ok(())
}

fn write_all<W: Site>(site: &mut W, count: u32) -> Result<u64, SiteError> {
    for number in 0..count {
        site.write_at(FILE, u64::from(number) * PIECE_SIZE, &PIECE)?;
    }
    site.len(FILE)
}

fn sync_all<W: Site>(site: &mut W, count: u32) -> Result<u64, SiteError> {
    for number in 0..count {
        site.write_at(FILE, u64::from(number) * PIECE_SIZE, &PIECE)?;
        site.sync(FILE)?;
    }
    site.len(FILE)
}

/// How many bytes the reads gave.
fn read_all<W: Site>(site: &mut W, count: u32) -> Result<u64, SiteError> {
    let mut bytes: u64 = 0;
    let mut piece = PIECE;
    for number in 0..count {
        let read = site.read_at(FILE, u64::from(number) * PIECE_SIZE, &mut piece)?;
        bytes = bytes.saturating_add(read as u64);
    }
    Ok(bytes)
}

fn make_all<W: Site>(site: &mut W, count: u32) -> Result<(), SiteError> {
    for number in 1..=count {
        site.write_at(FileName::Dlog(number), 0, b"a")?;
    }
    Ok(())
}

/// How many files there are, by a listing from the least name to the greatest.
fn list_all<W: Site>(site: &mut W) -> Result<u32, SiteError> {
    let mut last = None;
    for files in 0..u32::MAX {
        match site.list(last)? {
            None => return Ok(files),
            found => last = found,
        }
    }
    Ok(u32::MAX)
}
