// Calls of a site, for tables.
use px_memsite::MemSite;
use px_site::{FileName, Site, SiteError};
use std::process::Abort;

/// The longest piece of bytes in a table.
const LONGEST: usize = 16;

#[derive(Clone, Copy)]
pub enum Call<'a> {
    Len(FileName),
    Read(FileName, u64),
    Write(FileName, u32, &'a [u8]),
    Cut(FileName, u64),
    Sync(FileName),
    Remove(FileName),
    List,
    Tell(&'a [u8]),
}

/// Makes the call, and answers its number, where it has one.
pub fn made(rt: &impl Abort, site: &mut MemSite, call: Call) -> Result<u64, SiteError> {
    match call {
        Call::Len(file) => site.len(file),
        Call::Read(file, place) => {
            let mut buf = [0; 4];
            let n = site.read_at(file, place, &mut buf)?;
            Ok(n as u64)
        }
        Call::Write(file, place, bytes) => {
            assert!(rt; bytes.len() <= LONGEST);
            site.write_at(file, place as u64, bytes)?;
            Ok(0)
        }
        Call::Cut(file, len) => {
            site.cut(file, len)?;
            Ok(0)
        }
        Call::Sync(file) => {
            site.sync(file)?;
            Ok(0)
        }
        Call::Remove(file) => {
            site.remove(file)?;
            Ok(0)
        }
        Call::List => {
            site.list(None)?;
            Ok(0)
        }
        Call::Tell(bytes) => {
            site.tell(bytes)?;
            Ok(0)
        }
    }
}
