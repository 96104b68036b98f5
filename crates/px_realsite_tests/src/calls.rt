//! Calls of a site as rows of a table.
use px_site::{FileName, Site};

/// A call of a site, with what it is to answer where that is a value.
#[derive(Clone, Copy)]
pub enum Call {
    /// These bytes are written at this place.
    Write(FileName, u64, &'static [u8]),
    Cut(FileName, u64),
    Remove(FileName),
    Sync(FileName),
    /// The file reads as these bytes, and has their length.
    Read(FileName, &'static [u8]),
    /// A read at this place finds the end of the file.
    ReadEnd(FileName, u64),
    /// After this name that one is listed.
    List(Option<FileName>, Option<FileName>),
}

/// Where in the list the first call stands that isn't answered right.
pub fn first_wrong<S: Site>(site: &mut S, calls: &[Call]) -> Option<usize> {
    for at in 0..calls.len() {
        if !is_right(site, calls[at]) {
            return Some(at);
        }
    }
    None
}

/// Whether the call is answered, and with the value that it has.
pub fn is_right<S: Site>(site: &mut S, call: Call) -> bool {
    match call {
        Call::Write(file, place, bytes) => is_written(site, file, place, bytes),
        Call::Cut(file, len) => site.cut(file, len).is_ok(),
        Call::Remove(file) => site.remove(file).is_ok(),
        Call::Sync(file) => site.sync(file).is_ok(),
        Call::Read(file, bytes) => has(site, file, bytes),
        Call::ReadEnd(file, place) => reads(site, file, place, b""),
        Call::List(after, next) => site.list(after) == Ok(next),
    }
}

/// The farthest place and the greatest number of bytes that a table writes.
const FAR: usize = 100;

fn is_written<S: Site>(site: &mut S, file: FileName, place: u64, bytes: &[u8]) -> bool {
    place <= FAR as u64 && bytes.len() <= FAR && site.write_at(file, place, bytes).is_ok()
}

/// Whether the file reads as these bytes, from each of its places on, and has their length.
pub fn has<S: Site>(site: &mut S, file: FileName, bytes: &[u8]) -> bool {
    for place in 0..bytes.len() {
        if !reads(site, file, place as u64, &bytes[place..]) {
            return false;
        }
    }
    site.len(file) == Ok(bytes.len() as u64)
}

/// Whether a read of 16 bytes at this place gives the first of these.
fn reads<S: Site>(site: &mut S, file: FileName, place: u64, rest: &[u8]) -> bool {
    let mut buf = [7u8; 16];
    let wanted = buf.len().min(rest.len());
    site.read_at(file, place, &mut buf) == Ok(wanted) && buf[..wanted] == rest[..wanted]
}
