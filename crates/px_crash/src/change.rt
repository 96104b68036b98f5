// A call that changes something.

use anyhow::anyhow;
use px_memsite::MemSite;
use px_site::{FileName, LONGEST_FILE, Site};
use std::alloc::{AllocError, Global};

/// A call of a site that changes something. `lost` is how many bytes it takes away.
#[derive(Drop)]
pub(crate) enum Change {
    Write {
        file: FileName,
        place: u64,
        bytes: Vec<u8>,
    },
    Cut {
        file: FileName,
        len: u64,
        lost: u64,
    },
    Remove {
        file: FileName,
        lost: u64,
    },
    Sync(FileName),
    Tell(Vec<u8>),
}

impl Change {
    pub(crate) fn write(
        alloc: Global,
        file: FileName,
        place: u64,
        bytes: &[u8],
    ) -> Result<Change, AllocError> {
        let bytes = Vec::from_slice(alloc, bytes)?;
        Ok(Change::Write { file, place, bytes })
    }

    pub(crate) fn tell(alloc: Global, bytes: &[u8]) -> Result<Change, AllocError> {
        Ok(Change::Tell(Vec::from_slice(alloc, bytes)?))
    }

    /// The file of which it touches bytes, and how many at most.
    pub(crate) fn touched(&self) -> Option<(FileName, u64)> {
        match self {
            Change::Write {
                file,
                place: _,
                bytes,
            } => Some((*file, bytes.len() as u64)),
            Change::Cut { file, len: _, lost } => Some((*file, *lost)),
            Change::Remove { file, lost } => Some((*file, *lost)),
            Change::Sync(_) => None,
            Change::Tell(_) => None,
        }
    }

    /// What it tells, without the line feed.
    pub(crate) fn told(&self) -> Option<&str> {
        match self {
            Change::Tell(bytes) => match str::from_utf8(bytes.as_slice()) {
                Ok(text) => Some(text.trim_end()),
                Err(_) => None,
            },
            _ => None,
        }
    }

    /// Makes the call.
    pub(crate) fn make(&self, site: &mut MemSite) -> anyhow::Result<()> {
        let made = match self {
            Change::Write { file, place, bytes } => {
                if *place > LONGEST_FILE || bytes.len() as u64 > LONGEST_FILE - *place {
                    return Err(anyhow!("no file is so long"));
                }
                site.write_at(*file, *place, bytes.as_slice())
            }
            Change::Cut { file, len, lost: _ } => site.cut(*file, *len),
            Change::Remove { file, lost: _ } => site.remove(*file),
            Change::Sync(file) => site.sync(*file),
            Change::Tell(bytes) => site.tell(bytes.as_slice()),
        };
        made.map_err(|_| anyhow!("out of memory"))
    }

    /// What it does, in words.
    pub(crate) fn text(&self, alloc: Global) -> anyhow::Result<String> {
        match self {
            Change::Write {
                file,
                place: _,
                bytes,
            } => in_file(alloc, "write", bytes.len() as u64, *file),
            Change::Cut { file, len: _, lost } => in_file(alloc, "cut", *lost, *file),
            Change::Remove { file, lost } => in_file(alloc, "remove", *lost, *file),
            Change::Sync(file) => {
                let name = name_of(alloc, *file)?;
                Ok(format!(in alloc; "sync {name}")?)
            }
            Change::Tell(_) => {
                let told = self.told().unwrap_or("");
                Ok(format!(in alloc; "tell {told}")?)
            }
        }
    }
}

fn in_file(alloc: Global, verb: &str, bytes: u64, file: FileName) -> anyhow::Result<String> {
    let name = name_of(alloc, file)?;
    Ok(format!(in alloc; "{verb} {bytes} bytes of {name}")?)
}

fn name_of(alloc: Global, file: FileName) -> anyhow::Result<String> {
    let mut name = Vec::new(alloc);
    file.put_text(&mut name)?;
    Ok(String::from_str(alloc, str::from_utf8(name.as_slice())?)?)
}
