// What lies in the files of a site.

use px_memsite::MemSite;
use px_site::{FileName, LONGEST_FILE, Site};
use std::alloc::{AllocError, Global};

/// How many files a store has at most that is looked at here.
const MOST_FILES: u32 = 64;

/// A file that has a byte.
#[derive(Drop)]
pub(crate) struct Lying {
    name: FileName,
    content: Vec<u8>,
}

/// The files that have a byte, in order of their names.
pub(crate) fn files(alloc: Global, site: &mut MemSite) -> Result<Vec<Lying>, AllocError> {
    let mut files = Vec::new(alloc);
    let mut last = None;
    for _ in 0..MOST_FILES {
        let Ok(next) = site.list(last) else {
            return Err(AllocError);
        };
        let Some(name) = next else {
            return Ok(files);
        };
        let content = Vec::from_slice(alloc, site.content(name))?;
        files.push(Lying { name, content })?;
        last = next;
    }
    Ok(files)
}

/// The names, lengths and contents of the files, one behind the other: two sites with equal files have the same.
pub(crate) fn image(alloc: Global, site: &mut MemSite) -> Result<Vec<u8>, AllocError> {
    let mut image = Vec::new(alloc);
    for file in files(alloc, site)? {
        file.name.put_text(&mut image)?;
        image.extend_from_slice(&(file.content.len() as u64).to_be_bytes())?;
        image.extend_from_slice(file.content.as_slice())?;
    }
    Ok(image)
}

/// A new site with these files, all of them synced, and no moment before this one.
pub(crate) fn at_rest(alloc: Global, files: &[Lying]) -> Result<MemSite, AllocError> {
    let mut site = MemSite::new(alloc)?;
    for file in files {
        if file.content.len() as u64 <= LONGEST_FILE {
            site.put_file(file.name, file.content.as_slice())?;
        }
    }
    Ok(site)
}
