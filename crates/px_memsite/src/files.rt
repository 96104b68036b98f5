// Files in order of their names.
ghost use Rattle.std.specs.Prelude.{◌≡◌, ◌<◌, length, vec_len, IfOk, MatchResult};
ghost use Rattle.px_memsite.specs.Files.{view_in, names_of, IsInOrder, is_listed, next_in, StandsAt, FitsAt, HasRoom, SameFiles};
ghost use Rattle.std.specs.List.{HoldsAt};

use crate::file::MemFile;
use px_site::FileName;
use std::alloc::{AllocError, Global};

/// Where the file of this name stands, or else where it would.
fn place_of(files: &[MemFile], name: FileName) -> Result<usize, usize>
    ensures within { IfOk result (λ at. at < length files.now) }
    ensures place { MatchResult result (StandsAt files.now name) (FitsAt files.now name) }
{
    for (i, file) in files.iter().enumerate() {
        if file.name.is_same(name) {
            return Ok(i);
        }
        if name.is_before(file.name) {
            return Err(i);
        }
    }
    Err(files.len())
}

/// The bytes of a file as it reads, none where it isn't there.
pub fn content_of(files: &[MemFile], name: FileName) -> &[u8]
    requires { IsInOrder (names_of files.now) }
    ensures { result.now ≡ (view_in files.now name).content }
{
    match place_of(files, name) {
        Ok(at) => &files[at].content,
        Err(_) => &[],
    }
}

/// Where the file stands; an empty one is put in where it isn't there.
pub fn entry(alloc: Global, files: &mut Vec<MemFile>, name: FileName) -> Result<usize, AllocError>
    requires { IsInOrder (names_of files.old.items) }
    ensures within { IfOk result (λ at. at < vec_len files.new) }
    ensures stands { IfOk result (StandsAt files.new.items name) }
    ensures same { SameFiles files.old.items files.new.items }
{
    match place_of(files, name) {
        Ok(at) => Ok(at),
        Err(at) => {
            let file = MemFile {
                name,
                content: Vec::new(alloc),
                synced: Vec::new(alloc),
                pending: Vec::new(alloc),
            };
            files.insert(at, file)?;
            Ok(at)
        }
    }
}

/// The same with room for one more change of the file.
pub fn roomy_entry(
    alloc: Global,
    files: &mut Vec<MemFile>,
    name: FileName,
) -> Result<usize, AllocError>
    requires { IsInOrder (names_of files.old.items) }
    ensures within { IfOk result (λ at. at < vec_len files.new) }
    ensures stands { IfOk result (StandsAt files.new.items name) }
    ensures room { IfOk result (λ at. HoldsAt HasRoom files.new.items at) }
    ensures same { SameFiles files.old.items files.new.items }
{
    let at = entry(alloc, files, name)?;
    files[at].make_room()?;
    Ok(at)
}

/// The first name after this one whose file has a byte.
pub fn next_file(files: &[MemFile], after: Option<FileName>) -> Option<FileName>
    ensures { result ≡ next_in files.now after }
{
    for file in files {
        if is_listed(after, file.name) && !file.content.is_empty() {
            return Some(file.name);
        }
    }
    None
}

/// Whether a name stands after where the listing goes on.
fn is_listed(after: Option<FileName>, name: FileName) -> bool
    ensures { result ≡ is_listed after name }
{
    match after {
        Some(after) => after.is_before(name),
        None => true,
    }
}
