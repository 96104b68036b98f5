//! Where the files of a folder stand.
ghost use Rattle.std.specs.Prelude.{◌≡◌, ◌++◌, codes, IfOk, string_bytes};
ghost use Rattle.px_site.specs.Names.{file_text};

use px_site::FileName;
use std::alloc::Global;
use std::io::{self, ErrorKind};

/// The path of a file in the folder of this path.
pub(crate) fn path_of(alloc: Global, folder: &str, name: FileName) -> io::Result<String>
    ensures text { IfOk result (λ path. string_bytes path ≡ folder.now ++ codes "/" ++ file_text name) }
{
    let mut path = Vec::from_slice(alloc, folder.as_bytes())?;
    path.push(b'/')?;
    name.put_text(&mut path)?;
    match String::from_utf8(path) {
        Ok(path) => Ok(path),
        Err(_) => Err(ErrorKind::InvalidFilename.into()),
    }
}
