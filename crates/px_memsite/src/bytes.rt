// Bytes put over others.
ghost use Rattle.std.specs.Prelude.{◌≡◌, ◌+◌, ◌^◌, ◌≤◌, length, take, IfOk};
ghost use Rattle.px_site.specs.Disk.{overlay};
ghost use Rattle.px_site.specs.State.{Reads};

use std::alloc::{AllocError, Global};

/// As many bytes from the front as there are, and no more than `len`.
pub fn front(bytes: &[u8], len: u64) -> &[u8]
    ensures { result.now ≡ take len bytes.now }
{
    if len >= bytes.len() as u64 {
        return bytes;
    }
    &bytes[..len as usize]
}

/// `old` with `bytes` over it from a place on. A gap before them is filled with zeros.
pub fn overlaid(
    alloc: Global,
    old: &[u8],
    place: usize,
    bytes: &[u8],
) -> Result<Vec<u8>, AllocError>
    requires { place + length bytes.now ≤ 2 ^ 48 }
    ensures { IfOk result (λ new. new.items ≡ overlay old.now place bytes.now) }
{
    let mut new = Vec::new(alloc);
    if place <= old.len() {
        new.extend_from_slice(&old[..place])?;
    } else {
        new.extend_from_slice(old)?;
        new.resize(place, 0)?;
    }
    new.extend_from_slice(bytes)?;
    if place + bytes.len() < old.len() {
        new.extend_from_slice(&old[place + bytes.len()..])?;
    }
    Ok(new)
}

/// Copies what stands from a place on, as much as there is and fits, and answers how many bytes.
pub fn copied(content: &[u8], place: u64, buf: &mut [u8]) -> usize
    requires { length content.now ≤ 2 ^ 48 }
    ensures bound { result ≤ length buf.new }
    ensures reads { Reads content.now place buf.new result }
{
    if place >= content.len() as u64 {
        return 0;
    }
    let rest = &content[place as usize..];
    let n = rest.len().min(buf.len());
    buf[..n].copy_from_slice(&rest[..n]);
    n
}
