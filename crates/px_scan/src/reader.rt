ghost use Rattle.std.specs.Prelude.{◌≡◌, ◌++◌, length, map, drop, IfOk};
ghost use Rattle.px_scan.specs.Scan.{frames_of, frames};

use px_frame::read_frame;
use std::alloc::{AllocError, Global};

/// What a scan found.
#[derive(Drop)]
pub struct Scanned<'a> {
    /// The payloads of the frames, in order.
    pub payloads: Vec<&'a [u8]>,
    /// How many bytes the frames take: the place where the next one would begin.
    pub stop: usize,
}

/// The frames that stand one after the other from the front of the bytes on, with the numbers from `number`
/// on, up to the first place where no frame checks. The payloads are lent, not copied.
pub fn scan(alloc: Global, bytes: &[u8], number: u64) -> Result<Scanned<'_>, AllocError>
    ensures payloads { IfOk result (λ s. map (λ p. p.now) s.payloads.items ≡ frames_of bytes.now number) }
    ensures front { IfOk result (λ s. bytes.now ≡ frames number (frames_of bytes.now number) ++ drop s.stop bytes.now) }
    ensures stop { IfOk result (λ s. s.stop ≡ length (frames number (frames_of bytes.now number))) }
{
    let mut payloads = Vec::new(alloc);
    let mut stop = 0;
    let mut next = number;
    while let Some((payload, size)) = read_frame(&bytes[stop..], next) {
        payloads.push(payload)?;
        stop += size;
        next += 1;
    }
    Ok(Scanned { payloads, stop })
}
