ghost use Rattle.std.specs.Prelude.{◌≡◌, ◌+◌, ◌≤◌, ◌++◌, ℕ, List, length, take, OnOk, OnErr, IfSome, IfNone};
ghost use Rattle.px_bytes.specs.declared.limits.TheConstants.{LONGEST_PAYLOAD};
ghost use Rattle.px_frame.specs.Frame.{CanFrame, FrameAt, frame};

use crate::header::Header;
use px_bytes::{fnv, fnv_on};
use std::alloc::AllocError;

/// The bytes in front of a payload: length, sum and number.
pub const HEADER_SIZE: usize = 16;

/// Appends the frame of the payload with that number. Without memory for it `out` stays as it was.
pub fn write_frame(out: &mut Vec<u8>, number: u64, payload: &[u8]) -> Result<(), AllocError>
    requires { CanFrame number payload.now }
    ensures ok { OnOk result (out.new.items ≡ out.old.items ++ frame number payload.now) }
    ensures err { OnErr result (out.new.items ≡ out.old.items) }
{
    let before = out.len();
    let appended = append_frame(out, number, payload);
    if appended.is_err() {
        out.truncate(before);
    }
    appended
}

/// The same, but without memory a part of the frame may stay.
fn append_frame(out: &mut Vec<u8>, number: u64, payload: &[u8]) -> Result<(), AllocError>
    requires { length payload.now ≤ LONGEST_PAYLOAD }
    ensures ok { OnOk result (out.new.items ≡ out.old.items ++ frame number payload.now) }
    ensures err { OnErr result (take (length out.old.items) out.new.items ≡ out.old.items) }
{
    out.extend_from_slice(&frame_header(number, payload))?;
    out.extend_from_slice(payload)
}

/// What stands in front of the payload in its frame with that number. It takes no memory.
#[tactic(auto, unfolding(crate::specs::Frame::frame))]
pub fn frame_header(number: u64, payload: &[u8]) -> [u8; HEADER_SIZE]
    requires { length payload.now ≤ LONGEST_PAYLOAD }
    ensures { result ++ payload.now ≡ frame number payload.now }
{
    let l = (payload.len() as u32).to_be_bytes();
    let n = number.to_be_bytes();
    let s = fnv_on(fnv(&n), payload).to_be_bytes();
    [
        l[0], l[1], l[2], l[3], s[0], s[1], s[2], s[3], n[0], n[1], n[2], n[3], n[4], n[5], n[6],
        n[7],
    ]
}

/// The payload of the frame that checks at the front of the bytes for that number, and the size of the
/// whole frame in bytes. More may follow it. None where no frame checks there: the bytes end too soon,
/// the length is out of its range, or the number or the sum is another.
pub fn read_frame(bytes: &[u8], number: u64) -> Option<(&[u8], usize)>
    ensures found { IfSome result (λ read. FrameAt bytes.now number read.0.now) }
    ensures size { IfSome result (λ read. read.1 ≡ HEADER_SIZE + length read.0.now) }
    ensures within { IfSome result (λ read. read.1 ≤ length bytes.now) }
    ensures none { IfNone result ((payload : List ℕ) → ¬ FrameAt bytes.now number payload) }
{
    let header = Header::read(bytes)?;
    if !header.checks(bytes, number) {
        return None;
    }
    let size = HEADER_SIZE + header.length as usize;
    Some((&bytes[HEADER_SIZE..size], size))
}
