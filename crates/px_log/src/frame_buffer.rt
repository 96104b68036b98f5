ghost use Rattle.std.specs.Prelude.{◌≡◌, ◌≤◌, [], true, drop, length, OnOk, OnErr};
ghost use Rattle.px_change.specs.Grammar.{is_change};
ghost use Rattle.px_change.specs.Text.{change_text};
ghost use Rattle.px_frame.specs.Frame.{frame};

use px_bytes::LONGEST_PAYLOAD;
use px_change::{END_SIZE, Payload};
use px_frame::{HEADER_SIZE, frame_header};
use std::alloc::{AllocError, Global};
use std::marker::Model;

/// The bytes of the frame of an end.
const END_FRAME_SIZE: usize = HEADER_SIZE + END_SIZE;

/// The bytes of one frame. Their memory is used again for the next frame. The frame of an end, which has no cells, takes
/// none, so that a commit or a rollback is never refused for want of it.
#[derive(Debug, Drop)]
pub struct FrameBuffer {
    bytes: Vec<u8>,
    end: [u8; END_FRAME_SIZE],
    is_end: bool,
}

impl Model for FrameBuffer {
    ghost use Rattle.std.specs.Prelude.{List, ℕ, cond};

    ghost Value = { List ℕ };

    ghost view = { λ buffer. cond buffer.is_end buffer.end buffer.bytes.items };
}

impl FrameBuffer {
    pub fn new(alloc: Global) -> FrameBuffer
        ensures { result ≡ [] }
    {
        FrameBuffer {
            bytes: Vec::new(alloc),
            end: [0; END_FRAME_SIZE],
            is_end: false,
        }
    }

    /// Takes the frame of a payload with this number, in place of what was there, in a store with that short length.
    pub fn fill<P: Payload>(
        &mut self,
        number: u64,
        payload: &P,
        short: u32,
    ) -> Result<(), AllocError>
        requires { is_change short (P.change payload.now) ≡ true }
        ensures frame { OnOk result (self.new ≡ frame number (change_text (P.change payload.now))) }
        ensures room { (P.change payload.now).cells ≡ [] → OnErr result ⊥ }
    {
        if let Some(end) = payload.end() {
            self.fill_end(end_frame(number, &end));
            return Ok(());
        }
        self.fill_cells(number, payload, short)
    }

    fn fill_end(&mut self, frame: [u8; END_FRAME_SIZE])
        ensures { self.new ≡ frame }
    {
        self.end = frame;
        self.is_end = true;
    }

    // The payload is written behind the room of its header, which needs its sum: so its bytes are copied once.
    fn fill_cells<P: Payload>(
        &mut self,
        number: u64,
        payload: &P,
        short: u32,
    ) -> Result<(), AllocError>
        requires { is_change short (P.change payload.now) ≡ true }
        ensures { OnOk result (self.new ≡ frame number (change_text (P.change payload.now))) }
    {
        self.is_end = false;
        self.bytes.clear();
        self.bytes.extend_from_slice(&[0; HEADER_SIZE])?;
        payload.encode(short, &mut self.bytes)?;
        write_header(&mut self.bytes, number);
        Ok(())
    }

    pub fn as_slice(&self) -> &[u8]
        ensures { result.now ≡ self.now }
    {
        if self.is_end {
            &self.end
        } else {
            self.bytes.as_slice()
        }
    }
}

// Writes the header of the payload into the room in front of it.
fn write_header(bytes: &mut [u8], number: u64)
    requires room { HEADER_SIZE ≤ length bytes.old }
    requires longest { length (drop HEADER_SIZE bytes.old) ≤ LONGEST_PAYLOAD }
    ensures { bytes.new ≡ frame number (drop HEADER_SIZE bytes.old) }
{
    let header = frame_header(number, &bytes[HEADER_SIZE..]);
    bytes[..HEADER_SIZE].copy_from_slice(&header);
}

// The frame of a change without cells, as px_frame's `write_frame` writes it.
fn end_frame(number: u64, payload: &[u8; END_SIZE]) -> [u8; END_FRAME_SIZE]
    ensures { result ≡ frame number payload.now }
{
    let header = frame_header(number, payload);
    let mut frame = [0; END_FRAME_SIZE];
    frame[..HEADER_SIZE].copy_from_slice(&header);
    frame[HEADER_SIZE..].copy_from_slice(payload);
    frame
}
