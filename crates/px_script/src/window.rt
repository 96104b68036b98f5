ghost use Rattle.std.specs.Prelude.{◌≡◌, ◌+◌, ◌-◌, ◌<◌, ◌≤◌, [], drop, take, length, slice_range, vec_len, IfOk, OnOk, OnErr};
ghost use Rattle.px_source.specs.Source.{Rose, faults_after};
ghost use Rattle.px_script.specs.Piece.{Appends};

use px_source::{Source, SourceFault};
use std::alloc::{AllocError, Global};
use std::marker::Model;

/// Bytes that were read and aren't done with. Contracts see them as a list.
#[derive(Drop)]
pub(crate) struct Window {
    /// The bytes from `start` to `end`, and room behind them.
    bytes: Vec<u8>,
    start: usize,
    end: usize,
}

impl Model for Window {
    ghost use Rattle.std.specs.Prelude.{List, ℕ, ◌≤◌, length, slice_range};

    ghost Value = { List ℕ };

    ghost view = { λ w. slice_range w.bytes.items w.start w.end };

    ghost invariant = { λ w. (w.start ≤ w.end) × (w.end ≤ length w.bytes.items) };
}

impl Window {
    pub fn new(alloc: Global) -> Window
        ensures { result ≡ [] }
    {
        Window {
            bytes: Vec::new(alloc),
            start: 0,
            end: 0,
        }
    }

    pub fn as_slice(&self) -> &[u8]
        ensures { result.now ≡ self.now }
    {
        &self.bytes[self.start..self.end]
    }

    /// Is done with the first `count` bytes.
    pub fn consume(&mut self, count: usize)
        requires { count ≤ length self.old }
        ensures { self.new ≡ drop count self.old }
    {
        self.start += count;
    }

    /// Appends what one read of the source gives, `room` bytes at most.
    pub fn read_from<S: Source>(
        &mut self,
        source: &mut S,
        room: usize,
    ) -> Result<Result<usize, SourceFault>, AllocError>
        requires some { 0 < room }
        requires small { room ≤ 65536 }
        ensures read { IfOk result (λ read. IfOk read (Appends S.tells self.old self.new (S.left source.old) (S.left source.new) room)) }
        ensures fault { IfOk result (λ read. OnErr read (Rose (S.faults source.old) (S.faults source.new))) }
        ensures kept { IfOk result (λ read. OnErr read (self.new ≡ self.old)) }
        ensures untaken { S.tells → IfOk result (λ read. OnErr read (S.left source.new ≡ S.left source.old)) }
        ensures short { OnErr result ((self.new ≡ self.old) × (source.new ≡ source.old)) }
        ensures faults { IfOk result (λ read. S.faults source.new ≡ faults_after read (S.faults source.old)) }
        ensures none_fell { S.faults source.old ≤ S.faults source.new }
    {
        let held = self.end - self.start;
        make_room(&mut self.bytes, self.start, self.end, room)?;
        self.start = 0;
        self.end = held;
        let read = source.read(&mut self.bytes[held..held + room]);
        if let Ok(count) = read {
            self.end = held + count;
        }
        Ok(read)
    }
}

/// Moves the bytes from `start` to `end` to the front, with `room` bytes behind them.
fn make_room(bytes: &mut Vec<u8>, start: usize, end: usize, room: usize) -> Result<(), AllocError>
    requires ordered { start ≤ end }
    requires within { end ≤ length bytes.old.items }
    requires small { room ≤ 65536 }
    ensures held { OnOk result (take (end - start) bytes.new.items ≡ slice_range bytes.old.items start end) }
    ensures room { OnOk result (end - start + room ≤ length bytes.new.items) }
    ensures short { OnErr result (bytes.new.items ≡ bytes.old.items) }
{
    let wanted = end - start + room;
    if bytes.len() < wanted {
        bytes.resize(wanted, 0)?;
    }
    if start > 0 {
        bytes.as_mut_slice().copy_within(start..end, 0);
    }
    Ok(())
}
