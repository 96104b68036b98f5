// An input in memory, which can be told to fail.
ghost use Rattle.std.specs.Prelude.{◌≡◌, ◌+◌, ◌-◌, ◌^◌, ◌<◌, ◌≤◌, ◌↔◌, ◌++◌, [], ◌∷◌, length, min, take, drop, replicate, slice_index, Contains, IsTrue, IfOk};
ghost use Rattle.std.specs.List.{repeat};
ghost use Rattle.px_source.specs.Memory.{Gives};
ghost use Rattle.px_source.specs.Source.{Takes, ReadCounted};

use crate::{Source, SourceFault};
use px_model::Bytes;
use std::marker::Model;

/// A line, given a number of times over; it is stored once. Contracts see a `Memory`: the bytes that are left, and which
/// calls fail.
#[derive(Drop)]
pub struct MemSource {
    line: Bytes,
    // the lines that aren't given in full yet, and the place in the first of them
    times: u64,
    at: usize,
    piece: usize,
    fails: Option<Bytes>,
    calls: u64,
    faults: u64,
}

impl Model for MemSource {
    ghost use Rattle.std.specs.Prelude.{[], ◌<◌, length, unwrap_or, drop};
    ghost use Rattle.std.specs.List.{repeat};
    ghost use Rattle.px_source.specs.Memory.{Memory};

    ghost Value = { Memory };

    ghost view = { λ s. record { left = drop s.at (repeat s.times s.line); piece = s.piece; fails = unwrap_or s.fails []; calls = s.calls; faults = s.faults } };

    ghost invariant = { λ s. (0 < s.times → s.at < length s.line) × (0 < s.piece) };
}

impl MemSource {
    /// Gives these bytes, at most `piece` of them a call. The calls whose numbers stand in `fails` fail: the calls of
    /// `read` are counted from 0.
    pub fn new(bytes: Bytes, piece: usize, fails: Bytes) -> MemSource
        requires { 0 < piece }
        ensures { result ≡ record { left = bytes; piece = piece; fails = fails; calls = 0; faults = 0 } }
    {
        let times = times_of(bytes.as_slice(), 1);
        MemSource {
            line: bytes,
            times,
            at: 0,
            piece,
            fails: Some(fails),
            calls: 0,
            faults: 0,
        }
    }

    /// Gives the line `times` times over, as many bytes as a call has room for. No call fails.
    pub fn repeat(line: Bytes, times: u64) -> MemSource
        ensures { result ≡ record { left = repeat times line; piece = 2 ^ 64 - 1; fails = []; calls = 0; faults = 0 } }
    {
        let times = times_of(line.as_slice(), times);
        MemSource {
            line,
            times,
            at: 0,
            piece: usize::MAX,
            fails: None,
            calls: 0,
            faults: 0,
        }
    }

    // whether the next call of `read` is one that fails
    fn is_to_fail(&self) -> bool
        ensures { IsTrue result ↔ Contains self.now.fails self.now.calls }
    {
        match &self.fails {
            Some(fails) => has_number(fails.as_slice(), self.calls),
            None => false,
        }
    }
}

/// How often the line is to be given: an empty one not at all, which is the same.
fn times_of(line: &[u8], times: u64) -> u64
    ensures same { repeat result line.now ≡ repeat times line.now }
    ensures some { 0 < result → 0 < length line.now }
{
    if line.is_empty() { 0 } else { times }
}

fn has_number(numbers: &[u8], number: u64) -> bool
    ensures { IsTrue result ↔ Contains numbers.now number }
{
    numbers.iter().any(|of| u64::from(*of) == number)
}

impl Source for MemSource {
    ghost tells = { Unit {0} };

    ghost left = { λ s. s.left };

    ghost faults = { λ s. s.faults };

    fn read(&mut self, buf: &mut [u8]) -> Result<usize, SourceFault>
        ensures bound { IfOk result (λ n. n ≤ length buf.new) }
        ensures bytes { Takes self.old.left self.new.left buf.new result }
        ensures counted { ReadCounted self.old.faults self.new.faults result }
        ensures exact { Gives self.old self.new buf.new result }
    {
        let fails = self.is_to_fail();
        self.calls = self.calls.saturating_add(1);
        if fails {
            self.faults = self.faults.saturating_add(1);
            return Err(SourceFault);
        }
        let room = buf.len().min(self.piece);
        let line = self.line.as_slice();
        Ok(give(line, &mut self.times, &mut self.at, &mut buf[..room]))
    }
}

/// Fills the buffer from the lines that are left, and answers how many bytes it had for it.
fn give(line: &[u8], times: &mut u64, at: &mut usize, buf: &mut [u8]) -> usize
    requires within { 0 < times.old → at.old < length line.now }
    ensures still_within { 0 < times.new → at.new < length line.now }
    ensures count { result ≡ min (length buf.new) (length (drop at.old (repeat times.old line.now))) }
    ensures given { drop at.old (repeat times.old line.now) ≡ take result buf.new ++ drop at.new (repeat times.new line.now) }
{
    for (given, place) in buf.iter_mut().enumerate() {
        if *times == 0 {
            return given;
        }
        *place = line[*at];
        *at += 1;
        if *at == line.len() {
            *at = 0;
            *times -= 1;
        }
    }
    buf.len()
}
