ghost use Rattle.std.specs.Prelude.{◌≡◌, ◌≢◌, ◌⊎◌, ◌+◌, ◌<◌, ◌≤◌, [], ◌∷◌, true, false, length, take, drop, slice_index, IfOk, OnErr, MatchOption, Some};
ghost use Rattle.px_source.specs.Source.{Rose, faults_after};
ghost use Rattle.px_script.specs.Feeds.{NoFeed};
ghost use Rattle.px_script.specs.Lines.{complete_lines};
ghost use Rattle.px_script.specs.Progress.{AddsPiece, HasCause, IsInOrder, IsOpen, IsReadable, Keeps, Moves, ReadsNoFurther, ahead, faults_by, longest_input, nothing_read};

use crate::parse::LONGEST_LINE;
use crate::window::Window;
use memchr::memchr;
use px_source::{Source, SourceFault};
use std::alloc::{AllocError, Global};
use std::marker::Model;

/// The longest input in bytes that is read: 2^30 (docs/FORMATS.md, 'Script lines').
pub const LONGEST_INPUT: u64 = 1_073_741_824;

/// How many bytes are read at once, at most.
const PIECE: usize = 65_536;

/// What `Lines::next` found.
#[derive(Clone, Copy, Debug, PartialEq, Eq)]
pub enum NextLine {
    /// A line of at most `LONGEST_LINE` bytes, which `Lines::line` lends.
    Line,
    /// The input is at its end, and all its lines were handed out.
    End,
    /// A read of the source failed. It may be tried again.
    Fault,
    /// `LONGEST_INPUT` bytes were read, no line is complete in what is left of them, and no read
    /// answered the end.
    TooLong,
    /// More than `LONGEST_LINE` bytes of the next line were read: it is outside the grammar.
    LongLine,
}

/// The lines of an input, one at a time. It holds at most one line and the rest of what one read
/// gave, and reads only while no complete line waits. Contracts see how far it has come.
#[derive(Drop)]
pub struct Lines {
    /// The line that was handed out last with its line feed, and then the bytes that are held.
    window: Window,
    /// The length of that line, without and with its line feed.
    line: usize,
    handed: usize,
    /// How many of the bytes that are held were searched for a line feed, and have none.
    searched: usize,
    count: u64,
    ended: bool,
}

impl Model for Lines {
    ghost use Rattle.std.specs.Prelude.{◌≡◌, ◌<◌, ◌≤◌, true, length, take, drop};
    ghost use Rattle.px_script.specs.Progress.{Progress, longest_input};
    ghost use Rattle.px_script.specs.Feeds.{NoFeed};

    ghost Value = { Progress };

    ghost view = { λ l. record { held = drop l.handed l.window; line = take l.line l.window; count = l.count; ended = l.ended } };

    ghost invariant = { λ l. (l.line ≤ l.handed) × (l.handed ≤ length l.window) × (l.searched ≤ length (drop l.handed l.window)) × NoFeed (take l.searched (drop l.handed l.window)) × (l.count ≤ longest_input) × (l.ended ≡ true → l.count < longest_input) };
}

impl Lines {
    pub fn new(alloc: Global) -> Lines
        ensures { result ≡ nothing_read }
    {
        Lines {
            window: Window::new(alloc),
            line: 0,
            handed: 0,
            searched: 0,
            count: 0,
            ended: false,
        }
    }

    /// Finds the next line, and reads the source only while no complete line waits, nor more bytes
    /// than a line may have: so at most one line and `PIECE` bytes are held. Each read may fail, and
    /// the first one that does is answered. The source is the one that was read before, so that it is
    /// at its end where a read answered the end. Neither a fault nor want of memory loses a byte: the
    /// call may be made again.
    pub fn next<S: Source>(&mut self, source: &mut S) -> Result<NextLine, AllocError>
        requires { S.tells → self.old.ended ≡ true → S.left source.old ≡ [] }
        ensures cause { IfOk result (HasCause self.new) }
        ensures moves { S.tells → IfOk result (Moves (ahead self.old (S.left source.old)) (ahead self.new (S.left source.new)) self.new) }
        ensures in_order { S.tells → IfOk result (IsInOrder (ahead self.old (S.left source.old)) (ahead self.new (S.left source.new)) self.new) }
        ensures short { S.tells → OnErr result (ahead self.new (S.left source.new) ≡ ahead self.old (S.left source.old)) }
        ensures counted { S.tells → self.new.count + length (S.left source.new) ≡ self.old.count + length (S.left source.old) }
        ensures within { self.new.count ≤ longest_input }
        ensures at_end { S.tells → self.new.ended ≡ true → S.left source.new ≡ [] }
        ensures waits { complete_lines self.old.held ≢ [] → source.new ≡ source.old }
        ensures no_further { (source.new ≡ source.old) ⊎ ReadsNoFurther self.new result }
        ensures over { self.old.ended ≡ true → source.new ≡ source.old }
        ensures over_stays { self.old.ended ≡ true → self.new.ended ≡ true }
        ensures over_below { self.new.ended ≡ true → self.new.count < longest_input }
        ensures fault { IfOk result (λ next. next ≡ NextLine.Fault → Rose (S.faults source.old) (S.faults source.new)) }
        ensures faults { S.faults source.new ≡ faults_by result (S.faults source.old) }
        ensures none_fell { S.faults source.old ≤ S.faults source.new }
    {
        match self.waiting() {
            Some(next) => Ok(next),
            None => self.read_on(source),
        }
    }

    /// The line that `next` found last, without its line feed. It is lent until the next call.
    pub fn line(&self) -> &[u8]
        ensures { result.now ≡ self.now.line }
    {
        &self.window.as_slice()[..self.line]
    }

    /// What can be answered without a read.
    fn waiting(&mut self) -> Option<NextLine>
        ensures found { MatchOption result (IsReadable self.old × (self.new ≡ self.old)) (λ next. HasCause self.new next × Moves self.old.held self.new.held self.new next) }
        ensures count { self.new.count ≡ self.old.count }
        ensures ended { self.new.ended ≡ self.old.ended }
        ensures no_fault { result ≢ Some NextLine.Fault }
        ensures within { self.old.count ≤ longest_input }
        ensures over_below { self.old.ended ≡ true → self.old.count < longest_input }
    {
        let held = &self.window.as_slice()[self.handed..];
        let size = held.len();
        match memchr(b'\n', &held[self.searched..]) {
            Some(place) => {
                let line = self.searched + place;
                Some(self.complete(line))
            }
            None => {
                self.searched = size;
                self.incomplete(size)
            }
        }
    }

    /// A line feed stands behind these many bytes.
    fn complete(&mut self, line: usize) -> NextLine
        requires there { line < length self.old.held }
        requires feed { slice_index self.old.held line ≡ 10 }
        requires first { NoFeed (take line self.old.held) }
        ensures found { HasCause self.new result × Moves self.old.held self.new.held self.new result }
        ensures count { self.new.count ≡ self.old.count }
        ensures ended { self.new.ended ≡ self.old.ended }
        ensures no_fault { result ≢ NextLine.Fault }
    {
        if line > LONGEST_LINE {
            return NextLine::LongLine;
        }
        self.hand_out(line, line + 1);
        NextLine::Line
    }

    /// No line feed stands in the bytes that are held, which are these many.
    fn incomplete(&mut self, size: usize) -> Option<NextLine>
        requires whole { size ≡ length self.old.held }
        requires none { NoFeed self.old.held }
        ensures found { MatchOption result (IsReadable self.old × (self.new ≡ self.old)) (λ next. HasCause self.new next × Moves self.old.held self.new.held self.new next) }
        ensures count { self.new.count ≡ self.old.count }
        ensures ended { self.new.ended ≡ self.old.ended }
        ensures no_fault { result ≢ Some NextLine.Fault }
    {
        if size > LONGEST_LINE {
            Some(NextLine::LongLine)
        } else if self.ended {
            Some(self.last(size))
        } else if self.count == LONGEST_INPUT {
            Some(NextLine::TooLong)
        } else {
            None
        }
    }

    /// The input is at its end: what is left of it is a line too, where it has a byte.
    fn last(&mut self, size: usize) -> NextLine
        requires whole { size ≡ length self.old.held }
        requires fits { IsOpen self.old.held }
        requires over { self.old.ended ≡ true }
        ensures found { HasCause self.new result × Moves self.old.held self.new.held self.new result }
        ensures count { self.new.count ≡ self.old.count }
        ensures ended { self.new.ended ≡ self.old.ended }
        ensures no_fault { result ≢ NextLine.Fault }
    {
        if size == 0 {
            return NextLine::End;
        }
        self.hand_out(size, size);
        NextLine::Line
    }

    /// Hands a line out, and with it the first `taken` of the bytes that are held.
    fn hand_out(&mut self, line: usize, taken: usize)
        requires front { line ≤ taken }
        requires there { taken ≤ length self.old.held }
        ensures { self.new ≡ record self.old { held = drop taken self.old.held; line = take line self.old.held } }
    {
        self.window.consume(self.handed);
        self.line = line;
        self.handed = taken;
        self.searched = 0;
    }

    /// Reads until something can be answered.
    fn read_on<S: Source>(&mut self, source: &mut S) -> Result<NextLine, AllocError>
        requires readable { IsReadable self.old }
        ensures cause { IfOk result (HasCause self.new) }
        ensures moves { S.tells → IfOk result (Moves (ahead self.old (S.left source.old)) (ahead self.new (S.left source.new)) self.new) }
        ensures short { S.tells → OnErr result (ahead self.new (S.left source.new) ≡ ahead self.old (S.left source.old)) }
        ensures counted { S.tells → self.new.count + length (S.left source.new) ≡ self.old.count + length (S.left source.old) }
        ensures within { self.new.count ≤ longest_input }
        ensures over_below { self.new.ended ≡ true → self.new.count < longest_input }
        ensures at_end { S.tells → self.new.ended ≡ true → S.left source.new ≡ [] }
        ensures fault { IfOk result (λ next. next ≡ NextLine.Fault → Rose (S.faults source.old) (S.faults source.new)) }
        ensures no_further { ReadsNoFurther self.new result }
        ensures faults { S.faults source.new ≡ faults_by result (S.faults source.old) }
        ensures none_fell { S.faults source.old ≤ S.faults source.new }
    {
        'reads: loop {
            if self.read_piece(source)?.is_err() {
                return Ok(NextLine::Fault);
            }
            if let Some(next) = self.waiting() {
                return Ok(next);
            }
        }
    }

    /// Reads once. The line that was handed out last is let go.
    fn read_piece<S: Source>(
        &mut self,
        source: &mut S,
    ) -> Result<Result<(), SourceFault>, AllocError>
        requires below { self.old.count < longest_input }
        requires going { self.old.ended ≡ false }
        ensures read { IfOk result (λ read. IfOk read (λ _. AddsPiece S.tells self.old self.new (S.left source.old) (S.left source.new))) }
        ensures fault { IfOk result (λ read. OnErr read (Rose (S.faults source.old) (S.faults source.new))) }
        ensures kept { IfOk result (λ read. OnErr read (Keeps self.old self.new)) }
        ensures untaken { S.tells → IfOk result (λ read. OnErr read (S.left source.new ≡ S.left source.old)) }
        ensures short { OnErr result (Keeps self.old self.new × (source.new ≡ source.old)) }
        ensures faults { IfOk result (λ read. S.faults source.new ≡ faults_after read (S.faults source.old)) }
        ensures none_fell { S.faults source.old ≤ S.faults source.new }
    {
        self.window.consume(self.handed);
        self.line = 0;
        self.handed = 0;
        let room = PIECE.min((LONGEST_INPUT - self.count) as usize);
        match self.window.read_from(source, room)? {
            Ok(added) => {
                self.count += added as u64;
                self.ended = added == 0;
                Ok(Ok(()))
            }
            Err(fault) => Ok(Err(fault)),
        }
    }
}
