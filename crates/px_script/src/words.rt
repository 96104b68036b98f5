ghost use Rattle.std.specs.Prelude.{◌≡◌, ◌↔◌, [], ◌∷◌, MatchOption, IsTrue};
ghost use Rattle.px_script.specs.Grammar.{ending, greatest_word};
ghost use Rattle.px_script.specs.Reads.{Reads, ReadsFirst};
ghost use Rattle.px_script.specs.Splits.{words_of};
ghost use Rattle.px_script.specs.Words.{number_of, bytes_of, body_of};

use crate::hexadecimal::{body_of, bytes_of};
use crate::no_line::NoLine;
use crate::number::number_of;
use memchr::memchr;
use px_model::Bytes;
use std::alloc::Global;
use std::marker::Model;

/// The words of a line that are left to be read. Contracts see them as a list.
#[derive(Drop)]
pub(crate) struct Words<'a> {
    /// What stands behind the last space that was read, None behind the last word.
    rest: Option<&'a [u8]>,
}

impl<'a> Model for Words<'a> {
    ghost use Rattle.std.specs.Prelude.{List, ℕ};
    ghost use Rattle.std.specs.Option.{option_copied};
    ghost use Rattle.px_script.specs.Splits.{words_left};

    ghost Value = { List (List ℕ) };

    ghost view = { λ w. words_left (option_copied w.rest) };
}

impl<'a> Words<'a> {
    pub fn of(line: &'a [u8]) -> Words<'a>
        ensures { result ≡ words_of line.now }
    {
        Words { rest: Some(line) }
    }

    pub fn next(&mut self) -> Option<&'a [u8]>
        ensures { MatchOption result ((self.old ≡ []) × (self.new ≡ [])) (λ word. self.old ≡ word.now ∷ self.new) }
    {
        let rest = self.rest?;
        match memchr(b' ', rest) {
            None => {
                self.rest = None;
                Some(rest)
            }
            Some(end) => {
                self.rest = Some(&rest[end + 1..]);
                Some(&rest[..end])
            }
        }
    }

    pub fn number(&mut self) -> Result<u32, NoLine>
        ensures { ReadsFirst (number_of greatest_word) self.old self.new result }
    {
        let word = self.next().ok_or(NoLine::Outside)?;
        number_of(u32::MAX, word).ok_or(NoLine::Outside)
    }

    pub fn key(&mut self, alloc: Global) -> Result<Bytes, NoLine>
        ensures { ReadsFirst bytes_of self.old self.new result }
    {
        let word = self.next().ok_or(NoLine::Outside)?;
        bytes_of(alloc, word)
    }

    pub fn body(&mut self, alloc: Global) -> Result<Bytes, NoLine>
        ensures { ReadsFirst body_of self.old self.new result }
    {
        let word = self.next().ok_or(NoLine::Outside)?;
        body_of(alloc, word)
    }

    pub fn is_empty(&self) -> bool
        ensures { IsTrue result ↔ (self.now ≡ []) }
    {
        self.rest.is_none()
    }

    /// That no word is left.
    pub fn end(&self) -> Result<(), NoLine>
        ensures { Reads (ending tt self.now) result }
    {
        if self.is_empty() {
            Ok(())
        } else {
            Err(NoLine::Outside)
        }
    }
}
