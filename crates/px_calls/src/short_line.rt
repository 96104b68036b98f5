// Lines that a run tells without memory.
ghost use Rattle.std.specs.Prelude.{◌≡◌, ◌+◌, ◌≤◌, ◌∷◌, ◌++◌, [], length};
ghost use Rattle.std.specs.Fmt.{decimal};
ghost use Rattle.px_site.specs.declared.name.FileName.{FileName};
ghost use Rattle.px_site.specs.Names.{file_text};
ghost use Rattle.px_calls.specs.declared.short_line.TheConstants.{LONGEST_SHORT_LINE, LONGEST_NUMBER, LONGEST_FILE_NAME};

use arrayvec::ArrayString;
use itoa::Buffer;
use px_site::FileName;
use std::marker::Model;

/// The most bytes of a line that holds no row: three numbers and their words.
pub const LONGEST_SHORT_LINE: usize = 96;

/// The digits of the greatest number.
const LONGEST_NUMBER: usize = 20;

/// The longest word in front of a file's number, and the number's digits.
const LONGEST_FILE_NAME: usize = 28;

/// A line of text that takes no memory. Contracts see its bytes.
#[derive(Drop)]
pub struct ShortLine {
    text: ArrayString<LONGEST_SHORT_LINE>,
}

impl Model for ShortLine {
    ghost use Rattle.std.specs.Prelude.{List, ℕ};

    ghost Value = { List ℕ };

    ghost view = { λ l. l.text.bytes };
}

impl ShortLine {
    /// No byte yet.
    pub fn empty() -> ShortLine
        ensures { result ≡ [] }
    {
        ShortLine {
            text: ArrayString::new(),
        }
    }

    pub fn as_slice(&self) -> &[u8]
        ensures text { result.now ≡ self.now }
        ensures short { length result.now ≤ LONGEST_SHORT_LINE }
    {
        self.text.as_str().as_bytes()
    }

    /// These words behind it.
    pub fn words(self, words: &str) -> ShortLine
        requires { length self + length words.now ≤ LONGEST_SHORT_LINE }
        ensures text { result ≡ self ++ words.now }
        ensures len { length result ≡ length self + length words.now }
    {
        let mut text = self.text;
        text.push_str(words);
        ShortLine { text }
    }

    /// The decimal digits of a number behind it.
    pub fn number(self, number: u64) -> ShortLine
        requires { length self + LONGEST_NUMBER ≤ LONGEST_SHORT_LINE }
        ensures text { result ≡ self ++ decimal number }
        ensures len { length result ≤ length self + LONGEST_NUMBER }
    {
        let mut digits = Buffer::new();
        self.words(digits.format(number))
    }

    /// A file's name behind it (docs/FORMATS.md, 'File names').
    pub fn file(self, file: FileName) -> ShortLine
        requires { length self + LONGEST_FILE_NAME ≤ LONGEST_SHORT_LINE }
        ensures text { result ≡ self ++ file_text file }
        ensures len { length result ≤ length self + LONGEST_FILE_NAME }
    {
        match file {
            FileName::Rec(table) => self.words("rec-").number(table as u64),
            FileName::Row(table) => self.words("row-").number(table as u64),
            FileName::Dlog(number) => self.words("dlog-").number(number as u64),
            FileName::Xlog(number) => self.words("xlog-").number(number as u64),
            FileName::Restart(number) => self.words("restart-").number(number as u64),
            FileName::Index => self.words("index"),
            FileName::Ilog => self.words("ilog"),
        }
    }
}
