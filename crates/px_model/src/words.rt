ghost use Rattle.std.specs.Prelude.{◌≡◌, IfOk};

use crate::Bytes;
use std::alloc::AllocError;
use std::marker::Model;

/// The words of a command line, without the program's name. Contracts see a list of lists of bytes.
#[derive(Debug, Drop)]
pub struct WordList {
    words: Vec<Bytes>,
}

impl Model for WordList {
    ghost use Rattle.std.specs.Prelude.{List, ℕ};

    ghost Value = { List (List ℕ) };

    ghost view = { λ w. w.words.items };
}

impl WordList {
    /// These words.
    pub fn from_vec(words: Vec<Bytes>) -> WordList
        ensures { result ≡ words.items }
    {
        WordList { words }
    }

    pub fn as_slice(&self) -> &[Bytes]
        ensures { result.now ≡ self.now }
    {
        self.words.as_slice()
    }

    /// An equal list; fails only for want of memory.
    pub fn copy(&self) -> Result<WordList, AllocError>
        ensures { IfOk result (λ copy. copy ≡ self.now) }
    {
        let mut words = Vec::new(*self.words.allocator());
        for word in &self.words {
            words.push(word.copy()?)?;
        }
        Ok(WordList { words })
    }
}
