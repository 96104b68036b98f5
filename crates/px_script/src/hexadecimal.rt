ghost use Rattle.std.specs.Prelude.{◌≡◌, ◌↔◌, IsTrue, length};
ghost use Rattle.std.specs.List.{AllPass};
ghost use Rattle.px_script.specs.Words.{bytes_of, body_of, is_lower_digit};
ghost use Rattle.px_script.specs.Reads.{Reads};

use crate::no_line::NoLine;
use px_model::Bytes;
use std::alloc::Global;

/// The bytes, one or more, whose hexadecimal text in lower case the word is.
pub(crate) fn bytes_of(alloc: Global, word: &[u8]) -> Result<Bytes, NoLine>
    ensures { Reads (bytes_of word.now) result }
{
    // `hex` takes upper case too, and asks for memory before it reads a digit.
    if word.is_empty() || word.len() % 2 == 1 || !are_lower_digits(word) {
        return Err(NoLine::Outside);
    }
    let bytes = hex::decode(alloc, word)?;
    Ok(Bytes::from_vec(bytes))
}

/// The same, and `-` for no bytes.
pub(crate) fn body_of(alloc: Global, word: &[u8]) -> Result<Bytes, NoLine>
    ensures { Reads (body_of word.now) result }
{
    if word == b"-".as_slice() {
        Ok(Bytes::new(alloc))
    } else {
        bytes_of(alloc, word)
    }
}

fn are_lower_digits(word: &[u8]) -> bool
    ensures { IsTrue result ↔ AllPass is_lower_digit word.now }
{
    word.iter()
        .all(|digit| matches!(*digit, b'0'..=b'9' | b'a'..=b'f'))
}
