ghost use Rattle.std.specs.Prelude.{◌≡◌, IfOk, MatchOption, None, Some};
ghost use Rattle.px_script.specs.Grammar.{line_of, line_of_words, session_line, session_of, word_line};
ghost use Rattle.px_script.specs.Reads.{Reads};

use crate::Line;
use crate::calls::call_of;
use crate::no_line::NoLine;
use crate::words::Words;
use px_calls::{Activity, Event};
use px_model::Session;
use std::alloc::{AllocError, Global};

/// The longest line in bytes, its line feed not counted (docs/FORMATS.md, 'Script lines').
pub const LONGEST_LINE: usize = 16_777_216;

/// The line that these bytes are, None exactly outside the grammar (docs/FORMATS.md, 'Script lines').
/// Memory is taken for a key and a body alone, once their text was tested.
pub fn parse_line(alloc: Global, bytes: &[u8]) -> Result<Option<Line>, AllocError>
    ensures { IfOk result (λ line. line ≡ line_of bytes.now) }
{
    if bytes.len() > LONGEST_LINE {
        return Ok(None);
    }
    match line_of_words(alloc, &mut Words::of(bytes)) {
        Ok(line) => Ok(Some(line)),
        Err(NoLine::Outside) => Ok(None),
        Err(NoLine::OutOfMemory) => Err(AllocError),
    }
}

fn line_of_words(alloc: Global, words: &mut Words) -> Result<Line, NoLine>
    ensures { Reads (line_of_words words.old) result }
{
    let first = words.next().ok_or(NoLine::Outside)?;
    if words.is_empty() {
        word_line(first).ok_or(NoLine::Outside)
    } else {
        let session = session_of(first).ok_or(NoLine::Outside)?;
        session_line(alloc, session, words)
    }
}

/// A word that is a line by itself.
fn word_line(word: &[u8]) -> Option<Line>
    ensures { result ≡ word_line word.now }
{
    if word == b"writer".as_slice() {
        Some(Line::Step(Event::Activity(Activity::Writer)))
    } else if word == b"sweeper".as_slice() {
        Some(Line::Step(Event::Activity(Activity::Sweeper)))
    } else if word == b"compactor".as_slice() {
        Some(Line::Step(Event::Activity(Activity::Compactor)))
    } else if word == b"checkpointer".as_slice() {
        Some(Line::Step(Event::Activity(Activity::Checkpointer)))
    } else if word == b"drain".as_slice() {
        Some(Line::Drain)
    } else if word == b"stat".as_slice() {
        Some(Line::Stat)
    } else {
        None
    }
}

/// The session of one letter, `a` to `p`.
fn session_of(word: &[u8]) -> Option<Session>
    ensures { result ≡ session_of word.now }
{
    match word {
        [letter @ b'a'..=b'p'] => Session::of(*letter - b'a'),
        _ => None,
    }
}

/// What stands behind a session's letter: a peek or a call.
fn session_line(alloc: Global, session: Session, words: &mut Words) -> Result<Line, NoLine>
    ensures { Reads (session_line session words.old) result }
{
    let verb = words.next().ok_or(NoLine::Outside)?;
    if verb == b"peek".as_slice() {
        let table = words.number()?;
        let key = words.key(alloc)?;
        words.end()?;
        return Ok(Line::Peek {
            session,
            table,
            key,
        });
    }
    let call = call_of(alloc, verb, words)?;
    Ok(Line::Step(Event::Session(session, call)))
}
