// The line of an engine's numbers.
ghost use Rattle.std.specs.Prelude.{◌≡◌, ◌++◌, ◌∷◌, [], OnOk};
ghost use Rattle.px_calls.specs.Texts.{numbered};
ghost use Rattle.px_engine.specs.Texts.{census_words, marks_words, stat_text};

use crate::{Census, Marks};
use itoa::Buffer;
use std::alloc::AllocError;

/// Appends the line of these numbers (docs/FORMATS.md, 'Replies'). Without memory a front of it may stand there.
#[tactic(auto, unfolding(crate::specs::Texts::stat_text))]
pub fn stat_text(census: &Census, marks: &Marks, out: &mut Vec<u8>) -> Result<(), AllocError>
    ensures { OnOk result (out.new.items ≡ out.old.items ++ stat_text census.now marks.now) }
{
    out.extend_from_slice(b"stat ")?;
    put_census(census, out)?;
    put_marks(marks, out)?;
    out.extend_from_slice(b"\n")
}

fn put_census(census: &Census, out: &mut Vec<u8>) -> Result<(), AllocError>
    ensures { OnOk result (out.new.items ≡ out.old.items ++ census_words census.now) }
{
    put_numbered("commits", census.commits, out)?;
    put_numbered(" open", census.opens, out)?;
    put_numbered(" unswept", census.unswept, out)?;
    put_numbered(" variations", census.variations, out)?;
    put_numbered(" live", census.live, out)?;
    put_numbered(" held", census.held, out)
}

fn put_marks(marks: &Marks, out: &mut Vec<u8>) -> Result<(), AllocError>
    ensures { OnOk result (out.new.items ≡ out.old.items ++ marks_words marks.now) }
{
    put_numbered(" frames", marks.frames, out)?;
    put_numbered(" durable", marks.durable, out)?;
    put_numbered(" applied", marks.applied, out)?;
    put_numbered(" redo", marks.redo, out)
}

/// A word, a space and a number.
fn put_numbered(word: &str, number: u64, out: &mut Vec<u8>) -> Result<(), AllocError>
    ensures { OnOk result (out.new.items ≡ out.old.items ++ numbered word.now number) }
{
    let mut digits = Buffer::new();
    out.extend_from_slice(word.as_bytes())?;
    out.extend_from_slice(b" ")?;
    out.extend_from_slice(digits.format(number).as_bytes())
}
