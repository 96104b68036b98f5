// The next line of a script.
ghost use Rattle.std.specs.Prelude.{◌≡◌, ◌+◌, ◌-◌, ◌^◌, ◌<◌, ◌≤◌, ℕ, List, [], true, IfErr, OnOk};
ghost use Rattle.px_play.specs.Causes.{faults_by};
ghost use Rattle.px_play.specs.Reading.{HasReadEnd, IsAsked, IsRead, MayEnd};

use px_calls::Status;
use px_script::{Lines, NextLine};
use px_source::Source;

/// Finds the next line, which is then to be answered; so many were before it. Else it answers how the run ends here:
/// `Done`, `SourceFault`, `TooLong`, `BadLine` with the line's number, from 1, or `OutOfMemory`.
pub(crate) fn next_line<S: Source>(
    lines: &mut Lines,
    source: &mut S,
    answered: u64,
) -> Result<(), Status>
    requires at_end { S.tells → lines.old.ended ≡ true → S.left source.old ≡ [] }
    requires room { answered < 2 ^ 64 - 1 }
    ensures asked { S.tells → (input : List ℕ) → IsRead input lines.old (S.left source.old) answered → OnOk result (IsAsked input lines.new (S.left source.new) answered) }
    ensures ends { S.tells → (input : List ℕ) → IsRead input lines.old (S.left source.old) answered → IfErr result (MayEnd input (S.left source.new) answered) }
    ensures cause { IfErr result (HasReadEnd (S.faults source.old) (S.faults source.new)) }
    ensures faults { IfErr result (λ status. S.faults source.new ≡ faults_by status (S.faults source.old)) }
    ensures no_fault { OnOk result (S.faults source.new ≡ S.faults source.old) }
    ensures none_fell { S.faults source.old ≤ S.faults source.new }
{
    let Ok(next) = lines.next(source) else {
        return Err(Status::OutOfMemory);
    };
    match next {
        NextLine::Line => Ok(()),
        NextLine::End => Err(Status::Done),
        NextLine::Fault => Err(Status::SourceFault),
        NextLine::TooLong => Err(Status::TooLong),
        NextLine::LongLine => Err(Status::BadLine(answered + 1)),
    }
}
