ghost use Rattle.std.specs.Prelude.{◌≡◌, ◌≤◌, ◌++◌, ℕ, List, None};
ghost use Rattle.px_site.specs.Cause.{NoneFell};
ghost use Rattle.px_site.specs.State.{EachMoment};
ghost use Rattle.px_model.specs.Machine.{Machine, commits};
ghost use Rattle.px_engine.specs.Engine.{Engine};
ghost use Rattle.px_engine.specs.Requests.{after_requests};
ghost use Rattle.px_standing.specs.Images.{LeavesOthers};
ghost use Rattle.px_core.specs.Working.{WorksFor};
ghost use Rattle.px_play.specs.Acknowledged.{KeepsAcknowledged, TellsWhole, acknowledged};
ghost use Rattle.px_play.specs.Causes.{HasPlayCause, IsUndamaged, faults_by};
ghost use Rattle.px_play.specs.Engine.{IsEngine};
ghost use Rattle.px_play.specs.Input.{EndsInput, script_of};
ghost use Rattle.px_play.specs.Playing.{PlaysRight};

use crate::reading::next_line;
use crate::turns::turn;
use px_calls::Status;
use px_core::Core;
use px_script::Lines;
use px_site::Site;
use px_source::Source;
use std::alloc::Global;

/// Plays the script of an input: answers its lines in order, and tells the answer to each before the next one is looked for.
/// The core is one that keeps no error. The first error ends it:
///
/// - `Done`: every line to the input's end was answered.
/// - `BadLine`: the line with this number, from 1, is outside the grammar, or no command.
/// - `TooLong`: as many bytes were read as a script may have, and no read answered the end.
/// - `SourceFault`: a read of the source failed.
/// - `DiskFault`: a call on a file failed; never `Fault::Tell`.
/// - `OutputFault`: an answer couldn't be told; a front of it may be.
/// - `LogFull`: a step had a frame to write for which the log has no number left.
/// - `OutOfMemory`: a step, a line or an answer's text wanted memory.
/// - `Damaged`: a step met a cell that no store may have there. Never on a site that tells: the opening has looked at them all.
///
/// No other status comes. After `DiskFault` the core may be broken, and after `OutOfMemory` where the site wanted memory
/// within a commit. Else it works on: at `OutputFault` the last step was made, and its answer told in part.
pub fn play<W: Site, S: Source>(alloc: Global, core: &mut Core<W>, source: &mut S) -> Status
    requires whole { core.old.error ≡ None }
    ensures cause { HasPlayCause (W.counts core.old.site) (W.counts core.new.site) (S.faults source.old) (S.faults source.new) result }
    ensures sound { W.tells → IsUndamaged result }
    ensures none_fell { NoneFell (W.counts core.old.site) (W.counts core.new.site) }
    ensures source_none_fell { S.faults source.old ≤ S.faults source.new }
    ensures source_faults { S.faults source.new ≡ faults_by result (S.faults source.old) }
    ensures input { S.tells → EndsInput (S.left source.old) (S.left source.new) result }
    ensures plays { W.tells → S.tells → (e : Engine) → IsEngine W.state core.old e
        → PlaysRight W.state W.counts e core.old core.new (S.left source.old) (S.left source.new) result }
    ensures moments { W.tells → S.tells → (e : Engine) → IsEngine W.state core.old e
        → (before so_far : List ℕ) → (W.state core.old.site).now.told ≡ before ++ so_far → TellsWhole so_far
        → acknowledged e.machine.before so_far ≡ commits e.machine
        → EachMoment (KeepsAcknowledged (after_requests e (script_of (S.left source.old))).machine before) (W.state core.old.site) (W.state core.new.site) }
    ensures others { W.tells → (m : Machine) → WorksFor W.state core.old m
        → EachMoment (LeavesOthers (W.state core.old.site).now) (W.state core.old.site) (W.state core.new.site) }
{
    let mut lines = Lines::new(alloc);
    let mut text = Vec::new(alloc);
    for answered in 0..u64::MAX {
        if let Err(status) = next_line(&mut lines, source, answered) {
            return status;
        }
        if let Err(status) = turn(alloc, core, lines.line(), answered + 1, &mut text) {
            return status;
        }
    }
    Status::TooLong
}
