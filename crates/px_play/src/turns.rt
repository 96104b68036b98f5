// One line of a script: what it asks for, the core's answer, and that the answer is told.
ghost use Rattle.std.specs.Prelude.{◌≡◌, Some, None, IfErr, OnOk};
ghost use Rattle.px_site.specs.Cause.{NoneFell};
ghost use Rattle.px_site.specs.State.{EachMoment};
ghost use Rattle.px_calls.specs.Texts.{reply_text};
ghost use Rattle.px_engine.specs.Engine.{Engine};
ghost use Rattle.px_engine.specs.Requests.{Request, Stat, answer_text};
ghost use Rattle.px_model.specs.Machine.{Machine};
ghost use Rattle.px_script.specs.Grammar.{command_line};
ghost use Rattle.px_standing.specs.Images.{LeavesOthers};
ghost use Rattle.px_core.specs.Working.{WorksFor};
ghost use Rattle.px_play.specs.Causes.{HasPlayCause, IsUndamaged};
ghost use Rattle.px_play.specs.Engine.{IsEngine};
ghost use Rattle.px_play.specs.Turns.{HasAnswerEnd, HasTellEnd, HasTurnEnd, KeepsWithin, TellsText, TurnsRight, request_asked};

use crate::commands::{Asked, command};
use crate::serving::{make_call, make_sweep};
use crate::status_of_tell;
use px_calls::{Reply, Status, reply_text};
use px_core::Core;
use px_engine::stat_text;
use px_site::Site;
use std::alloc::Global;

/// Answers a line, whose number counts from 1: what it asks for is done, and the answer told. `text` is room for the answer's
/// text, whatever stands in it.
///
/// - `BadLine`: the line is no command; then nothing is done.
/// - `DiskFault`, `LogFull`, `OutOfMemory`: the core gave up, or the answer's text or the line's call wanted memory.
/// - `OutputFault`: the answer was made, and a front of it told.
/// - `Damaged`: the step met a cell that no store may have. Never on a site that tells.
pub(crate) fn turn<W: Site>(
    alloc: Global,
    core: &mut Core<W>,
    line: &[u8],
    number: u64,
    text: &mut Vec<u8>,
) -> Result<(), Status>
    requires { core.old.error ≡ None }
    ensures done { OnOk result ((request : Request) × (command_line line.now ≡ Some request)) }
    ensures ends { IfErr result (HasTurnEnd line.now number) }
    ensures sound { W.tells → IfErr result IsUndamaged }
    ensures cause { IfErr result (HasPlayCause (W.counts core.old.site) (W.counts core.new.site) 0 0) }
    ensures whole { OnOk result (core.new.error ≡ None) }
    ensures none_fell { NoneFell (W.counts core.old.site) (W.counts core.new.site) }
    ensures unplayed { command_line line.now ≡ None → core.new ≡ core.old }
    ensures plays { W.tells → (request : Request) → command_line line.now ≡ Some request
        → (e : Engine) → IsEngine W.state core.old e → TurnsRight W.state W.counts e request core.old core.new result }
    ensures moments { W.tells → (request : Request) → command_line line.now ≡ Some request
        → (e : Engine) → IsEngine W.state core.old e → KeepsWithin e request (W.state core.old.site) (W.state core.new.site) }
    ensures others { W.tells → (m : Machine) → WorksFor W.state core.old m
        → EachMoment (LeavesOthers (W.state core.old.site).now) (W.state core.old.site) (W.state core.new.site) }
{
    let asked = command(alloc, line, number)?;
    answer(core, asked, text)
}

/// Does what is asked for and tells the answer.
fn answer<W: Site>(core: &mut Core<W>, asked: Asked, text: &mut Vec<u8>) -> Result<(), Status>
    requires { core.old.error ≡ None }
    ensures ends { IfErr result HasAnswerEnd }
    ensures sound { W.tells → IfErr result IsUndamaged }
    ensures cause { IfErr result (HasPlayCause (W.counts core.old.site) (W.counts core.new.site) 0 0) }
    ensures whole { OnOk result (core.new.error ≡ None) }
    ensures none_fell { NoneFell (W.counts core.old.site) (W.counts core.new.site) }
    ensures plays { W.tells → (e : Engine) → IsEngine W.state core.old e
        → TurnsRight W.state W.counts e (request_asked asked) core.old core.new result }
    ensures moments { W.tells → (e : Engine) → IsEngine W.state core.old e
        → KeepsWithin e (request_asked asked) (W.state core.old.site) (W.state core.new.site) }
    ensures others { W.tells → (m : Machine) → WorksFor W.state core.old m
        → EachMoment (LeavesOthers (W.state core.old.site).now) (W.state core.old.site) (W.state core.new.site) }
{
    match asked {
        Asked::Call(session, call) => {
            let reply = make_call(core, session, call)?;
            tell_reply(core, &reply, text)
        }
        Asked::Sweep => {
            let reply = make_sweep(core)?;
            tell_reply(core, &reply, text)
        }
        Asked::Stat => tell_numbers(core, text),
    }
}

/// Tells a reply. `OutputFault`: a front of it was told; `OutOfMemory`: nothing was.
fn tell_reply<W: Site>(core: &mut Core<W>, reply: &Reply, text: &mut Vec<u8>) -> Result<(), Status>
    ensures tells { W.tells → TellsText (reply_text reply.now) (W.state core.old.site) (W.state core.new.site) result }
    ensures rest { core.new ≡ record core.old { site = core.new.site } }
    ensures works { W.tells → (m : Machine) → WorksFor W.state core.old m → WorksFor W.state core.new m }
    ensures cause { IfErr result (HasTellEnd (W.counts core.old.site) (W.counts core.new.site)) }
    ensures none_fell { NoneFell (W.counts core.old.site) (W.counts core.new.site) }
{
    text.clear();
    if reply_text(reply, text).is_err() {
        return Err(Status::OutOfMemory);
    }
    tell_text(core, text.as_slice())
}

/// Tells the numbers of the core. `OutputFault`: a front of their line was told; `OutOfMemory`: nothing was.
fn tell_numbers<W: Site>(core: &mut Core<W>, text: &mut Vec<u8>) -> Result<(), Status>
    ensures tells { W.tells → (e : Engine) → IsEngine W.state core.old e
        → TellsText (answer_text e Stat) (W.state core.old.site) (W.state core.new.site) result }
    ensures rest { core.new ≡ record core.old { site = core.new.site } }
    ensures works { W.tells → (m : Machine) → WorksFor W.state core.old m → WorksFor W.state core.new m }
    ensures cause { IfErr result (HasTellEnd (W.counts core.old.site) (W.counts core.new.site)) }
    ensures none_fell { NoneFell (W.counts core.old.site) (W.counts core.new.site) }
{
    text.clear();
    if stat_text(&core.census(), &core.marks(), text).is_err() {
        return Err(Status::OutOfMemory);
    }
    tell_text(core, text.as_slice())
}

/// Tells a text. `OutputFault`: a front of it was told; `OutOfMemory`: nothing was.
fn tell_text<W: Site>(core: &mut Core<W>, text: &[u8]) -> Result<(), Status>
    ensures tells { W.tells → TellsText text.now (W.state core.old.site) (W.state core.new.site) result }
    ensures rest { core.new ≡ record core.old { site = core.new.site } }
    ensures works { W.tells → (m : Machine) → WorksFor W.state core.old m → WorksFor W.state core.new m }
    ensures cause { IfErr result (HasTellEnd (W.counts core.old.site) (W.counts core.new.site)) }
    ensures none_fell { NoneFell (W.counts core.old.site) (W.counts core.new.site) }
{
    match core.tell(text) {
        Ok(()) => Ok(()),
        Err(error) => Err(status_of_tell(error)),
    }
}
