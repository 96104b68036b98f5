// What a line asks for.
ghost use Rattle.std.specs.Prelude.{◌≡◌};
ghost use Rattle.std.specs.Option.{option_map};
ghost use Rattle.px_script.specs.Grammar.{request_of};
ghost use Rattle.px_play.specs.Turns.{ReadsCommand, request_asked};

use px_calls::{Activity, Call, Event, Status};
use px_model::Session;
use px_script::{Line, parse_line};
use std::alloc::Global;

/// What a line asks for that a run answers.
pub(crate) enum Asked {
    /// A session's call.
    Call(Session, Call),
    /// A step of the sweeper.
    Sweep,
    /// The numbers of the store.
    Stat,
}

/// What a line asks for. `BadLine` with this number where it is no command.
#[tactic(auto, unfolding(px_script::specs::Grammar::command_line))]
pub(crate) fn command(alloc: Global, line: &[u8], number: u64) -> Result<Asked, Status>
    ensures { ReadsCommand line.now number result }
{
    let Ok(line) = parse_line(alloc, line) else {
        return Err(Status::OutOfMemory);
    };
    match line {
        Some(line) => asked_by(line).ok_or(Status::BadLine(number)),
        None => Err(Status::BadLine(number)),
    }
}

/// What is built today of what a line may ask for.
fn asked_by(line: Line) -> Option<Asked>
    ensures { option_map request_asked result ≡ request_of line }
{
    match line {
        Line::Step(event) => step_of(event),
        Line::Stat => Some(Asked::Stat),
        Line::Peek { .. } | Line::Drain => None,
    }
}

fn step_of(event: Event) -> Option<Asked>
    ensures { option_map request_asked result ≡ request_of (Line.Step event) }
{
    match event {
        Event::Session(session, call) => Some(Asked::Call(session, call)),
        Event::Activity(activity) => activity_step(activity),
    }
}

fn activity_step(activity: Activity) -> Option<Asked>
    ensures { option_map request_asked result ≡ request_of (Line.Step (Event.Activity activity)) }
{
    match activity {
        Activity::Sweeper => Some(Asked::Sweep),
        Activity::Writer | Activity::Compactor | Activity::Checkpointer => None,
    }
}
