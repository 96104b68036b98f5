// A step that a core is asked for.
ghost use Rattle.std.specs.Prelude.{◌≡◌, None, IfErr, OnOk};
ghost use Rattle.px_site.specs.Cause.{NoneFell};
ghost use Rattle.px_site.specs.State.{EachMoment};
ghost use Rattle.px_calls.specs.Histories.{by, sweep};
ghost use Rattle.px_engine.specs.Engine.{Engine};
ghost use Rattle.px_model.specs.Machine.{Machine};
ghost use Rattle.px_standing.specs.Images.{LeavesOthers};
ghost use Rattle.px_core.specs.Working.{WorksFor};
ghost use Rattle.px_play.specs.Causes.{HasPlayCause, IsUndamaged};
ghost use Rattle.px_play.specs.Engine.{IsEngine};
ghost use Rattle.px_play.specs.Serving.{HasStepEnd, ServesRight, StepStands, idle_where_damaged};

use px_calls::{Call, Reply, Status};
use px_core::{Core, CoreError};
use px_model::Session;
use px_site::Site;

/// A session's call: its reply, or the status by which it ends a run.
pub(crate) fn make_call<W: Site>(
    core: &mut Core<W>,
    session: Session,
    call: Call,
) -> Result<Reply, Status>
    requires { core.old.error ≡ None }
    ensures ends { IfErr result HasStepEnd }
    ensures sound { W.tells → IfErr result IsUndamaged }
    ensures cause { IfErr result (HasPlayCause (W.counts core.old.site) (W.counts core.new.site) 0 0) }
    ensures whole { OnOk result (core.new.error ≡ None) }
    ensures none_fell { NoneFell (W.counts core.old.site) (W.counts core.new.site) }
    ensures serves { W.tells → (e : Engine) → IsEngine W.state core.old e → ServesRight W.state W.counts e (by session call) core.old core.new result }
    ensures stands { W.tells → (m : Machine) → WorksFor W.state core.old m → StepStands W.state m (by session call) core.old core.new }
    ensures others { W.tells → (m : Machine) → WorksFor W.state core.old m
        → EachMoment (LeavesOthers (W.state core.old.site).now) (W.state core.old.site) (W.state core.new.site) }
{
    Ok(core.step(session, call)?)
}

/// A step of the sweeper: its reply, or the status by which it ends a run. Where it meets a cell that no store may have there, it
/// takes nothing and is idle: the next opening tells what is damaged.
pub(crate) fn make_sweep<W: Site>(core: &mut Core<W>) -> Result<Reply, Status>
    requires { core.old.error ≡ None }
    ensures ends { IfErr result HasStepEnd }
    ensures sound { W.tells → IfErr result IsUndamaged }
    ensures cause { IfErr result (HasPlayCause (W.counts core.old.site) (W.counts core.new.site) 0 0) }
    ensures whole { OnOk result (core.new.error ≡ None) }
    ensures none_fell { NoneFell (W.counts core.old.site) (W.counts core.new.site) }
    ensures serves { W.tells → (e : Engine) → IsEngine W.state core.old e → ServesRight W.state W.counts e sweep core.old core.new result }
    ensures stands { W.tells → (m : Machine) → WorksFor W.state core.old m → StepStands W.state m sweep core.old core.new }
    ensures others { W.tells → (m : Machine) → WorksFor W.state core.old m
        → EachMoment (LeavesOthers (W.state core.old.site).now) (W.state core.old.site) (W.state core.new.site) }
{
    match core.sweep() {
        Ok(reply) => Ok(reply),
        Err(error) => idle_where_damaged(error),
    }
}

/// What comes of a sweep's error.
fn idle_where_damaged(error: CoreError) -> Result<Reply, Status>
    ensures { result ≡ idle_where_damaged error }
{
    match error {
        CoreError::Damaged { .. } => Ok(Reply::Idle),
        error => Err(Status::from(error)),
    }
}
