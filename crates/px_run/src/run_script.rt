// `run`.
ghost use Rattle.std.specs.Prelude.{◌≡◌, ◌≤◌, None, Some};
ghost use Rattle.px_site.specs.Cause.{NoneFell};
ghost use Rattle.px_site.specs.State.{EachMoment};
ghost use Rattle.px_cell_standing.specs.Found.{Found, IsFoundOn, IsSettledStore};
ghost use Rattle.px_core.specs.Working.{WorksFor};
ghost use Rattle.px_recovery.specs.Opening.{OpensTo};
ghost use Rattle.px_play.specs.Acknowledged.{KeepsAcknowledged};
ghost use Rattle.px_play.specs.Causes.{HasPlayCause, IsUndamaged, faults_by};
ghost use Rattle.px_play.specs.Input.{EndsInput, script_of};
ghost use Rattle.px_run.specs.Causes.{HasStatusCause, ReadsNothing, RefusesBad, ShowsRefusal};
ghost use Rattle.px_run.specs.Running.{machine_after};
ghost use Rattle.px_run.specs.Working.{RefusesQuietly, RunsBy, RunsScript};
ghost use Rattle.px_run.specs.declared.command.Command.{Command};

use crate::ended::Ended;
use crate::telling::tell;
use px_calls::{Status, opened_line};
use px_play::play;
use px_recovery::{Opened, open_store, what_has_no_room_is_not_refused, what_opens_is_not_refused};
use px_site::Site;
use px_source::Source;
use std::alloc::Global;

/// Opens the store, tells what was found, and plays the script of the input.
pub(crate) fn run_script<W: Site, S: Source>(alloc: Global, source: &mut S, site: W) -> Ended<W>
    ensures cause { HasStatusCause (Some Command.Run) (W.counts site) (W.counts result.site) (S.faults source.old) (S.faults source.new) result.status }
    ensures shown { W.tells → ShowsRefusal (W.state site).content (W.state result.site).content result.status }
    ensures refused { W.tells → RefusesBad (W.state site).content result.status }
    ensures quiet { W.tells → RefusesQuietly (W.state site) (W.state result.site) result.status }
    ensures input { S.tells → EndsInput (S.left source.old) (S.left source.new) result.status }
    ensures unopened { S.tells → ReadsNothing W.tells (S.left source.old) (S.left source.new) result.status }
    ensures read_faults { S.faults source.new ≡ faults_by result.status (S.faults source.old) }
    ensures runs { W.tells → S.tells → (found : Found) → IsFoundOn found (W.state site)
        → RunsScript found (S.left source.old) (S.left source.new) (W.state site) (W.state result.site) (W.counts site) (W.counts result.site) result.status }
    ensures moments { W.tells → S.tells → (found : Found) → IsSettledStore found (W.state site)
        → EachMoment (KeepsAcknowledged (machine_after found (script_of (S.left source.old))) (W.state site).now.told) (W.state site) (W.state result.site) }
    ensures none_fell { NoneFell (W.counts site) (W.counts result.site) }
    ensures source_none_fell { S.faults source.old ≤ S.faults source.new }
{
    what_has_no_room_is_not_refused();
    what_opens_is_not_refused();
    match open_store(alloc, site) {
        Ok(opened) => {
            let mut opened = opened;
            let status = play_opened(alloc, &mut opened, source);
            let site = opened.core.close();
            Ended { site, status }
        }
        Err(refused) => Ended {
            site: refused.site,
            status: Status::from(refused.error),
        },
    }
}

/// Tells what an opening found, and plays the script.
fn play_opened<W: Site, S: Source>(alloc: Global, opened: &mut Opened<W>, source: &mut S) -> Status
    requires { opened.old.core.error ≡ None }
    ensures cause { HasPlayCause (W.counts opened.old.core.site) (W.counts opened.new.core.site) (S.faults source.old) (S.faults source.new) result }
    ensures sound { W.tells → IsUndamaged result }
    ensures input { S.tells → EndsInput (S.left source.old) (S.left source.new) result }
    ensures read_faults { S.faults source.new ≡ faults_by result (S.faults source.old) }
    ensures runs { W.tells → S.tells → (found : Found) → OpensTo W.state found opened.old.core opened.old.report
        → RunsBy (WorksFor W.state opened.new.core) found (S.left source.old) (S.left source.new)
        (W.state opened.old.core.site) (W.state opened.new.core.site) (W.counts opened.old.core.site) (W.counts opened.new.core.site) result }
    ensures moments { W.tells → S.tells → (found : Found) → OpensTo W.state found opened.old.core opened.old.report
        → EachMoment (KeepsAcknowledged (machine_after found (script_of (S.left source.old))) (W.state opened.old.core.site).now.told) (W.state opened.old.core.site) (W.state opened.new.core.site) }
    ensures none_fell { NoneFell (W.counts opened.old.core.site) (W.counts opened.new.core.site) }
    ensures source_none_fell { S.faults source.old ≤ S.faults source.new }
{
    let report = opened.report;
    let line = opened_line(report.commits, report.rows, report.redone);
    if let Err(status) = tell(&mut opened.core, line.as_slice()) {
        return status;
    }
    play(alloc, &mut opened.core, source)
}
