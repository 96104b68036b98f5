// The program's public call.
ghost use Rattle.std.specs.Prelude.{◌≡◌, ◌≢◌, ◌≤◌, ℕ, true, None, Some, IfSome};
ghost use Rattle.px_site.specs.Cause.{NoneFell};
ghost use Rattle.px_site.specs.State.{EachMoment};
ghost use Rattle.px_source.specs.Source.{Rose as ReadRose};
ghost use Rattle.px_cell_standing.specs.Images.{CanMake, ImagesAreNew, ImagesStandFor};
ghost use Rattle.px_cell_standing.specs.Found.{Found, IsFoundOn, IsSettledStore};
ghost use Rattle.px_play.specs.Acknowledged.{KeepsAcknowledged};
ghost use Rattle.px_play.specs.Causes.{faults_by};
ghost use Rattle.px_play.specs.Input.{EndsInput, script_of};
ghost use Rattle.px_run.specs.Causes.{HasStatusCause, NoCountFell, ReadsNothing, RefusesBad, ShowsRefusal, TellsLineAlone};
ghost use Rattle.px_run.specs.Command.{IsMakeable, command_of, opens};
ghost use Rattle.px_run.specs.Dumping.{DumpsRight};
ghost use Rattle.px_run.specs.Making.{MakesRight};
ghost use Rattle.px_run.specs.Premises.{CanRun, HasRoom, IsDoneOrShort, IsEmpty, NoneRose};
ghost use Rattle.px_run.specs.Running.{RunsRight, TakesAsTold, machine_after};
ghost use Rattle.px_run.specs.Working.{DumpsRows, MakesStore, RefusesQuietly, RunsScript};
ghost use Rattle.px_run.specs.declared.command.Command.{Command};

use crate::Command;
use crate::dump_rows::dump_rows;
use crate::ended::Ended;
use crate::make_store::make_store;
use crate::run_script::run_script;
use crate::telling::tell_closing_line;
use px_calls::Status;
use px_model::WordList;
use px_site::Site;
use px_source::Source;
use std::alloc::Global;

/// Does what the words of the command line ask for, the program's name not among them, and tells what comes of it; then it
/// tells the line that the status ends with, if it has one.
///
/// - `make N S` makes a store with so many tables, 1 to 8, and this short length, 16 to 1,024 bytes, where none is, and
///   tells `made N S`.
/// - `run` opens the store, tells what it found, and answers the lines of the input in order: each reply is told before the
///   next line is looked for, and of the input no more is taken than one line and one piece beyond the answered ones.
/// - `dump` opens the store, and tells how many rows it has and a line for each, in order of table and key.
///
/// The first error ends the call. `Usage`: the words are none of these. `NoStore` and `Damaged`: `run` and `dump` found no
/// store, or one that isn't whole at that place. `NotEmpty`: `make` found a store or another file. `BadLine`, `SourceFault`
/// and `TooLong` are `run`'s, at its input. `DiskFault`: a call on a file failed; `OutputFault`: a piece couldn't be told, and
/// a front of it may have been. `LogFull`: the opening, which unlinks each version that nobody will see in a frame of its own,
/// or a call of `run` had a frame to write for which the log has no number. `OutOfMemory`: memory was wanted. An error of the
/// telling of the last line changes nothing. Once a store was opened, all but `DiskFault` leave it with all that the calls did,
/// and nothing else, and so does `OutOfMemory` but where the site wanted memory within a commit.
pub fn pbxt_run<W: Site, S: Source>(
    alloc: Global,
    words: &WordList,
    source: &mut S,
    site: &mut W,
) -> Status
    // ---- when each status may come
    ensures cause { HasStatusCause (command_of words.now) (W.counts site.old) (W.counts site.new) (S.faults source.old) (S.faults source.new) result }
    ensures usage { command_of words.now ≡ None → result ≡ Status.Usage }
    ensures shown { W.tells → ShowsRefusal (W.state site.old).content (W.state site.new).content result }
    ensures refused { W.tells → opens (command_of words.now) ≡ true → RefusesBad (W.state site.old).content result }
    ensures line_alone { W.tells → TellsLineAlone (W.state site.old) (W.state site.new) (W.counts site.old) (W.counts site.new) result }
    ensures none_fell { NoCountFell (W.counts site.old) (W.counts site.new) }
    ensures source_none_fell { S.faults source.old ≤ S.faults source.new }

    // ---- how the input was read; each telling may be refused, and ends the run, so that `taken` holds at each answer
    ensures input { S.tells → command_of words.now ≡ Some Command.Run → EndsInput (S.left source.old) (S.left source.new) result }
    ensures unopened { S.tells → command_of words.now ≡ Some Command.Run → ReadsNothing W.tells (S.left source.old) (S.left source.new) result }
    ensures unread { S.tells → command_of words.now ≢ Some Command.Run → S.left source.new ≡ S.left source.old }
    ensures read_faults { command_of words.now ≡ Some Command.Run → S.faults source.new ≡ faults_by result (S.faults source.old) }
    ensures taken { W.tells → S.tells → command_of words.now ≡ Some Command.Run
        → (found : Found) → IsFoundOn found (W.state site.old)
        → TakesAsTold found (S.left source.old) (S.left source.new) (W.state site.old) (W.state site.new) (W.counts site.old) (W.counts site.new) result }

    // ---- `run`: what it told and left, each moment, and that it isn't given up
    ensures runs { W.tells → S.tells → command_of words.now ≡ Some Command.Run
        → (found : Found) → IsFoundOn found (W.state site.old)
        → RunsRight found (S.left source.old) (S.left source.new) (W.state site.old) (W.state site.new) (W.counts site.old) (W.counts site.new) result }
    ensures any_moment { W.tells → S.tells → command_of words.now ≡ Some Command.Run
        → (found : Found) → IsSettledStore found (W.state site.old)
        → EachMoment (KeepsAcknowledged (machine_after found (script_of (S.left source.old))) (W.state site.old).now.told) (W.state site.old) (W.state site.new) }
    ensures complete { W.tells → S.tells → command_of words.now ≡ Some Command.Run
        → (found : Found) → IsFoundOn found (W.state site.old) → CanRun found (S.left source.old)
        → NoneRose (W.counts site.old) (W.counts site.new) → (ReadRose (S.faults source.old) (S.faults source.new) → ⊥) → IsDoneOrShort result }

    // ---- `make`
    ensures makes { W.tells → (tables short : ℕ) → command_of words.now ≡ Some (Command.Make tables short)
        → MakesRight tables short (W.state site.old) (W.state site.new) (W.counts site.old) (W.counts site.new) result }
    ensures complete_make { W.tells → (tables short : ℕ) → command_of words.now ≡ Some (Command.Make tables short)
        → IsEmpty (W.state site.old).content → NoneRose (W.counts site.old) (W.counts site.new) → IsDoneOrShort result }
    ensures new_at_any_moment { W.tells → (tables short : ℕ) → command_of words.now ≡ Some (Command.Make tables short)
        → CanMake (W.state site.old) → EachMoment ImagesAreNew (W.state site.old) (W.state site.new) }

    // ---- `dump`
    ensures dumps { W.tells → command_of words.now ≡ Some Command.Dump
        → (found : Found) → IsFoundOn found (W.state site.old)
        → DumpsRight found (W.state site.old) (W.state site.new) (W.counts site.old) (W.counts site.new) result }
    ensures complete_dump { W.tells → command_of words.now ≡ Some Command.Dump
        → (found : Found) → IsFoundOn found (W.state site.old) → HasRoom found → NoneRose (W.counts site.old) (W.counts site.new) → IsDoneOrShort result }
    ensures same_at_any_moment { W.tells → command_of words.now ≡ Some Command.Dump
        → (found : Found) → IsSettledStore found (W.state site.old)
        → EachMoment (ImagesStandFor found.commits found.rows) (W.state site.old) (W.state site.new) }
{
    let status = carry_out_on(alloc, Command::of(words), source, site);
    tell_closing_line(site, &status);
    status
}

/// All of a call but its closing line.
fn carry_out_on<W: Site, S: Source>(
    alloc: Global,
    command: Option<Command>,
    source: &mut S,
    site: &mut W,
) -> Status
    requires { IfSome command IsMakeable }
    ensures cause { HasStatusCause command (W.counts site.old) (W.counts site.new) (S.faults source.old) (S.faults source.new) result }
    ensures usage { command ≡ None → result ≡ Status.Usage }
    ensures shown { W.tells → ShowsRefusal (W.state site.old).content (W.state site.new).content result }
    ensures refused { W.tells → opens command ≡ true → RefusesBad (W.state site.old).content result }
    ensures quiet { W.tells → RefusesQuietly (W.state site.old) (W.state site.new) result }
    ensures none_fell { NoCountFell (W.counts site.old) (W.counts site.new) }
    ensures source_none_fell { S.faults source.old ≤ S.faults source.new }
    ensures input { S.tells → command ≡ Some Command.Run → EndsInput (S.left source.old) (S.left source.new) result }
    ensures unopened { S.tells → command ≡ Some Command.Run → ReadsNothing W.tells (S.left source.old) (S.left source.new) result }
    ensures unread { S.tells → command ≢ Some Command.Run → S.left source.new ≡ S.left source.old }
    ensures read_faults { command ≡ Some Command.Run → S.faults source.new ≡ faults_by result (S.faults source.old) }
    ensures runs { W.tells → S.tells → command ≡ Some Command.Run
        → (found : Found) → IsFoundOn found (W.state site.old)
        → RunsScript found (S.left source.old) (S.left source.new) (W.state site.old) (W.state site.new) (W.counts site.old) (W.counts site.new) result }
    ensures any_moment { W.tells → S.tells → command ≡ Some Command.Run
        → (found : Found) → IsSettledStore found (W.state site.old)
        → EachMoment (KeepsAcknowledged (machine_after found (script_of (S.left source.old))) (W.state site.old).now.told) (W.state site.old) (W.state site.new) }
    ensures makes { W.tells → (tables short : ℕ) → command ≡ Some (Command.Make tables short)
        → MakesStore tables short (W.state site.old) (W.state site.new) result }
    ensures new_at_any_moment { W.tells → (tables short : ℕ) → command ≡ Some (Command.Make tables short)
        → CanMake (W.state site.old) → EachMoment ImagesAreNew (W.state site.old) (W.state site.new) }
    ensures dumps { W.tells → command ≡ Some Command.Dump
        → (found : Found) → IsFoundOn found (W.state site.old)
        → DumpsRows found (W.state site.old) (W.state site.new) result }
    ensures same_at_any_moment { W.tells → command ≡ Some Command.Dump
        → (found : Found) → IsSettledStore found (W.state site.old)
        → EachMoment (ImagesStandFor found.commits found.rows) (W.state site.old) (W.state site.new) }
{
    carry_out(alloc, command, source, &mut *site).status
}

/// The same, on a site that comes back.
fn carry_out<W: Site, S: Source>(
    alloc: Global,
    command: Option<Command>,
    source: &mut S,
    site: W,
) -> Ended<W>
    requires { IfSome command IsMakeable }
    ensures cause { HasStatusCause command (W.counts site) (W.counts result.site) (S.faults source.old) (S.faults source.new) result.status }
    ensures usage { command ≡ None → result.status ≡ Status.Usage }
    ensures shown { W.tells → ShowsRefusal (W.state site).content (W.state result.site).content result.status }
    ensures refused { W.tells → opens command ≡ true → RefusesBad (W.state site).content result.status }
    ensures quiet { W.tells → RefusesQuietly (W.state site) (W.state result.site) result.status }
    ensures none_fell { NoneFell (W.counts site) (W.counts result.site) }
    ensures source_none_fell { S.faults source.old ≤ S.faults source.new }
    ensures input { S.tells → command ≡ Some Command.Run → EndsInput (S.left source.old) (S.left source.new) result.status }
    ensures unopened { S.tells → command ≡ Some Command.Run → ReadsNothing W.tells (S.left source.old) (S.left source.new) result.status }
    ensures unread { S.tells → command ≢ Some Command.Run → S.left source.new ≡ S.left source.old }
    ensures read_faults { command ≡ Some Command.Run → S.faults source.new ≡ faults_by result.status (S.faults source.old) }
    ensures runs { W.tells → S.tells → command ≡ Some Command.Run
        → (found : Found) → IsFoundOn found (W.state site)
        → RunsScript found (S.left source.old) (S.left source.new) (W.state site) (W.state result.site) (W.counts site) (W.counts result.site) result.status }
    ensures any_moment { W.tells → S.tells → command ≡ Some Command.Run
        → (found : Found) → IsSettledStore found (W.state site)
        → EachMoment (KeepsAcknowledged (machine_after found (script_of (S.left source.old))) (W.state site).now.told) (W.state site) (W.state result.site) }
    ensures makes { W.tells → (tables short : ℕ) → command ≡ Some (Command.Make tables short)
        → MakesStore tables short (W.state site) (W.state result.site) result.status }
    ensures new_at_any_moment { W.tells → (tables short : ℕ) → command ≡ Some (Command.Make tables short)
        → CanMake (W.state site) → EachMoment ImagesAreNew (W.state site) (W.state result.site) }
    ensures dumps { W.tells → command ≡ Some Command.Dump
        → (found : Found) → IsFoundOn found (W.state site)
        → DumpsRows found (W.state site) (W.state result.site) result.status }
    ensures same_at_any_moment { W.tells → command ≡ Some Command.Dump
        → (found : Found) → IsSettledStore found (W.state site)
        → EachMoment (ImagesStandFor found.commits found.rows) (W.state site) (W.state result.site) }
{
    match command {
        None => Ended {
            site,
            status: Status::Usage,
        },
        Some(Command::Make { tables, short }) => {
            let mut site = site;
            let status = make_store(&mut site, tables, short);
            Ended { site, status }
        }
        Some(Command::Run) => run_script(alloc, source, site),
        Some(Command::Dump) => dump_rows(alloc, site),
    }
}
