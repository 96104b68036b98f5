ghost use Rattle.std.specs.Prelude.{◌≡◌, ◌≤◌, ℕ};
ghost use Rattle.px_apply.specs.Contents.{Contents};
ghost use Rattle.px_change.specs.declared.change.Change.{Change};
ghost use Rattle.px_history.specs.Steps.{Step};
ghost use Rattle.px_life.specs.Life.{Life, end_of, grown};
ghost use Rattle.px_logged.specs.Growing.{KeepsOpening};
ghost use Rattle.px_model.specs.Machine.{Machine, commits};
ghost use Rattle.px_reached.specs.Reachable.{KeepsLog, Marks};
ghost use Rattle.px_restart.specs.declared.restart.Restart.{Restart};
ghost use Rattle.px_shown.specs.Parts.{Parts};
ghost use Rattle.px_site.specs.State.{Moment};
ghost use Rattle.px_standing.specs.Images.{IsPlainImage};
ghost use Rattle.px_xlog.specs.Contents.{the_log};
ghost use Rattle.px_working.specs.Follows.{Follows, KeepsPublished};
ghost use Rattle.px_working.specs.Lasts.{HasBetween, HasOthersOf, IsOneSegment, Lasts, LeavesFronts};

use px_life::{a_life_grows, commits_go_on, done_goes_on};
use px_reached::what_is_reachable_stands;

/// Whatever a crash leaves while a store lasts stands for what its machine published by a number of commits, no fewer than were
/// acknowledged and no more than it has made.
pub fn a_crash_leaves_what_lasts()
    ensures { (parts : Parts) (least : ℕ) (m : Machine) (life : Life) (restart : Restart) (marks : Marks) (now : Moment) (image : Contents)
        → Lasts parts least m life restart marks now → IsPlainImage now image → HasBetween parts least (commits m) m image }
{
    what_is_reachable_stands();
}

/// A log in one file, of which a crash leaves a front of the life's changes that has the durable ones, is kept.
pub fn the_log_keeps_its_fronts()
    ensures { (life : Life) (restart : Restart) (marks : Marks) (now : Moment) → IsOneSegment restart life now
        → LeavesFronts marks.durable life.changes (now.files the_log) → KeepsLog IsPlainImage restart life marks now }
{}

/// Where a step follows, the store lasts for the machine that the step leads to, at each moment at which a crash may leave its frame or
/// not: what was acknowledged still is, and no more is promised yet.
pub fn a_step_lasts()
    ensures { (parts : Parts) (least : ℕ) (m later : Machine) (life : Life) (restart : Restart) (marks : Marks) (step : Step) (change : Change) (before now : Moment)
        → Lasts parts least m life restart marks before → Follows parts m life restart step change later → HasOthersOf before now
        → LeavesFronts marks.durable (grown life step change).changes (now.files the_log)
        → Lasts parts least later (grown life step change) restart marks now }
{
    a_life_grows();
    done_goes_on();
    commits_go_on();
}

/// While more frames are made durable the store lasts, and once all are, each commit is acknowledged.
pub fn a_sync_lasts()
    ensures meanwhile { (parts : Parts) (least durable : ℕ) (m : Machine) (life : Life) (restart : Restart) (marks : Marks) (before now : Moment)
        → Lasts parts least m life restart marks before → HasOthersOf before now → marks.durable ≤ durable → durable ≤ end_of life
        → LeavesFronts durable life.changes (now.files the_log)
        → Lasts parts least m life restart (record marks { durable = durable }) now }
    ensures all { (parts : Parts) (least : ℕ) (m : Machine) (life : Life) (restart : Restart) (marks : Marks) (before now : Moment)
        → Lasts parts least m life restart marks before → HasOthersOf before now
        → LeavesFronts (end_of life) life.changes (now.files the_log)
        → Lasts parts (commits m) m life restart (record marks { durable = end_of life }) now }
{}

/// The store lasts for each machine that has the same opening, the same number of commits, and has published the same.
pub fn another_machine_lasts()
    ensures { (parts : Parts) (least : ℕ) (m later : Machine) (life : Life) (restart : Restart) (marks : Marks) (now : Moment)
        → Lasts parts least m life restart marks now → KeepsOpening m later → commits later ≡ commits m → KeepsPublished m later
        → Lasts parts least later life restart marks now }
{}

/// While a store lasts its machine has made no more commits than the life has frames.
pub fn each_commit_has_a_frame()
    ensures { (parts : Parts) (least : ℕ) (m : Machine) (life : Life) (restart : Restart) (marks : Marks) (now : Moment)
        → Lasts parts least m life restart marks now → commits m ≤ end_of life }
{}
