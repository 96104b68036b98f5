ghost use Rattle.std.specs.Prelude.{◌≤◌, ℕ};
ghost use Rattle.px_change.specs.declared.change.Change.{Change};
ghost use Rattle.px_history.specs.Fitting.{HasRoomFor, IsStoredNumber, IsTable};
ghost use Rattle.px_history.specs.Steps.{MayUnlink, Step};
ghost use Rattle.px_history.specs.Written.{IsChangeOf};
ghost use Rattle.px_life.specs.Life.{Life};
ghost use Rattle.px_model.specs.Machine.{Machine};
ghost use Rattle.px_model.specs.declared.limits.TheConstants.{STORED_NUMBERS_END};
ghost use Rattle.px_reached.specs.Reachable.{Marks};
ghost use Rattle.px_restart.specs.declared.restart.Restart.{Restart};
ghost use Rattle.px_shown.specs.Parts.{Parts};
ghost use Rattle.px_site.specs.State.{Moment, State};
ghost use Rattle.px_working.specs.Follows.{Follows, last_store};
ghost use Rattle.px_working.specs.Lasts.{Lasts};
ghost use Rattle.px_working.specs.Works.{Works};
ghost use Rattle.px_beginning.specs.Found.{IsFound, Reading, life_of, machine_of};
ghost use Rattle.px_beginning.specs.Tidied.{tidied};

use px_history::{bases, what_a_frame_may_hold};
use px_life::{a_life_begins, fronts_hold};
use px_tidy::a_store_is_tidied;
use px_working::what_begins_works;

/// An unlink of versions without which the same is shown follows, where a frame has room for their cells and its change carries a stored
/// number. It leads to the machine from which it came.
pub fn an_unlink_follows()
    ensures { (parts : Parts) (least : ℕ) (m : Machine) (life : Life) (restart : Restart) (marks : Marks) (now : Moment) (t row from count : ℕ) (change : Change)
        → Lasts parts least m life restart marks now → MayUnlink (last_store life) t row from count
        → IsTable restart.tables t → HasRoomFor count → IsStoredNumber change.xn
        → IsChangeOf restart.short (last_store life) (Step.unlink t row from count) change
        → Follows parts m life restart (Step.unlink t row from count) change m }
{
    fronts_hold();
    what_a_frame_may_hold();
}

/// Once each version that nobody will see was unlinked, a fresh machine works in what is left, where the next number is at most the first
/// past the stored ones.
pub fn what_was_tidied_works()
    ensures { (parts : Parts) (read : Reading) (s : State) (least : ℕ) (marks : Marks) (now : Moment) → IsFound parts read s
        → Lasts parts least (machine_of read) (tidied read.restart (life_of read s.content)) read.restart marks now → read.next ≤ STORED_NUMBERS_END
        → Works parts (machine_of read) (tidied read.restart (life_of read s.content)) read.restart }
{
    bases();
    a_store_is_tidied();
    a_life_begins();
    what_begins_works();
}
