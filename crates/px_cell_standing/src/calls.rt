//! What is left can be found again, with all that the machine has committed: from the opening on, call by call and sweep by sweep.

ghost use Rattle.std.specs.Prelude.{◌≡◌, ◌≢◌, ◌+◌, ◌<◌, ◌≤◌, ◌^◌, ℕ, [], Some};
ghost use Rattle.px_beginning.specs.Found.{Reading, life_of};
ghost use Rattle.px_beginning.specs.Tidied.{tidied};
ghost use Rattle.px_calls.specs.Steps.{open_of, state_after};
ghost use Rattle.px_calls.specs.Sweeps.{swept_state};
ghost use Rattle.px_calls.specs.declared.call.Call.{Call};
ghost use Rattle.px_calls.specs.declared.call.Call.TheVariants.{Commit, Rollback};
ghost use Rattle.px_cell_laws.specs.Sweeping.{IsSweptAt, sweep_count_of, sweep_of};
ghost use Rattle.px_cell_laws.specs.Writing.{IsWriteBy};
ghost use Rattle.px_cells.specs.declared.header.Header.{Header};
ghost use Rattle.px_cells.specs.declared.slot.Slot.{Slot};
ghost use Rattle.px_history.specs.Fitting.{PlacesFit};
ghost use Rattle.px_history.specs.Steps.{Step};
ghost use Rattle.px_life.specs.Life.{Life};
ghost use Rattle.px_model.specs.Machine.{Machine, commits};
ghost use Rattle.px_model.specs.declared.machine.Flat.{Flat};
ghost use Rattle.px_model.specs.declared.machine.Open.{Open};
ghost use Rattle.px_reached.specs.Reachable.{Marks};
ghost use Rattle.px_recs.specs.Text.{SlotFits};
ghost use Rattle.px_restart.specs.declared.restart.Restart.{Restart};
ghost use Rattle.px_shown.specs.Parts.{Parts};
ghost use Rattle.px_site.specs.State.{Moment};
ghost use Rattle.px_standing.specs.Images.{LeavesOthers};
ghost use Rattle.px_standing.specs.Files.{Files};
ghost use Rattle.px_working.specs.Follows.{last_store, with_step, with_sweep};
ghost use Rattle.px_working.specs.Lasts.{Lasts};
ghost use Rattle.px_working.specs.Works.{Works};
ghost use Rattle.px_cell_standing.specs.Found.{CanBeFound, IsReadIn, found_in, machine_of};
ghost use Rattle.px_cell_standing.specs.Settled.{HasEmptyTables};

use px_life::more_places_open_to_the_same;
use px_opened::what_opens_is_one;
use px_tidy::a_store_is_tidied;
use px_working::{a_commit_goes_on, a_rollback_goes_on, a_sweep_goes_on, a_write_goes_on};

/// Once what was read is tidied, what is left can be found for the machine that starts there, while no table file has a byte.
pub fn what_was_opened_can_be_found()
    ensures { (files : Files) (read : Reading) (now : Moment) → IsReadIn files read → HasEmptyTables now → read.restart.redo ≡ 0
        → CanBeFound (machine_of (found_in read)) (tidied read.restart (life_of read files)) read.restart now }
{
    a_store_is_tidied();
    more_places_open_to_the_same();
    what_opens_is_one();
}

/// So it is after each call that changes no file but the log's, whether its step was added to the life or none was; after each sweep, whether
/// its unlink was added in a frame that has the stored number of the write that was swept, or it took nothing; and at each moment while nothing
/// is answered.
pub fn what_can_be_found_goes_on()
    ensures write { (parts : Parts) (least : ℕ) (m : Machine) (life : Life) (restart : Restart) (marks : Marks) (before now : Moment)
        (session : ℕ) (call : Call) (t : ℕ) (header : Header) (slot : Slot)
        → Lasts parts least m life restart marks before → Works parts m life restart → CanBeFound m life restart before
        → IsWriteBy parts m (last_store life) session call t header slot → PlacesFit header → SlotFits slot → LeavesOthers before now
        → CanBeFound (state_after m session call) (with_step restart.short life (Step.put t header slot)) restart now }
    ensures commit { (parts : Parts) (least : ℕ) (m : Machine) (life : Life) (restart : Restart) (marks : Marks) (before now : Moment) (session : ℕ) (xact : Open)
        → Lasts parts least m life restart marks before → Works parts m life restart → CanBeFound m life restart before
        → open_of m session ≡ Some xact → xact.writes ≢ [] → commits m + 1 < 2 ^ 64 → LeavesOthers before now
        → CanBeFound (state_after m session Commit) (with_step restart.short life (Step.commit (m.base + xact.number) (commits m + 1))) restart now }
    ensures rollback { (parts : Parts) (least : ℕ) (m : Machine) (life : Life) (restart : Restart) (marks : Marks) (before now : Moment) (session : ℕ) (xact : Open)
        → Lasts parts least m life restart marks before → Works parts m life restart → CanBeFound m life restart before
        → open_of m session ≡ Some xact → xact.writes ≢ [] → LeavesOthers before now
        → CanBeFound (state_after m session Rollback) (with_step restart.short life (Step.rollback (m.base + xact.number))) restart now }
    ensures others { (m : Machine) (life : Life) (restart : Restart) (before now : Moment) (session : ℕ) (call : Call) → CanBeFound m life restart before
        → LeavesOthers before now → CanBeFound (state_after m session call) life restart now }
    ensures still { (m : Machine) (life : Life) (restart : Restart) (before now : Moment) → CanBeFound m life restart before → LeavesOthers before now
        → CanBeFound m life restart now }
    ensures sweep { (parts : Parts) (least : ℕ) (m : Machine) (life : Life) (restart : Restart) (marks : Marks) (before now : Moment) (w : Flat) (t row place : ℕ)
        → Lasts parts least m life restart marks before → Works parts m life restart → CanBeFound m life restart before
        → let store = last_store life in
        IsSweptAt m store w t row place → 1 ≤ sweep_count_of store w t row place → LeavesOthers before now
        → CanBeFound (swept_state m) (with_sweep restart.short life (sweep_of store w t row place) (m.base + w.number)) restart now }
    ensures swept_nothing { (m : Machine) (life : Life) (restart : Restart) (before now : Moment) → CanBeFound m life restart before → LeavesOthers before now
        → CanBeFound (swept_state m) life restart now }
{
    a_commit_goes_on();
    a_rollback_goes_on();
    a_sweep_goes_on();
    a_write_goes_on();
}
