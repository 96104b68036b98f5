ghost use Rattle.std.specs.Prelude.{◌≡◌, ◌≢◌, ◌+◌, ◌<◌, ◌≤◌, ◌^◌, ℕ, [], None, Some, true, false};
ghost use Rattle.px_calls.specs.Steps.{is_refusal, open_of, reply_of, state_after};
ghost use Rattle.px_calls.specs.declared.call.Call.{Call};
ghost use Rattle.px_calls.specs.declared.call.Call.TheVariants.{Commit, Rollback};
ghost use Rattle.px_calls.specs.declared.reply.Reply.TheVariants.{Idle};
ghost use Rattle.px_calls.specs.Sweeps.{sweep_reply, swept_state};
ghost use Rattle.px_cell_laws.specs.Sweeping.{IsSweptAt, sweep_count_of, sweep_of};
ghost use Rattle.px_cell_laws.specs.Writing.{IsWriteBy, is_end};
ghost use Rattle.px_cells.specs.declared.header.Header.{Header};
ghost use Rattle.px_cells.specs.declared.slot.Slot.{Slot};
ghost use Rattle.px_chain_laws.specs.Writing as calls;
ghost use Rattle.px_history.specs.Fitting.{PlacesFit};
ghost use Rattle.px_history.specs.Steps.{Step};
ghost use Rattle.px_history.specs.Written.{change_of};
ghost use Rattle.px_life.specs.Life.{Life};
ghost use Rattle.px_model.specs.Machine.{Machine, commits};
ghost use Rattle.px_model.specs.declared.machine.Flat.{Flat};
ghost use Rattle.px_model.specs.declared.machine.Open.{Open};
ghost use Rattle.px_reached.specs.Reachable.{Marks};
ghost use Rattle.px_recs.specs.Text.{SlotFits};
ghost use Rattle.px_restart.specs.declared.restart.Restart.{Restart};
ghost use Rattle.px_shown.specs.Parts.{Parts};
ghost use Rattle.px_site.specs.State.{Moment};
ghost use Rattle.px_xlog.specs.Contents.{the_log};
ghost use Rattle.px_working.specs.Follows.{Follows, last_store, swept_change, with_step, with_sweep};
ghost use Rattle.px_working.specs.Lasts.{HasOthersOf, Lasts, LeavesFronts};
ghost use Rattle.px_working.specs.Works.{Works};

use crate::lasting::a_step_lasts;
use px_cell_laws::{
    a_sweep_is_an_unlink, a_write_is_a_put, an_end_is_a_step, committed_rows_are_shown,
    other_calls_leave_the_cells,
};
use px_chain_laws::{a_sweep_moves_the_base, machines_are_kept};
use px_history::{one_writer_of_a_row, what_a_frame_may_hold};
use px_life::fronts_hold;

/// A write that is answered follows with the link of its version. The store lasts at each moment at which a crash may leave its frame
/// or not, and the machine works on after it.
pub fn a_write_goes_on()
    ensures follows { (parts : Parts) (least : ℕ) (m : Machine) (life : Life) (restart : Restart) (marks : Marks) (before : Moment)
        (session : ℕ) (call : Call) (t : ℕ) (header : Header) (slot : Slot)
        → Lasts parts least m life restart marks before → Works parts m life restart
        → IsWriteBy parts m (last_store life) session call t header slot → PlacesFit header → SlotFits slot
        → let step = Step.put t header slot in
        Follows parts m life restart step (change_of restart.short (last_store life) step) (state_after m session call) }
    ensures lasts { (parts : Parts) (least : ℕ) (m : Machine) (life : Life) (restart : Restart) (marks : Marks) (before now : Moment)
        (session : ℕ) (call : Call) (t : ℕ) (header : Header) (slot : Slot)
        → Lasts parts least m life restart marks before → Works parts m life restart
        → IsWriteBy parts m (last_store life) session call t header slot → PlacesFit header → SlotFits slot → HasOthersOf before now
        → let later = with_step restart.short life (Step.put t header slot) in
        LeavesFronts marks.durable later.changes (now.files the_log) → Lasts parts least (state_after m session call) later restart marks now }
    ensures works { (parts : Parts) (least : ℕ) (m : Machine) (life : Life) (restart : Restart) (marks : Marks) (before : Moment)
        (session : ℕ) (call : Call) (t : ℕ) (header : Header) (slot : Slot)
        → Lasts parts least m life restart marks before → Works parts m life restart
        → IsWriteBy parts m (last_store life) session call t header slot
        → Works parts (state_after m session call) (with_step restart.short life (Step.put t header slot)) restart }
{
    a_write_is_a_put();
    committed_rows_are_shown();
    machines_are_kept();
    what_a_frame_may_hold();
    a_step_lasts();
}

/// A commit of a transaction with writes follows with a Commit that has the next number. The store lasts at each moment at which a crash
/// may leave its frame or not, with no commit more acknowledged until a sync, and the machine works on after it.
pub fn a_commit_goes_on()
    ensures follows { (parts : Parts) (least : ℕ) (m : Machine) (life : Life) (restart : Restart) (marks : Marks) (before : Moment) (session : ℕ) (xact : Open)
        → Lasts parts least m life restart marks before → Works parts m life restart
        → open_of m session ≡ Some xact → xact.writes ≢ [] → commits m + 1 < 2 ^ 64
        → let step = Step.commit (m.base + xact.number) (commits m + 1) in
        Follows parts m life restart step (change_of restart.short (last_store life) step) (state_after m session Commit) }
    ensures lasts { (parts : Parts) (least : ℕ) (m : Machine) (life : Life) (restart : Restart) (marks : Marks) (before now : Moment) (session : ℕ) (xact : Open)
        → Lasts parts least m life restart marks before → Works parts m life restart
        → open_of m session ≡ Some xact → xact.writes ≢ [] → commits m + 1 < 2 ^ 64 → HasOthersOf before now
        → let later = with_step restart.short life (Step.commit (m.base + xact.number) (commits m + 1)) in
        LeavesFronts marks.durable later.changes (now.files the_log) → Lasts parts least (state_after m session Commit) later restart marks now }
    ensures works { (parts : Parts) (least : ℕ) (m : Machine) (life : Life) (restart : Restart) (marks : Marks) (before : Moment) (session : ℕ) (xact : Open)
        → Lasts parts least m life restart marks before → Works parts m life restart
        → open_of m session ≡ Some xact → xact.writes ≢ []
        → Works parts (state_after m session Commit) (with_step restart.short life (Step.commit (m.base + xact.number) (commits m + 1))) restart }
{
    an_end_is_a_step();
    committed_rows_are_shown();
    machines_are_kept();
    one_writer_of_a_row();
    what_a_frame_may_hold();
    a_step_lasts();
}

/// A rollback of a transaction with writes follows with a Rollback. The store lasts at each moment at which a crash may leave its frame or
/// not, and the machine works on after it.
pub fn a_rollback_goes_on()
    ensures follows { (parts : Parts) (least : ℕ) (m : Machine) (life : Life) (restart : Restart) (marks : Marks) (before : Moment) (session : ℕ) (xact : Open)
        → Lasts parts least m life restart marks before → Works parts m life restart
        → open_of m session ≡ Some xact → xact.writes ≢ []
        → let step = Step.rollback (m.base + xact.number) in
        Follows parts m life restart step (change_of restart.short (last_store life) step) (state_after m session Rollback) }
    ensures lasts { (parts : Parts) (least : ℕ) (m : Machine) (life : Life) (restart : Restart) (marks : Marks) (before now : Moment) (session : ℕ) (xact : Open)
        → Lasts parts least m life restart marks before → Works parts m life restart
        → open_of m session ≡ Some xact → xact.writes ≢ [] → HasOthersOf before now
        → let later = with_step restart.short life (Step.rollback (m.base + xact.number)) in
        LeavesFronts marks.durable later.changes (now.files the_log) → Lasts parts least (state_after m session Rollback) later restart marks now }
    ensures works { (parts : Parts) (least : ℕ) (m : Machine) (life : Life) (restart : Restart) (marks : Marks) (before : Moment) (session : ℕ) (xact : Open)
        → Lasts parts least m life restart marks before → Works parts m life restart
        → open_of m session ≡ Some xact → xact.writes ≢ []
        → Works parts (state_after m session Rollback) (with_step restart.short life (Step.rollback (m.base + xact.number))) restart }
{
    an_end_is_a_step();
    committed_rows_are_shown();
    machines_are_kept();
    what_a_frame_may_hold();
    a_step_lasts();
}

/// Through a call that is refused, through one that neither writes nor ends a transaction, and through an end of a transaction without writes the
/// store lasts in the same frames, and the machine works on in the same cells.
pub fn other_calls_go_on()
    ensures refused { (parts : Parts) (m : Machine) (life : Life) (restart : Restart) (session : ℕ) (call : Call) → Works parts m life restart
        → is_refusal (reply_of m session call) ≡ true → Works parts (state_after m session call) life restart }
    ensures reads { (parts : Parts) (m : Machine) (life : Life) (restart : Restart) (session : ℕ) (call : Call) → Works parts m life restart
        → calls.write_of call ≡ None → is_end call ≡ false → Works parts (state_after m session call) life restart }
    ensures wrote_nothing { (parts : Parts) (m : Machine) (life : Life) (restart : Restart) (session : ℕ) (call : Call) (xact : Open) → Works parts m life restart
        → is_end call ≡ true → open_of m session ≡ Some xact → xact.writes ≡ [] → Works parts (state_after m session call) life restart }
    ensures refused_lasts { (parts : Parts) (least : ℕ) (m : Machine) (life : Life) (restart : Restart) (marks : Marks) (now : Moment) (session : ℕ) (call : Call)
        → Lasts parts least m life restart marks now → is_refusal (reply_of m session call) ≡ true
        → Lasts parts least (state_after m session call) life restart marks now }
    ensures reads_last { (parts : Parts) (least : ℕ) (m : Machine) (life : Life) (restart : Restart) (marks : Marks) (now : Moment) (session : ℕ) (call : Call)
        → Lasts parts least m life restart marks now → calls.write_of call ≡ None → is_end call ≡ false
        → Lasts parts least (state_after m session call) life restart marks now }
    ensures wrote_nothing_lasts { (parts : Parts) (least : ℕ) (m : Machine) (life : Life) (restart : Restart) (marks : Marks) (now : Moment) (session : ℕ) (call : Call) (xact : Open)
        → Lasts parts least m life restart marks now → is_end call ≡ true → open_of m session ≡ Some xact → xact.writes ≡ []
        → Lasts parts least (state_after m session call) life restart marks now }
{
    other_calls_leave_the_cells();
    machines_are_kept();
}

/// A sweep that takes versions follows with the unlink of them, in a frame that has the stored number of the write that is swept. The store
/// lasts at each moment at which a crash may leave that frame or not, and the machine works on after it. Through a sweep that takes
/// nothing the store lasts in the same frames, and the machine works on in the same cells.
pub fn a_sweep_goes_on()
    ensures follows { (parts : Parts) (least : ℕ) (m : Machine) (life : Life) (restart : Restart) (marks : Marks) (before : Moment) (w : Flat) (t row place : ℕ)
        → Lasts parts least m life restart marks before → Works parts m life restart
        → let store = last_store life in
        IsSweptAt m store w t row place → 1 ≤ sweep_count_of store w t row place
        → let step = sweep_of store w t row place in
        Follows parts m life restart step (swept_change restart.short store step (m.base + w.number)) (swept_state m) }
    ensures lasts { (parts : Parts) (least : ℕ) (m : Machine) (life : Life) (restart : Restart) (marks : Marks) (before now : Moment) (w : Flat) (t row place : ℕ)
        → Lasts parts least m life restart marks before → Works parts m life restart
        → let store = last_store life in
        IsSweptAt m store w t row place → 1 ≤ sweep_count_of store w t row place → HasOthersOf before now
        → let later = with_sweep restart.short life (sweep_of store w t row place) (m.base + w.number) in
        LeavesFronts marks.durable later.changes (now.files the_log) → Lasts parts least (swept_state m) later restart marks now }
    ensures works { (parts : Parts) (least : ℕ) (m : Machine) (life : Life) (restart : Restart) (marks : Marks) (before : Moment) (w : Flat) (t row place : ℕ)
        → Lasts parts least m life restart marks before → Works parts m life restart
        → let store = last_store life in
        IsSweptAt m store w t row place → 1 ≤ sweep_count_of store w t row place
        → Works parts (swept_state m) (with_sweep restart.short life (sweep_of store w t row place) (m.base + w.number)) restart }
    ensures nothing { (parts : Parts) (m : Machine) (life : Life) (restart : Restart) (w : Flat) (t row place : ℕ) → Works parts m life restart
        → IsSweptAt m (last_store life) w t row place → sweep_count_of (last_store life) w t row place ≡ 0 → Works parts (swept_state m) life restart }
    ensures nothing_lasts { (parts : Parts) (least : ℕ) (m : Machine) (life : Life) (restart : Restart) (marks : Marks) (now : Moment)
        → Lasts parts least m life restart marks now → Lasts parts least (swept_state m) life restart marks now }
    ensures idle { (m : Machine) → sweep_reply m ≡ Idle → swept_state m ≡ m }
{
    a_sweep_is_an_unlink();
    a_sweep_moves_the_base();
    committed_rows_are_shown();
    machines_are_kept();
    fronts_hold();
    what_a_frame_may_hold();
    a_step_lasts();
}
