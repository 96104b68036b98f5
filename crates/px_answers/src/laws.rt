ghost use Rattle.std.specs.Prelude.{◌≡◌, ℕ, List, false, true};
ghost use Rattle.px_calls.specs.declared.call.Call.{Call};
ghost use Rattle.px_calls.specs.Steps.{state_after};
ghost use Rattle.px_calls.specs.Sweeps.{swept_state};
ghost use Rattle.px_cell_laws.specs.Writing.{is_end};
ghost use Rattle.px_model.specs.declared.row.Row.{Row};
ghost use Rattle.px_model.specs.Machine.{Machine, fresh};
ghost use Rattle.px_answers.specs.Keeping.{Kept, KeepsTickets, is_hold, none_kept, without_kept};

/// Tickets keep what the machine's transactions keep: nothing at its beginning, and the same after each call but a hold, and after
/// an end what is left where the session's tickets are cleared.
pub fn tickets_keep_what_transactions_do()
    ensures fresh { (tables short : ℕ) (opening : List Row) (before base : ℕ) → KeepsTickets none_kept (fresh tables short opening before base) }
    ensures call { (kept : Kept) (m : Machine) (session : ℕ) (call : Call) → is_hold call ≡ false → is_end call ≡ false → KeepsTickets kept m
        → KeepsTickets kept (state_after m session call) }
    ensures end { (kept : Kept) (m : Machine) (session : ℕ) (call : Call) → is_end call ≡ true → KeepsTickets kept m
        → KeepsTickets (without_kept kept session) (state_after m session call) }
    ensures sweep { (kept : Kept) (m : Machine) → KeepsTickets kept m → KeepsTickets kept (swept_state m) }
{}
