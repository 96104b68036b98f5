ghost use Rattle.std.specs.Prelude.{◌≡◌, ℕ, List, true};
ghost use Rattle.px_active.specs.declared.active.Active.{Active};
ghost use Rattle.px_active.specs.Active.{IsActiveOf, only_reads};
ghost use Rattle.px_answers.specs.Keeping.{Kept, KeepsTickets};
ghost use Rattle.px_calls.specs.declared.call.Call.{Call};
ghost use Rattle.px_calls.specs.Steps.{is_refusal, reply_of, state_after};
ghost use Rattle.px_chain_laws.specs.Kept.{IsKept};
ghost use Rattle.px_model.specs.Machine.{Machine};

/// A call that is refused and one that only reads leave what the sessions have. A hold leaves it but for the tickets.
pub fn reads_leave_what_is_active()
    ensures refused { (m : Machine) (active : Active) (session : ℕ) (call : Call) → IsActiveOf m active → is_refusal (reply_of m session call) ≡ true
        → IsActiveOf (state_after m session call) active }
    ensures reads { (m : Machine) (active : Active) (session : ℕ) (call : Call) → IsActiveOf m active → only_reads call ≡ true
        → IsActiveOf (state_after m session call) active }
    ensures hold { (m : Machine) (active : Active) (tickets : Kept) (session table : ℕ) (key : List ℕ) → IsKept m → IsActiveOf m active
        → KeepsTickets tickets (state_after m session (Call.Hold table key))
        → IsActiveOf (state_after m session (Call.Hold table key)) (record active { tickets = tickets }) }
{}
