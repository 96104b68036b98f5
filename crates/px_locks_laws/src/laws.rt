ghost use Rattle.std.specs.Prelude.{◌≡◌, ◌≢◌, ◌⊎◌, ℕ, Bool, List, None, Some, false, true};
ghost use Rattle.px_calls.specs.Steps.{closed, is_refusal, open_of, reply_of, state_after};
ghost use Rattle.px_calls.specs.declared.call.Call.{Call};
ghost use Rattle.px_calls.specs.declared.call.Call.TheVariants.{Commit, Rollback};
ghost use Rattle.px_chain_laws.specs.Kept.{IsKept};
ghost use Rattle.px_chain_laws.specs.Writing.{write_of};
ghost use Rattle.px_locks.specs.Holders.{Holders, holder_of};
ghost use Rattle.px_model.specs.Machine.{Machine, fresh};
ghost use Rattle.px_model.specs.Rows.{Key, key_written};
ghost use Rattle.px_model.specs.declared.machine.Open.{Open};
ghost use Rattle.px_model.specs.declared.row.Row.{Row};
ghost use Rattle.px_model.specs.declared.write.Write.{Write};
ghost use Rattle.px_locks_laws.specs.Keys.{HoldsKeys, Releases, Takes};

/// Where nobody holds a key, the holders are a fresh machine's. They stay so with each call, where a write that is answered takes
/// its key, and an end releases those of its transaction's writes; the other calls take and release none.
pub fn holders_follow_calls()
    ensures fresh { (tables short : ℕ) (opening : List Row) (before base : ℕ) (holders : Holders) → ((key : Key) → holder_of key holders ≡ None)
        → HoldsKeys (fresh tables short opening before base) holders }
    ensures refused { (m : Machine) (holders : Holders) (session : ℕ) (call : Call) → HoldsKeys m holders
        → is_refusal (reply_of m session call) ≡ true → HoldsKeys (state_after m session call) holders }
    ensures others { (m : Machine) (holders : Holders) (session : ℕ) (call : Call) → IsKept m → HoldsKeys m holders
        → write_of call ≡ None → call ≢ Commit → call ≢ Rollback → HoldsKeys (state_after m session call) holders }
    ensures write { (m : Machine) (old new : Holders) (session : ℕ) (call : Call) (xact : Open) (write : Write) → IsKept m → HoldsKeys m old
        → open_of m session ≡ Some xact → write_of call ≡ Some write → is_refusal (reply_of m session call) ≡ false
        → Takes write xact.number old new → HoldsKeys (state_after m session call) new }
    ensures end { (m : Machine) (old new : Holders) (session : ℕ) (xact : Open) (committed : Bool) → IsKept m → HoldsKeys m old
        → open_of m session ≡ Some xact → Releases xact.writes xact.number old new → HoldsKeys (closed m session committed) new }
{}

/// Where a write is answered, nobody holds its key, or its own transaction does.
pub fn a_writer_may_take_its_key()
    ensures { (m : Machine) (holders : Holders) (session : ℕ) (call : Call) (xact : Open) (write : Write) → IsKept m → HoldsKeys m holders
        → open_of m session ≡ Some xact → write_of call ≡ Some write → is_refusal (reply_of m session call) ≡ false
        → (holder_of (key_written write) holders ≡ None) ⊎ (holder_of (key_written write) holders ≡ Some xact.number) }
{}
