ghost use Rattle.std.specs.Prelude.{◌≡◌, ◌+◌, ℕ, Bool, List, true, drop, length, option_map, is_some, slice_get, Some};
ghost use Rattle.px_model.specs.declared.machine.Ended.{Ended};
ghost use Rattle.px_model.specs.declared.row.Row.{Row};
ghost use Rattle.px_model.specs.declared.write.Write.{Write};
ghost use Rattle.px_model.specs.Machine.{Machine, fresh, horizon};
ghost use Rattle.px_model.specs.Rows.{key_written};
ghost use Rattle.px_calls.specs.declared.call.Call.{Call};
ghost use Rattle.px_calls.specs.Steps.{closed, open_of, reply_of, state_after, with_write};
ghost use Rattle.px_calls.specs.Sweeps.{sweep_reply, swept_state};
ghost use Rattle.px_machine_laws.specs.Unwriting.{without_last};
ghost use Rattle.px_xacts.specs.declared.write.WriteAt.{WriteAt};
ghost use Rattle.px_xacts.specs.Transactions as xacts;
ghost use Rattle.px_xacts.specs.Transactions.{Transactions};
ghost use Rattle.px_xacts_laws.specs.Mirrors.{Mirrors, begun_reply, due_reply, key_at};

/// What a session does to the transactions is what it does to the machine's.
pub fn calls_mirror_calls()
    ensures fresh { (tables short : ℕ) (opening : List Row) (before base : ℕ) → Mirrors (fresh tables short opening before base) (xacts.fresh base) }
    ensures begin { (m : Machine) (all : Transactions) (session frames : ℕ) → Mirrors m all
        → Mirrors (state_after m session Call.Begin) (xacts.after_begin all session frames) }
    ensures write { (m : Machine) (all : Transactions) (session : ℕ) (write : Write) (at : WriteAt) → Mirrors m all
        → key_at at ≡ key_written write → Mirrors (with_write m session write) (xacts.with_write all session at) }
    ensures unwrite { (m : Machine) (all : Transactions) (session : ℕ) → Mirrors m all → Mirrors (without_last m session) (xacts.without_last all session) }
    ensures end { (m : Machine) (all : Transactions) (session : ℕ) (committed : Bool) → Mirrors m all
        → Mirrors (closed m session committed) (xacts.ended all session committed) }
{}

/// What is read of the transactions is what the machine has.
pub fn what_is_read_is_the_machines()
    ensures begun { (m : Machine) (all : Transactions) (session : ℕ) → Mirrors m all
        → begun_reply (xacts.begin_answer all session) ≡ reply_of m session Call.Begin }
    ensures number { (m : Machine) (all : Transactions) (session : ℕ) → Mirrors m all
        → option_map (λ x. x.number) (xacts.open_of all session) ≡ option_map (λ x. x.number) (open_of m session) }
    ensures snapshot { (m : Machine) (all : Transactions) (session : ℕ) → Mirrors m all
        → option_map (λ x. x.snap) (xacts.open_of all session) ≡ option_map (λ x. x.snap) (open_of m session) }
    ensures count { (m : Machine) (all : Transactions) → Mirrors m all → length all.outcomes ≡ length m.ended }
    ensures horizon { (m : Machine) (all : Transactions) → Mirrors m all → xacts.horizon all ≡ horizon m }
{}

/// What is due is what the machine's sweeper passes next.
pub fn what_is_due_is_swept()
    ensures reply { (m : Machine) (all : Transactions) → Mirrors m all → due_reply (xacts.due all) ≡ sweep_reply m }
    ensures state { (m : Machine) (all : Transactions) → Mirrors m all → is_some (xacts.due all) ≡ true
        → Mirrors (swept_state m) (record all { queue = drop 1 all.queue }) }
{}

/// What became of a transaction that ended is its entry's outcome at its place.
pub fn what_became_of_an_ended_one()
    ensures { (m : Machine) (all : Transactions) (place : ℕ) (e : Ended) → Mirrors m all → slice_get m.ended place ≡ Some e
        → xacts.IsEndedAs all place e.committed (m.base + e.number) }
{}
