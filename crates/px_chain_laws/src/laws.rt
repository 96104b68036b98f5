ghost use Rattle.std.specs.Prelude.{◌≡◌, ◌<◌, ◌≤◌, ◌+◌, ◌++◌, ◌∷◌, [], ℕ, List, true, false, drop, length, slice_get, slice_set, Some, None};
ghost use Rattle.std.specs.Option.{option_or};
ghost use Rattle.px_model.specs.declared.machine.Flat.{Flat};
ghost use Rattle.px_model.specs.declared.machine.Open.{Open};
ghost use Rattle.px_model.specs.declared.row.Row.{Row};
ghost use Rattle.px_model.specs.declared.write.Write.{Write};
ghost use Rattle.px_model.specs.Rows.{Key, in_order, key_written, row_at, same_key};
ghost use Rattle.px_model.specs.Machine.{Machine, flat, fresh, horizon, view};
ghost use Rattle.px_model.specs.Chains.{chain, of_opening};
ghost use Rattle.px_calls.specs.declared.call.Call.{Call};
ghost use Rattle.px_calls.specs.declared.reply.Reply.{Reply};
ghost use Rattle.px_calls.specs.Steps.{conflict_of, is_refusal, last_writer, open_of, open_writer, reply_of, state_after, with_write};
ghost use Rattle.px_calls.specs.Sweeps.{sweep_reply, swept_state};
ghost use Rattle.px_calls.specs.Histories.{Step, machine_after};
ghost use Rattle.px_xacts.specs.Transactions as xacts;
ghost use Rattle.px_xacts.specs.Transactions.{Transactions};
ghost use Rattle.px_xacts_laws.specs.Mirrors.{Mirrors};
ghost use Rattle.px_chain_laws.specs.Kept.{IsKept};
ghost use Rattle.px_chain_laws.specs.Reading.{newest_committed, row_seen, seen, standing_in, writer_past};
ghost use Rattle.px_chain_laws.specs.Sweeping.{IsSweptFrom, base_of};
ghost use Rattle.px_chain_laws.specs.Worked.{early, example, key, late, of, row, writer};
ghost use Rattle.px_chain_laws.specs.Writing.{write_of};

/// What holds of a fresh machine holds after each call and each step of the sweeper.
pub fn machines_are_kept()
    ensures fresh { (tables short : ℕ) (opening : List Row) (before base : ℕ) → IsKept (fresh tables short opening before base) }
    ensures call { (m : Machine) (session : ℕ) (call : Call) → IsKept m → IsKept (state_after m session call) }
    ensures sweep { (m : Machine) → IsKept m → IsKept (swept_state m) }
    ensures history { (m : Machine) (steps : List Step) → IsKept m → IsKept (machine_after m steps) }
{}

/// The chain of a fresh machine has the row of its key, if there is one.
pub fn chains_begin_as_rows()
    ensures { (tables short : ℕ) (opening : List Row) (before base : ℕ) (key : Key)
        → chain (fresh tables short opening before base) key ≡ of_opening (row_at key opening) }
{}

/// What a transaction sees of a key's chain is the row of its view. So rows in order that have what is seen at each key are its
/// view.
pub fn what_is_seen_is_the_view()
    ensures row { (m : Machine) (session : ℕ) (xact : Open) (key : Key) → IsKept m → open_of m session ≡ Some xact
        → row_seen (seen m xact key) ≡ row_at key (view m xact) }
    ensures rows { (m : Machine) (session : ℕ) (xact : Open) (rows : List Row) → IsKept m → open_of m session ≡ Some xact
        → in_order m.opening ≡ true → in_order rows ≡ true → ((key : Key) → row_at key rows ≡ row_seen (seen m xact key)) → rows ≡ view m xact }
{}

/// A write is the newest version of its key, where no other open transaction has written that, and no other chain changes. A
/// call that is answered makes its write so.
pub fn a_write_is_the_newest_variation()
    ensures write { (m : Machine) (session : ℕ) (xact : Open) (w : Write) → open_of m session ≡ Some xact
        → open_writer (key_written w) (slice_set m.active session None) ≡ None
        → chain (with_write m session w) (key_written w) ≡ chain m (key_written w) ++ record { xn = Some (m.base + xact.number); write = w } ∷ [] }
    ensures others { (m : Machine) (session : ℕ) (w : Write) (key : Key) → same_key key (key_written w) ≡ false
        → chain (with_write m session w) key ≡ chain m key }
    ensures call { (m : Machine) (session : ℕ) (call : Call) (xact : Open) (w : Write) → open_of m session ≡ Some xact → write_of call ≡ Some w
        → is_refusal (reply_of m session call) ≡ false
        → chain (state_after m session call) (key_written w) ≡ chain m (key_written w) ++ record { xn = Some (m.base + xact.number); write = w } ∷ [] }
    ensures call_others { (m : Machine) (session : ℕ) (call : Call) (w : Write) (key : Key) → write_of call ≡ Some w → same_key key (key_written w) ≡ false
        → chain (state_after m session call) key ≡ chain m key }
{}

/// A begin, a read, a commit, a rollback and each call that is refused leave every chain.
pub fn calls_that_write_nothing_keep_chains()
    ensures call { (m : Machine) (session : ℕ) (call : Call) (key : Key) → IsKept m → write_of call ≡ None
        → chain (state_after m session call) key ≡ chain m key }
    ensures refused { (m : Machine) (session : ℕ) (call : Call) (key : Key) → is_refusal (reply_of m session call) ≡ true
        → chain (state_after m session call) key ≡ chain m key }
{}

/// Who was the last to commit a write of a key at or past a snapshot is told by the newest committed version of its chain. So
/// whom a write would meet is told by who holds its key and by that version.
pub fn a_conflict_stands_in_the_chain()
    ensures committed { (m : Machine) (session : ℕ) (xact : Open) (key : Key) → IsKept m → open_of m session ≡ Some xact
        → last_writer key (drop xact.snap m.ended) ≡ writer_past m xact.snap (newest_committed m key) }
    ensures conflict { (m : Machine) (session : ℕ) (xact : Open) (key : Key) → IsKept m → open_of m session ≡ Some xact
        → conflict_of m session xact key
        ≡ option_or (open_writer key (slice_set m.active session None)) (writer_past m xact.snap (newest_committed m key)) }
{}

/// A step of the sweeper takes one write from its chain, or what stands below it; no other chain changes, and an idle step
/// changes nothing. A chain has at most one base, which no call changes.
pub fn a_sweep_moves_the_base()
    ensures swept { (m : Machine) (w : Flat) → slice_get (flat m) m.swept ≡ Some w → w.place < horizon m → IsSweptFrom m w }
    ensures others { (m : Machine) (w : Flat) (key : Key) → slice_get (flat m) m.swept ≡ Some w → w.place < horizon m
        → same_key key (key_written w.write) ≡ false → chain (swept_state m) key ≡ chain m key }
    ensures idle { (m : Machine) → sweep_reply m ≡ Reply.Idle → swept_state m ≡ m }
    ensures one_base { (m : Machine) (key : Key) → length (base_of m key) ≤ 1 }
    ensures call { (m : Machine) (session : ℕ) (call : Call) (key : Key) → IsKept m → base_of (state_after m session call) key ≡ base_of m key }
{}

/// What the transactions of a store know of a stored number is what became of it in the machine.
pub fn what_became_of_a_writer()
    ensures { (m : Machine) (all : Transactions) (xn : ℕ) → Mirrors m all → xacts.standing all xn ≡ standing_in m (Some xn) }
{}

/// Of a row at the opening, a commit and a rollback after it, and two open writes: who began before the commit sees the
/// opening's row, who began after both the committed one, the writer its own last. A write of the first would meet the commit.
pub fn each_reader_sees_its_own()
    ensures chain { chain example key ≡ of None 1 ∷ of (Some 11) 2 ∷ of (Some 12) 3 ∷ of (Some 15) 4 ∷ of (Some 15) 5 ∷ [] }
    ensures early { row_seen (seen example early key) ≡ Some (row 1) }
    ensures late { row_seen (seen example late key) ≡ Some (row 2) }
    ensures writer { row_seen (seen example writer key) ≡ Some (row 5) }
    ensures meets { writer_past example early.snap (newest_committed example key) ≡ Some 1 }
    ensures meets_nobody { writer_past example late.snap (newest_committed example key) ≡ None }
{}
