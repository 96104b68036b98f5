ghost use Rattle.std.specs.Prelude.{◌≡◌, ◌≢◌, ◌<◌, ◌≤◌, ◌+◌, ◌-◌, Bool, Contains, ℕ, List, [], ◌∷◌, All, None, Some, false, map, option_map, reverse, slice_get, true};
ghost use Rattle.px_calls.specs.Steps.{is_refusal, open_of, reply_of, state_after};
ghost use Rattle.px_calls.specs.declared.call.Call.{Call};
ghost use Rattle.px_calls.specs.declared.call.Call.TheVariants.{Commit, Rollback};
ghost use Rattle.px_calls.specs.Sweeps.{swept_state};
ghost use Rattle.px_cells.specs.declared.header.Header.{Header};
ghost use Rattle.px_cells.specs.declared.slot.Slot.{Slot};
ghost use Rattle.px_chain.specs.Sound.{IsUsedRow, key_of};
ghost use Rattle.px_chain_laws.specs.Kept.{IsKept};
ghost use Rattle.px_chain_laws.specs.Reading.{seen};
ghost use Rattle.px_chain_laws.specs.Writing as calls;
ghost use Rattle.px_history.specs.Steps.{IsStep, Step, after_step};
ghost use Rattle.px_history.specs.Store.{IsOpen, IsTidied, Store, nothing, versions_of};
ghost use Rattle.px_history.specs.Writers.{HaveOneWriter, IsAlone};
ghost use Rattle.px_model.specs.Chains.{chain};
ghost use Rattle.px_model.specs.Machine.{Machine, commits, flat, fresh, horizon, published, view};
ghost use Rattle.px_model.specs.declared.machine.Flat.{Flat};
ghost use Rattle.px_model.specs.Rows.{Key, in_order, key_written, row_at};
ghost use Rattle.px_model.specs.declared.machine.Open.{Open};
ghost use Rattle.px_model.specs.declared.row.Row.{Row};
ghost use Rattle.px_model.specs.declared.write.Write.{Write};
ghost use Rattle.px_machine_laws.specs.Seen.{row_left};
ghost use Rattle.px_shown.specs.Example.{row_with};
ghost use Rattle.px_shown.specs.Parts.{AgreeInChains, Parts};
ghost use Rattle.px_shown.specs.Shown.{Shows, write_of};
ghost use Rattle.px_shown.specs.Tables.{AreSound};
ghost use Rattle.px_tables.specs.Linking.{FitsSlot, version_of};
ghost use Rattle.px_xacts.specs.Transactions as xacts;
ghost use Rattle.px_xacts.specs.Transactions.{Transactions};
ghost use Rattle.px_xacts.specs.declared.answers.Due.{Due};
ghost use Rattle.px_xacts_laws.specs.Mirrors.{Mirrors};
ghost use Rattle.px_cell_laws.specs.Holding.{HoldsChains, variation_in};
ghost use Rattle.px_cell_laws.specs.Locating.{AreWrittenAt, without_first, write_at};
ghost use Rattle.px_cell_laws.specs.Reading.{slot_seen};
ghost use Rattle.px_cell_laws.specs.Sweeping.{IsSweptAt, sweep_count_of, sweep_of};
ghost use Rattle.px_cell_laws.specs.Worked.{begun, body, committed, deleted, deleted_row, new_machine, no_row, one_row, one_version, swept_once, swept_twice, written};
ghost use Rattle.px_cell_laws.specs.Writing.{IsWriteBy, is_end};

/// The versions of a row are the machine's chain of its key, the newest first; a key without a row has no chain.
pub fn a_key_has_the_chain_of_its_row()
    ensures row { (parts : Parts) (m : Machine) (store : Store) (t row : ℕ) → HoldsChains parts m store → IsUsedRow (store.tables t) row
        → reverse (chain m (t, key_of (store.tables t) row)) ≡ map (variation_in parts m.base t) (versions_of store t row) }
    ensures none { (parts : Parts) (m : Machine) (store : Store) (key : Key) → HoldsChains parts m store
        → ((row : ℕ) → IsUsedRow (store.tables key.0) row → key_of (store.tables key.0) row ≢ key.1)
        → chain m key ≡ [] }
{}

/// A transaction that is open may still commit, as may each one that is still to begin.
pub fn open_transactions_may_commit()
    ensures begun { (parts : Parts) (m : Machine) (store : Store) (session : ℕ) (xact : Open) → HoldsChains parts m store → IsKept m
        → open_of m session ≡ Some xact → IsOpen store (m.base + xact.number) }
    ensures unbegun { (parts : Parts) (m : Machine) (store : Store) (xn : ℕ) → HoldsChains parts m store → IsKept m → m.base + m.begun < xn
        → IsOpen store xn }
{}

/// A store in which nothing is left to tidy holds the chains of a fresh machine with the rows that it shows, where the numbers
/// of its versions go up to the base, and no transaction past that is done or over. Its rows have no writer.
pub fn a_tidied_store_holds_a_fresh_machine()
    ensures chains { (parts : Parts) (tables short : ℕ) (rows : List Row) (before base : ℕ) (store : Store)
        → AreSound short store.tables store.layouts → IsTidied store → Shows parts store.tables store.layouts store.done rows
        → ((t row : ℕ) → IsUsedRow (store.tables t) row → All (λ slot. slot.xn ≤ base) (versions_of store t row))
        → ((xn : ℕ) → base < xn → IsOpen store xn) → HoldsChains parts (fresh tables short rows before base) store }
    ensures writers { (short : ℕ) (store : Store) → AreSound short store.tables store.layouts → IsTidied store
        → HaveOneWriter store }
{}

/// A call that writes and is answered goes with the link of its version: that may follow, no other transaction that may still
/// commit has a version in that row, and the store after it holds the chains after the call. The write fits a slot, and the version
/// that a table in memory prepares for it is such a one.
pub fn a_write_is_a_put()
    ensures step { (parts : Parts) (m : Machine) (store : Store) (session : ℕ) (call : Call) (t : ℕ) (header : Header) (slot : Slot)
        → HoldsChains parts m store → IsKept m → IsWriteBy parts m store session call t header slot
        → IsStep parts m.short store (Step.put t header slot) }
    ensures alone { (parts : Parts) (m : Machine) (store : Store) (session : ℕ) (call : Call) (t : ℕ) (header : Header) (slot : Slot)
        → HoldsChains parts m store → IsKept m → IsWriteBy parts m store session call t header slot
        → IsAlone store (Step.put t header slot) }
    ensures chains { (parts : Parts) (m : Machine) (store : Store) (session : ℕ) (call : Call) (t : ℕ) (header : Header) (slot : Slot)
        → HoldsChains parts m store → IsKept m → IsWriteBy parts m store session call t header slot
        → HoldsChains parts (state_after m session call) (after_step store (Step.put t header slot)) }
    ensures fits { (m : Machine) (session : ℕ) (call : Call) (w : Write) → calls.write_of call ≡ Some w
        → is_refusal (reply_of m session call) ≡ false → FitsSlot m.short w }
    ensures version { (parts : Parts) (xn next row : ℕ) (w : Write) → write_of parts (key_written w).0 (version_of xn next row w) ≡ w }
{}

/// An end of a transaction with writes goes with its commit or its rollback: that may follow, and the store after it holds the
/// chains after the call.
pub fn an_end_is_a_step()
    ensures commit { (parts : Parts) (m : Machine) (store : Store) (session : ℕ) (xact : Open) → HoldsChains parts m store → IsKept m
        → HaveOneWriter store → open_of m session ≡ Some xact
        → IsStep parts m.short store (Step.commit (m.base + xact.number) (commits m + 1)) }
    ensures committed { (parts : Parts) (m : Machine) (store : Store) (session : ℕ) (xact : Open) → HoldsChains parts m store → IsKept m
        → open_of m session ≡ Some xact → xact.writes ≢ []
        → HoldsChains parts (state_after m session Commit) (after_step store (Step.commit (m.base + xact.number) (commits m + 1))) }
    ensures rollback { (parts : Parts) (m : Machine) (store : Store) (session : ℕ) (xact : Open) → HoldsChains parts m store → IsKept m
        → open_of m session ≡ Some xact → IsStep parts m.short store (Step.rollback (m.base + xact.number)) }
    ensures rolled_back { (parts : Parts) (m : Machine) (store : Store) (session : ℕ) (xact : Open) → HoldsChains parts m store → IsKept m
        → open_of m session ≡ Some xact → xact.writes ≢ []
        → HoldsChains parts (state_after m session Rollback) (after_step store (Step.rollback (m.base + xact.number))) }
{}

/// A begin, a read, a call that is refused and an end of a transaction without writes leave the store as it is, and it holds the
/// chains after the call.
pub fn other_calls_leave_the_cells()
    ensures refused { (parts : Parts) (m : Machine) (store : Store) (session : ℕ) (call : Call) → HoldsChains parts m store
        → is_refusal (reply_of m session call) ≡ true → HoldsChains parts (state_after m session call) store }
    ensures reads { (parts : Parts) (m : Machine) (store : Store) (session : ℕ) (call : Call) → HoldsChains parts m store → IsKept m
        → calls.write_of call ≡ None → is_end call ≡ false → HoldsChains parts (state_after m session call) store }
    ensures wrote_nothing { (parts : Parts) (m : Machine) (store : Store) (session : ℕ) (call : Call) (xact : Open)
        → HoldsChains parts m store → IsKept m → is_end call ≡ true → open_of m session ≡ Some xact → xact.writes ≡ []
        → HoldsChains parts (state_after m session call) store }
{}

/// The write that is swept next made a version that still stands in the row of its key; behind that stands the base alone, if
/// there is one.
pub fn a_swept_write_has_its_version()
    ensures there { (parts : Parts) (m : Machine) (store : Store) (w : Flat) → HoldsChains parts m store
        → slice_get (flat m) m.swept ≡ Some w → w.place < horizon m
        → (row place : ℕ) × IsSweptAt m store w (key_written w.write).0 row place }
    ensures slot { (parts : Parts) (m : Machine) (store : Store) (w : Flat) (t row place : ℕ) (slot : Slot) → HoldsChains parts m store
        → IsSweptAt m store w t row place → slice_get (versions_of store t row) place ≡ Some slot
        → (slot.xn ≡ m.base + w.number) × (write_of parts t slot ≡ w.write) }
{}

/// A sweep goes with an unlink, of one version or two: behind a row that committed the base goes; a deletion that committed goes
/// with the base; what was rolled back goes alone. The unlink may follow, and the store after it holds the chains after the
/// sweep. Where nothing goes, the store holds them as it is.
pub fn a_sweep_is_an_unlink()
    ensures moves { (parts : Parts) (m : Machine) (store : Store) (w : Flat) (t row place : ℕ) → HoldsChains parts m store → IsKept m
        → IsSweptAt m store w t row place → 1 ≤ sweep_count_of store w t row place
        → IsStep parts m.short store (sweep_of store w t row place) }
    ensures chains { (parts : Parts) (m : Machine) (store : Store) (w : Flat) (t row place : ℕ) → HoldsChains parts m store → IsKept m
        → IsSweptAt m store w t row place → 1 ≤ sweep_count_of store w t row place
        → HoldsChains parts (swept_state m) (after_step store (sweep_of store w t row place)) }
    ensures nothing { (parts : Parts) (m : Machine) (store : Store) (w : Flat) (t row place : ℕ) → HoldsChains parts m store → IsKept m
        → IsSweptAt m store w t row place → sweep_count_of store w t row place ≡ 0 → HoldsChains parts (swept_state m) store }
    ensures few { (m : Machine) (store : Store) (w : Flat) (t row place : ℕ) → IsSweptAt m store w t row place
        → sweep_count_of store w t row place ≤ 2 }
{}

/// A move of a part leaves the chains that the cells hold. Of what lies in the data logs only the references of versions in the
/// chains are asked.
pub fn a_move_keeps_the_chains()
    ensures chains { (parts : Parts) (m : Machine) (store : Store) (t number log place : ℕ) → HoldsChains parts m store
        → IsStep parts m.short store (Step.move t number log place)
        → HoldsChains parts m (after_step store (Step.move t number log place)) }
    ensures references { (parts others : Parts) (m : Machine) (store : Store)
        → AgreeInChains parts others store.tables store.layouts → HoldsChains parts m store → HoldsChains others m store }
{}

/// Each unswept write names its row pointer and its slot: the chain of a row begins with the slots of the unswept writes of its
/// key, the newest first. So it is at an opening, and so it stays with each call, each sweep and each move, where a write is kept
/// with the place at which its version is linked.
pub fn unswept_writes_name_their_slots()
    ensures opening { (base : ℕ) (store : Store) → AreWrittenAt (xacts.fresh base) store }
    ensures begin { (all : Transactions) (store : Store) (session frames : ℕ) → AreWrittenAt all store
        → AreWrittenAt (xacts.after_begin all session frames) store }
    ensures write { (parts : Parts) (m : Machine) (all : Transactions) (store : Store) (session : ℕ) (call : Call) (t : ℕ) (header : Header) (slot : Slot)
        → Mirrors m all → HoldsChains parts m store → AreWrittenAt all store → IsWriteBy parts m store session call t header slot
        → AreWrittenAt (xacts.with_write all session (write_at store t slot)) (after_step store (Step.put t header slot)) }
    ensures end { (m : Machine) (all : Transactions) (store : Store) (session : ℕ) (committed : Bool) (xact : Open)
        → Mirrors m all → IsKept m → open_of m session ≡ Some xact → AreWrittenAt all store
        → AreWrittenAt (xacts.ended all session committed) store }
    ensures commit { (all : Transactions) (store : Store) (xn number : ℕ) → AreWrittenAt all store
        → AreWrittenAt all (after_step store (Step.commit xn number)) }
    ensures rollback { (all : Transactions) (store : Store) (xn : ℕ) → AreWrittenAt all store
        → AreWrittenAt all (after_step store (Step.rollback xn)) }
    ensures moved { (all : Transactions) (store : Store) (t number log place : ℕ) → AreWrittenAt all store
        → AreWrittenAt all (after_step store (Step.move t number log place)) }
    ensures sweep { (parts : Parts) (m : Machine) (all : Transactions) (store : Store) (w : Flat) (t row place : ℕ)
        → Mirrors m all → HoldsChains parts m store → IsKept m → AreWrittenAt all store
        → IsSweptAt m store w t row place → 1 ≤ sweep_count_of store w t row place
        → AreWrittenAt (without_first all) (after_step store (sweep_of store w t row place)) }
    ensures nothing { (parts : Parts) (m : Machine) (all : Transactions) (store : Store) (w : Flat) (t row place : ℕ)
        → Mirrors m all → HoldsChains parts m store → AreWrittenAt all store
        → IsSweptAt m store w t row place → AreWrittenAt (without_first all) store }
{}

/// What is due names the version that is swept next: its slot stands in the chain of its row pointer, and the place at which it
/// is found there is the version's. Its number, and whether it committed, are those of the machine's write.
pub fn what_is_due_is_found_in_its_row()
    ensures there { (parts : Parts) (m : Machine) (all : Transactions) (store : Store) (due : Due)
        → Mirrors m all → HoldsChains parts m store → AreWrittenAt all store → xacts.due all ≡ Some due
        → IsUsedRow (store.tables due.table) due.row × Contains ((store.layouts due.table).chain due.row) due.slot }
    ensures swept { (parts : Parts) (m : Machine) (all : Transactions) (store : Store) (due : Due) (place : ℕ)
        → Mirrors m all → HoldsChains parts m store → AreWrittenAt all store → xacts.due all ≡ Some due
        → slice_get ((store.layouts due.table).chain due.row) place ≡ Some due.slot
        → (w : Flat) × IsSweptAt m store w due.table due.row place × (w.number ≡ due.number) × (w.committed ≡ due.committed) }
{}

/// The cells show the rows that are committed now.
pub fn committed_rows_are_shown()
    ensures { (parts : Parts) (m : Machine) (store : Store) → HoldsChains parts m store → IsKept m → in_order m.opening ≡ true
        → Shows parts store.tables store.layouts store.done (published m (commits m - m.before)) }
{}

/// The slot of a row that a transaction sees holds what it sees of the key's chain, and has the row of its view. What became of
/// the writers is what the store's transactions know. A key without a row has none in the view.
pub fn a_reader_sees_its_view_in_the_cells()
    ensures variation { (parts : Parts) (m : Machine) (all : Transactions) (store : Store) (xact : Open) (t row : ℕ)
        → HoldsChains parts m store → Mirrors m all → IsUsedRow (store.tables t) row
        → option_map (λ slot. variation_in parts m.base t ((store.tables t).slot slot)) (slot_seen all store (m.base + xact.number) xact.snap t row)
        ≡ seen m xact (t, key_of (store.tables t) row) }
    ensures row { (parts : Parts) (m : Machine) (all : Transactions) (store : Store) (session : ℕ) (xact : Open) (t row : ℕ)
        → HoldsChains parts m store → IsKept m → Mirrors m all → open_of m session ≡ Some xact
        → IsUsedRow (store.tables t) row
        → row_left None (option_map (λ slot. write_of parts t ((store.tables t).slot slot)) (slot_seen all store (m.base + xact.number) xact.snap t row))
        ≡ row_at (t, key_of (store.tables t) row) (view m xact) }
    ensures none { (parts : Parts) (m : Machine) (store : Store) (session : ℕ) (xact : Open) (key : Key) → HoldsChains parts m store
        → IsKept m → open_of m session ≡ Some xact
        → ((row : ℕ) → IsUsedRow (store.tables key.0) row → key_of (store.tables key.0) row ≢ key.1)
        → row_at key (view m xact) ≡ None }
{}

/// A new store holds the chains of a new machine. Once a transaction has begun it still does; with its version linked it does so
/// after the write, and with its commit after that, and then it shows the row. Once another transaction has deleted the row, the
/// sweep of the first write takes nothing, and with that of the deletion both versions go.
pub fn a_small_life()
    ensures new { (parts : Parts) → HoldsChains parts new_machine nothing }
    ensures begun { (parts : Parts) → HoldsChains parts begun nothing }
    ensures written { (parts : Parts) → HoldsChains parts written one_version }
    ensures committed { (parts : Parts) → HoldsChains parts committed one_row }
    ensures shown { (parts : Parts) → Shows parts one_row.tables one_row.layouts one_row.done (row_with body ∷ []) }
    ensures deleted { (parts : Parts) → HoldsChains parts deleted deleted_row }
    ensures swept_once { (parts : Parts) → HoldsChains parts swept_once deleted_row }
    ensures swept_twice { (parts : Parts) → HoldsChains parts swept_twice no_row }
    ensures gone { (parts : Parts) → Shows parts no_row.tables no_row.layouts no_row.done [] }
{}
