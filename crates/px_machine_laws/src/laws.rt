//! What holds of every run.

ghost use Rattle.std.specs.Prelude.{◌≡◌, ◌≢◌, ◌⊎◌, ℕ, ◌≤◌, List, length, None, Some, true, false};
ghost use Rattle.px_calls.specs.declared.call.Call.{Call};
ghost use Rattle.px_calls.specs.declared.reply.Reply.{Reply};
ghost use Rattle.px_model.specs.declared.limits.TheConstants.{MOST_VARIATIONS, MOST_WRITES};
ghost use Rattle.px_model.specs.declared.machine.Open.{Open};
ghost use Rattle.px_model.specs.declared.row.Row.{Row};
ghost use Rattle.px_model.specs.Chains.{variations_of_table};
ghost use Rattle.px_model.specs.Machine.{Machine, commits, fresh, view};
ghost use Rattle.px_model.specs.Rows.{row_at};
ghost use Rattle.px_calls.specs.Sweeps.{swept_state};
ghost use Rattle.px_calls.specs.Histories.{Step, machine_after, FirstCommitterWins};
ghost use Rattle.px_calls.specs.Steps.{fits_body, fits_key, has_table, is_full, is_refusal, open_of, reply_of, write_refusal};

/// Whatever is called, and whenever the sweeper steps, from a new store on: of two transactions that
/// committed and wrote a key in common, the later one began after the earlier one had ended.
#[tactic(auto, using(crate::proofs::EveryHistory::first_committer_wins))]
pub fn the_first_committer_wins()
    ensures { (tables short : ℕ) (opening : List Row) (before base : ℕ) (steps : List Step)
        → FirstCommitterWins (machine_after (fresh tables short opening before base) steps).ended }
{}

/// A transaction has at most 10,000 writes. One more is refused, unless a refusal comes first in the order.
#[tactic(auto, using(crate::proofs::Limits::writes_are_limited))]
pub fn a_transaction_has_so_many_writes()
    ensures { (m : Machine) (session : ℕ) (x : Open) (table : ℕ) (key : List ℕ) (tag : ℕ) (body : List ℕ)
        → open_of m session ≡ Some x → has_table m table ≡ true → fits_key key ≡ true → fits_body m body ≡ true
        → MOST_WRITES ≤ length x.writes → reply_of m session (Call.Insert table key tag body) ≡ Reply.LimitWrites }
{}

/// A table has at most so many versions. One more is refused, unless a refusal comes first in the order.
#[tactic(auto, using(crate::proofs::Limits::versions_are_limited))]
pub fn a_table_has_so_many_versions()
    ensures { (m : Machine) (session : ℕ) (x : Open) (table : ℕ) (key : List ℕ) (tag : ℕ) (body : List ℕ)
        → open_of m session ≡ Some x → write_refusal m session x table key (fits_body m body) ≡ None → row_at (table, key) (view m x) ≡ None
        → MOST_VARIATIONS ≤ variations_of_table m table → reply_of m session (Call.Insert table key tag body) ≡ Reply.TableFull MOST_VARIATIONS }
{}

/// A step of the sweeper only makes room: no table has more versions after it, and each reply of a session is the same but where a
/// table was full. There the call may be done now.
pub fn the_sweeper_only_makes_room()
    ensures versions { (m : Machine) (table : ℕ) → variations_of_table (swept_state m) table ≤ variations_of_table m table }
    ensures room { (m : Machine) (table : ℕ) → is_full m table ≡ false → is_full (swept_state m) table ≡ false }
    ensures replies { (m : Machine) (session : ℕ) (call : Call) → reply_of m session call ≢ Reply.TableFull MOST_VARIATIONS
        → reply_of (swept_state m) session call ≡ reply_of m session call }
    ensures full { (m : Machine) (session : ℕ) (call : Call) → reply_of m session call ≡ Reply.TableFull MOST_VARIATIONS
        → (reply_of (swept_state m) session call ≡ Reply.TableFull MOST_VARIATIONS) ⊎ (is_refusal (reply_of (swept_state m) session call) ≡ false) }
    ensures views { (m : Machine) (xact : Open) → view (swept_state m) xact ≡ view m xact }
    ensures commits { (m : Machine) → commits (swept_state m) ≡ commits m }
{}
