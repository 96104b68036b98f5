//! The cells of a store hold the chains of the machine, before and after each call and each step of the sweeper.
//!
//! The machine says what a store means: it has a chain of versions for each key. A store's cells hold these chains in its
//! tables' slots. A call that writes goes with one step of the store, the link of a version; an end of a transaction with
//! writes with a commit or a rollback; every other call with none. A step of the sweeper goes with an unlink of one version or
//! two, or with none. A move of a part changes no chain. Nothing here runs.
//!
//! - `laws`: a tidied store holds a fresh machine's chains; each call and its step keep this, as does each sweep with its unlink and
//!   each move; the transactions know where their unswept writes stand; the committed rows are shown, and a reader sees its view in
//!   the cells.
//!
//! `specs/Holding` says when cells hold the chains, `specs/Writing` which version a call writes, `specs/Sweeping` where the version
//! stands that is swept next and which ones go with it, `specs/Locating` where the transactions' writes stand, `specs/Reading` what
//! a reader sees.
#![tactic(auto)]

mod laws;

pub use laws::{
    a_key_has_the_chain_of_its_row, a_move_keeps_the_chains, a_reader_sees_its_view_in_the_cells,
    a_small_life, a_sweep_is_an_unlink, a_swept_write_has_its_version,
    a_tidied_store_holds_a_fresh_machine, a_write_is_a_put, an_end_is_a_step,
    committed_rows_are_shown, open_transactions_may_commit, other_calls_leave_the_cells,
    unswept_writes_name_their_slots, what_is_due_is_found_in_its_row,
};
