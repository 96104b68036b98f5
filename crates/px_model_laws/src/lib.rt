//! What holds of the rows and the chains of every machine.
//!
//! The definitions of `px_model` keep rows as a list and count versions over three lists. These laws tie them to what
//! they stand for: rows are a finite map, and what is counted is counted over the chains. Each function is a law; none
//! of them does anything. `proofs/RowsAsMap` and `proofs/BaseRows` have the lemmas that other crates cite.
#![tactic(auto)]

ghost use Rattle.std.specs.Prelude.{◌≡◌, true, List, map, length, filter, sum_by, if◌then◌else◌};
ghost use Rattle.px_model.specs.declared.row.Row.{Row};
ghost use Rattle.px_model.specs.declared.write.Write.{Write};
ghost use Rattle.px_model.specs.declared.machine.Open.{Open};
ghost use Rattle.px_model.specs.declared.machine.Variation.{Variation};
ghost use Rattle.px_model.specs.Rows.{Key, after, after_write, in_order, row_at};
ghost use Rattle.px_model.specs.Machine.{Machine, view};
ghost use Rattle.px_model.specs.Chains.{all_variations, chain, live, long_size, variations};
ghost use Rattle.px_model_laws.specs.Keys.{AreKeysOf, is_of, row_written};

/// A write decides what there is at its key, and leaves every other key as it was.
#[tactic(auto, using(crate::proofs::Laws::write_changes_its_key))]
pub fn a_write_changes_its_key_alone()
    ensures { (key : Key) (rows : List Row) (write : Write)
        → row_at key (after_write rows write) ≡ (if is_of key write then row_written write else row_at key rows) }
{}

/// Writes keep rows in order, with one row a key.
#[tactic(auto, using(crate::proofs::Laws::rows_stay_in_order))]
pub fn writes_keep_rows_in_order()
    ensures { (rows : List Row) (writes : List Write) → in_order rows ≡ true → in_order (after rows writes) ≡ true }
{}

/// So what `find` and `scan` answer is in order of key.
#[tactic(auto, using(crate::proofs::Laws::views_are_in_order))]
pub fn views_are_in_order()
    ensures { (m : Machine) (xact : Open) → in_order m.opening ≡ true → in_order (view m xact) ≡ true }
{}

/// Rows in order that have the same at each key are the same rows.
#[tactic(auto, using(crate::proofs::Laws::rows_are_their_answers))]
pub fn rows_in_order_are_their_answers()
    ensures { (a b : List Row) → in_order a ≡ true → in_order b ≡ true → ((key : Key) → row_at key a ≡ row_at key b) → a ≡ b }
{}

/// A chain's writes are those of its key among all versions, in their order.
#[tactic(auto, using(crate::proofs::Laws::chains_are_cut))]
pub fn a_chain_is_what_all_variations_have_of_its_key()
    ensures { (m : Machine) (key : Key) → in_order m.opening ≡ true
        → map (λ (v : Variation). v.write) (chain m key) ≡ filter (is_of key) (all_variations m) }
{}

/// The versions are the lengths of all chains together.
#[tactic(auto, using(crate::proofs::Laws::chains_count_variations))]
pub fn variations_are_the_lengths_of_all_chains()
    ensures { (m : Machine) (keys : List Key) → in_order m.opening ≡ true → AreKeysOf m keys
        → variations m ≡ sum_by (λ key. length (chain m key)) keys }
{}

/// The live bytes are those of all chains together.
#[tactic(auto, using(crate::proofs::Laws::chains_count_live))]
pub fn live_bytes_are_those_of_all_chains()
    ensures { (m : Machine) (keys : List Key) → in_order m.opening ≡ true → AreKeysOf m keys
        → live m ≡ sum_by (λ key. sum_by (λ (v : Variation). long_size m.short v.write) (chain m key)) keys }
{}
