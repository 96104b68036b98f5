//! Worked examples: what the machine replies to short scripts, and what it counts then.
//!
//! Each function is a law about the definitions, which holds by computing them; none of them does anything.
#![tactic(auto, unfolding(px_model::specs::Rows::key_cmp, px_model::specs::Rows::same_key, px_model::specs::Machine::fresh, px_model::specs::Machine::commits, px_model::specs::Machine::opens, px_model::specs::Machine::view, px_model::specs::Machine::horizon, px_model::specs::Machine::published, px_model::specs::Chains::base_rows, px_model::specs::Chains::all_variations, px_model::specs::Chains::variations, px_model::specs::Chains::unswept, px_model::specs::Chains::live, px_model::specs::Chains::variations_of_table, crate::specs::Sweeps::sweep_reply, crate::specs::Sweeps::swept_state, crate::specs::Steps::begins_spent, crate::specs::Steps::has_table, crate::specs::Steps::fits_key, crate::specs::Steps::longest_body, crate::specs::Steps::fits_body, crate::specs::Steps::conflict_of, crate::specs::Steps::write_refusal, crate::specs::Steps::is_full, crate::specs::Steps::kept_row, crate::specs::Steps::rows_of_table, crate::specs::Steps::rows_with_tag, crate::specs::Steps::reply_of, crate::specs::Steps::state_when_done, crate::specs::Steps::state_after,))]

ghost use Rattle.std.specs.Prelude.{◌≡◌, ◌∷◌, [], false};
ghost use Rattle.px_model.specs.Chains.{variations_of_table};
ghost use Rattle.px_model.specs.Machine.{horizon, published};
ghost use Rattle.px_calls.specs.Histories.{machine_after, replies_to};
ghost use Rattle.px_calls.specs.Steps.{is_full};
ghost use Rattle.px_calls.specs.Worked.{
  alone,
  alone_replies,
  changed_tag,
  changed_tag_replies,
  counts_of,
  kept_for_a_snapshot,
  kept_for_a_snapshot_counts,
  kept_for_a_snapshot_replies,
  last_begin_replies,
  last_number_replies,
  last_reader_ends,
  last_reader_ends_counts,
  last_reader_ends_replies,
  late_writer,
  late_writer_replies,
  later_commit,
  later_commit_replies,
  new_store,
  one_begin_left,
  one_deletion,
  one_deletion_counts,
  one_number_left,
  opened_counts,
  opened_store,
  refusals,
  refusals_replies,
  overtaken_twice,
  overtaken_twice_replies,
  rolled_back,
  rolled_back_counts,
  rolled_back_replies,
  rolled_back_swept_counts,
  rolled_back_swept_replies,
  too_long,
  too_long_replies,
  two_begins,
  two_sweeps,
  two_writers,
  two_writers_replies,
  waiting_update,
  waiting_update_counts,
  waiting_update_replies,
  zeros_at,
};

pub fn one_session_reads_what_it_wrote()
    ensures { replies_to new_store alone ≡ alone_replies }
{}

pub fn a_snapshot_does_not_see_a_later_commit()
    ensures { replies_to new_store later_commit ≡ later_commit_replies }
{}

pub fn the_first_writer_wins()
    ensures { replies_to new_store two_writers ≡ two_writers_replies }
{}

pub fn a_later_committer_is_named()
    ensures { replies_to new_store late_writer ≡ late_writer_replies }
{}

pub fn the_last_of_two_later_committers_is_named()
    ensures { replies_to new_store overtaken_twice ≡ overtaken_twice_replies }
{}

pub fn what_was_rolled_back_waits_for_the_sweeper()
    ensures replies { replies_to new_store rolled_back ≡ rolled_back_replies }
    ensures counts { counts_of (machine_after new_store rolled_back) ≡ rolled_back_counts }
    ensures sweeps { replies_to (machine_after new_store rolled_back) two_sweeps ≡ rolled_back_swept_replies }
    ensures swept { counts_of (machine_after (machine_after new_store rolled_back) two_sweeps) ≡ rolled_back_swept_counts }
{}

pub fn the_sweeper_keeps_what_a_snapshot_may_read()
    ensures replies { replies_to new_store kept_for_a_snapshot ≡ kept_for_a_snapshot_replies }
    ensures counts { counts_of (machine_after new_store kept_for_a_snapshot) ≡ kept_for_a_snapshot_counts }
{}

pub fn an_update_waits_for_the_snapshot_before_it()
    ensures replies { replies_to new_store waiting_update ≡ waiting_update_replies }
    ensures counts { counts_of (machine_after new_store waiting_update) ≡ waiting_update_counts }
    ensures ends { replies_to (machine_after new_store waiting_update) last_reader_ends ≡ last_reader_ends_replies }
    ensures swept { counts_of (machine_after (machine_after new_store waiting_update) last_reader_ends) ≡ last_reader_ends_counts }
{}

pub fn rows_are_found_by_the_tag_of_the_snapshot()
    ensures { replies_to new_store changed_tag ≡ changed_tag_replies }
{}

pub fn each_refusal_comes_in_its_place()
    ensures { replies_to new_store refusals ≡ refusals_replies }
{}

pub fn the_key_is_measured_before_the_body()
    ensures { replies_to new_store too_long ≡ too_long_replies }
{}

pub fn begins_end_with_the_stored_numbers()
    ensures { replies_to one_number_left two_begins ≡ last_number_replies }
{}

pub fn begins_end_with_their_count()
    ensures { replies_to one_begin_left two_begins ≡ last_begin_replies }
{}

pub fn an_opened_store_counts_its_rows()
    ensures opened { counts_of opened_store ≡ opened_counts }
    ensures deleted { counts_of (machine_after opened_store one_deletion) ≡ one_deletion_counts }
    ensures horizon { horizon (machine_after opened_store one_deletion) ≡ 1 }
    ensures first_rows { published (machine_after opened_store one_deletion) 0 ≡ zeros_at 1 64 ∷ zeros_at 2 65 ∷ [] }
    ensures last_rows { published (machine_after opened_store one_deletion) 1 ≡ zeros_at 2 65 ∷ [] }
    ensures versions { variations_of_table (machine_after opened_store one_deletion) 1 ≡ 3 }
    ensures room { is_full (machine_after opened_store one_deletion) 1 ≡ false }
{}
