//! What holds of every machine.

ghost use Rattle.std.specs.Prelude.{◌≡◌, ◌-◌, ℕ, true};
ghost use Rattle.px_model.specs.Machine.{Machine, commits, published, view};
ghost use Rattle.px_calls.specs.declared.call.Call.{Call};
ghost use Rattle.px_calls.specs.declared.reply.Reply.{Reply};
ghost use Rattle.px_calls.specs.Steps.{is_refusal, new_transaction, reply_of, state_after};

/// A refused call leaves the machine as it was.
#[tactic(auto, using(crate::proofs::EveryMachine::refusal_changes_nothing))]
pub fn a_refusal_changes_nothing()
    ensures { (m : Machine) (session : ℕ) (call : Call) → is_refusal (reply_of m session call) ≡ true → state_after m session call ≡ m }
{}

/// The number that a commit replies counts this commit too.
#[tactic(auto, using(crate::proofs::EveryMachine::commit_counts_itself))]
pub fn a_commit_counts_itself()
    ensures { (m : Machine) (session count : ℕ) → reply_of m session Call.Commit ≡ Reply.Committed count → commits (state_after m session Call.Commit) ≡ count }
{}

/// A transaction that begins now sees the rows after all commits.
#[tactic(auto, using(crate::proofs::EveryMachine::new_transaction_sees_all))]
pub fn a_new_transaction_sees_every_commit()
    ensures { (m : Machine) → view m (new_transaction m) ≡ published m (commits m - m.before) }
{}
