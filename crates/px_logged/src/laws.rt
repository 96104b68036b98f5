//! The log tells what the machine did.

ghost use Rattle.std.specs.Prelude.{◌≡◌, ◌≢◌, ◌+◌, ◌-◌, ◌^◌, ◌<◌, ◌≤◌, ◌++◌, ℕ, List, [], length, take, true};
ghost use Rattle.px_model.specs.declared.row.Row.{Row};
ghost use Rattle.px_model.specs.Machine.{Machine, commits, fresh, published};
ghost use Rattle.px_calls.specs.declared.call.Call.{Call};
ghost use Rattle.px_calls.specs.Steps.{state_after};
ghost use Rattle.px_calls.specs.Histories.{state_after_all};
ghost use Rattle.px_told.specs.declared.change.Change.{Change};
ghost use Rattle.px_told.specs.Commits.{CountsFrom, commits_in};
ghost use Rattle.px_told.specs.Changes.{greatest_stored};
ghost use Rattle.px_told.specs.Writes.{rows_in};
ghost use Rattle.px_logged.specs.Growing.{KeepsCommitted, KeepsOpening};
ghost use Rattle.px_logged.specs.Logged.{logged, logged_by_all};
ghost use Rattle.px_logged.specs.Recounting.{Recounts};

/// A machine that starts with what a log stands for did what the log tells.
pub fn what_opens_is_its_log()
    ensures { (changes : List Change) (tables short base : ℕ) → greatest_stored 0 changes ≤ base
        → Recounts changes (fresh tables short (rows_in changes) (commits_in changes) base) }
{}

/// What a call adds to the log is what it does to the machine, and so it is with many calls after each other.
pub fn calls_add_what_they_did()
    ensures one { (changes : List Change) (m : Machine) (session : ℕ) (call : Call) → Recounts changes m
        → Recounts (changes ++ logged m session call) (state_after m session call) }
    ensures all { (changes : List Change) (m : Machine) (calls : List (ℕ × Call)) → Recounts changes m
        → Recounts (changes ++ logged_by_all m calls) (state_after_all m calls) }
    ensures counted { (changes : List Change) (m : Machine) (session : ℕ) (call : Call) → Recounts changes m → CountsFrom 0 changes
        → CountsFrom 0 (changes ++ logged m session call) }
{}

/// What was published stays, whatever is called, and only a commit that has writes publishes more.
pub fn what_was_published_stays()
    ensures published { (m : Machine) (calls : List (ℕ × Call)) (count : ℕ) → count ≤ commits m - m.before
        → published (state_after_all m calls) count ≡ published m count }
    ensures opening { (m : Machine) (calls : List (ℕ × Call)) → KeepsOpening m (state_after_all m calls) }
    ensures commits { (m : Machine) (calls : List (ℕ × Call)) → commits m ≤ commits (state_after_all m calls) }
    ensures others { (m : Machine) (session : ℕ) (call : Call) → call ≢ Call.Commit → KeepsCommitted m (state_after m session call) }
    ensures silent { (m : Machine) (session : ℕ) → logged m session Call.Commit ≡ [] → KeepsCommitted m (state_after m session Call.Commit) }
{}
