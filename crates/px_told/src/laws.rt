ghost use Rattle.std.specs.Prelude.{◌≡◌, ◌+◌, ◌<◌, ◌≤◌, ◌++◌, [], ℕ, List, length, take};
ghost use Rattle.px_model.specs.declared.row.Row.{Row};
ghost use Rattle.px_model.specs.Rows.{after};
ghost use Rattle.px_told.specs.declared.change.Change.{Change};
ghost use Rattle.px_told.specs.Changes.{IsUntold, greatest_stored};
ghost use Rattle.px_told.specs.Commits.{CountsFrom, HasAll, HasCommitOf, commits_in, last_commit};
ghost use Rattle.px_told.specs.Writes.{committed_after, rows_in, rows_over, writes_of};

/// What two lists after each other tell of writes, of the rows after them and of numbers.
pub fn longer_lists()
    ensures writes { (xn : ℕ) (changes more : List Change) → writes_of xn (changes ++ more) ≡ writes_of xn changes ++ writes_of xn more }
    ensures rows { (rows : List Row) (changes more : List Change)
        → rows_over rows (changes ++ more) ≡ after (rows_over rows changes) (committed_after changes more) }
    ensures last { (last : ℕ) (changes more : List Change) → last_commit last (changes ++ more) ≡ last_commit (last_commit last changes) more }
    ensures greatest { (most : ℕ) (changes more : List Change)
        → greatest_stored most (changes ++ more) ≡ greatest_stored (greatest_stored most changes) more }
{}

/// No changes leave the rows as they are; over no rows are just those that a list of changes tells. The rows after two runs are those
/// after the changes of both, as long as the second run commits nobody of whom the first one tells. Nothing is told of a transaction
/// whose number is past all that are told.
pub fn rows_after_runs()
    ensures none { (rows : List Row) → rows_over rows [] ≡ rows }
    ensures first { (changes : List Change) → rows_over [] changes ≡ rows_in changes }
    ensures second { (rows : List Row) (changes more : List Change) → ((xn : ℕ) → HasCommitOf xn more → IsUntold xn changes)
        → rows_over (rows_over rows changes) more ≡ rows_over rows (changes ++ more) }
    ensures past_all { (changes : List Change) (xn : ℕ) → greatest_stored 0 changes < xn → IsUntold xn changes }
{}

/// Commits stay numbered on where lists are joined and cut, and there are no more of them than changes.
pub fn commits_are_numbered_on()
    ensures joined { (last : ℕ) (changes more : List Change) → CountsFrom last changes → CountsFrom (last_commit last changes) more
        → CountsFrom last (changes ++ more) }
    ensures front { (last : ℕ) (changes more : List Change) → CountsFrom last (changes ++ more) → CountsFrom last changes }
    ensures few { (last : ℕ) (changes : List Change) → CountsFrom last changes → last_commit last changes ≤ last + length changes }
{}

/// The first changes of a list that has each commit among the durable ones stand for what the whole list does.
pub fn a_front_with_each_commit_has_all()
    ensures { (durable kept : ℕ) (changes : List Change) → CountsFrom 0 changes → commits_in (take durable changes) ≡ commits_in changes
        → durable ≤ kept → HasAll kept changes }
{}
