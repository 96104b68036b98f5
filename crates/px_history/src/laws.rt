ghost use Rattle.std.specs.Prelude.{◌≡◌, ◌+◌, ◌<◌, ◌≤◌, ◌↔◌, ◌++◌, [], ◌∷◌, ℕ, All, List, false, length, map, take, true};
ghost use Rattle.px_cells.specs.Form.{is_short};
ghost use Rattle.px_cells.specs.declared.header.Header.{Header};
ghost use Rattle.px_cells.specs.declared.slot.Slot.{Slot};
ghost use Rattle.px_chain.specs.Cells.{cell_of};
ghost use Rattle.px_chain.specs.Sound.{IsSound, IsUsedRow, Layout};
ghost use Rattle.px_chain.specs.Table.{Table, laid};
ghost use Rattle.px_change.specs.Grammar.{may_hold};
ghost use Rattle.px_change.specs.declared.change.Change.{Change as CellChange};
ghost use Rattle.px_history.specs.Base.{IsBase, done_before, ended_before};
ghost use Rattle.px_told.specs.Writes.{rows_over};
ghost use Rattle.px_history.specs.Example.{long_body, second_changes, second_run, small_base, small_history, two_places};
ghost use Rattle.px_history.specs.Fitting.{FitsFrame, IsStoredNumber, IsWritten};
ghost use Rattle.px_history.specs.Steps.{AgreeOnSteps, History, IsStep, IsUnlink, LeavesOpen, Step, after_step, after_steps, layout_linked};
ghost use Rattle.px_history.specs.Store.{IsOpen, IsTidied, Store, nothing, versions_of};
ghost use Rattle.px_history.specs.Told.{Agrees, IsNumberedOn, last_after, told, told_by};
ghost use Rattle.px_told.specs.Changes.{AreUntoldFrom, IsUntold};
ghost use Rattle.px_told.specs.Commits.{HasCommitOf};
ghost use Rattle.px_history.specs.Writers.{AreAlone, HaveOneWriter, IsAlone};
ghost use Rattle.px_history.specs.Written.{AreChangesOf, IsChangeOf, cells_for, cells_in, change_of, changes_of, contents_by, contents_in};
ghost use Rattle.px_model.specs.declared.row.Row.{Row};
ghost use Rattle.px_model.specs.declared.limits.TheConstants.{MOST_TABLES};
ghost use Rattle.px_shown.specs.Changes.{IsLink};
ghost use Rattle.px_shown.specs.Example.{row_with};
ghost use Rattle.px_shown.specs.Parts.{AgreeInChains, Parts};
ghost use Rattle.px_shown.specs.Shown.{Shows};
ghost use Rattle.px_shown.specs.Tables.{AreSound};
ghost use Rattle.px_shown.specs.Writes.{AreWritesOf, HasNoneOf};
ghost use Rattle.px_told.specs.declared.change.Change.{Change};
ghost use Rattle.px_told.specs.Commits.{CountsFrom, last_commit};
ghost use Rattle.px_told.specs.Changes.{greatest_stored};
ghost use Rattle.px_told.specs.Writes.{rows_in, writes_of};

/// Bases, from which steps may go on. Tables of which nothing was ever used are one. What a history leaves is one for a later
/// number, where nothing is told of that one and of those above: after a crash, which ends each transaction with a lower number,
/// and as it stands where each of these has ended. Unlinks leave a base for the same number, with the same rows. A tidied base is
/// one by its cells alone: each of its versions is shown.
pub fn bases()
    ensures nothing { (parts : Parts) (short : ℕ) → IsBase parts short 0 [] nothing }
    ensures crashed { (parts : Parts) (short next later : ℕ) (rows : List Row) (base store : Store) (steps : List Step)
        → IsBase parts short next rows base → History parts short base steps store
        → next ≤ later → AreUntoldFrom later (told_by parts steps)
        → IsBase parts short later (rows_over rows (told_by parts steps)) (ended_before later store) }
    ensures closed { (parts : Parts) (short next later : ℕ) (rows : List Row) (base store : Store) (steps : List Step)
        → IsBase parts short next rows base → History parts short base steps store
        → next ≤ later → AreUntoldFrom later (told_by parts steps) → ((xn : ℕ) → IsOpen store xn → later ≤ xn)
        → IsBase parts short later (rows_over rows (told_by parts steps)) store }
    ensures unlinked { (parts : Parts) (short next : ℕ) (rows : List Row) (base store : Store) (steps : List Step)
        → IsBase parts short next rows base → History parts short base steps store → All IsUnlink steps → IsBase parts short next rows store }
    ensures tidied { (parts : Parts) (short next : ℕ) (rows : List Row) (base : Store) → IsBase parts short next rows base → IsTidied base
        → IsBase parts short next rows (done_before next base) }
{}

/// The cells of every history are sound.
pub fn histories_are_sound()
    ensures { (parts : Parts) (short next : ℕ) (rows : List Row) (base store : Store) (steps : List Step) → IsBase parts short next rows base
        → History parts short base steps store → AreSound short store.tables store.layouts }
{}

/// A history shows the rows after its changes, and of each transaction that may still commit the chains have just the writes that
/// they tell. Unlinks tell nothing.
pub fn a_history_shows_what_it_tells()
    ensures shows { (parts : Parts) (short next : ℕ) (rows : List Row) (base store : Store) (steps : List Step)
        → IsBase parts short next rows base
        → History parts short base steps store → Shows parts store.tables store.layouts store.done (rows_over rows (told_by parts steps)) }
    ensures wrote { (parts : Parts) (short next : ℕ) (rows : List Row) (base store : Store) (steps : List Step) (xn : ℕ)
        → IsBase parts short next rows base
        → History parts short base steps store → IsOpen store xn
        → AreWritesOf parts xn store.tables store.layouts (writes_of xn (told_by parts steps)) }
    ensures unlinks { (parts : Parts) (steps : List Step) → All IsUnlink steps → told_by parts steps ≡ [] }
{}

/// A transaction with the base's next number or a greater one is done just where a Commit of it is told, and no other Commit is
/// told; one with a lower number just where it was done in the base. One that is done isn't over.
pub fn done_is_told()
    ensures told { (parts : Parts) (short next : ℕ) (rows : List Row) (base store : Store) (steps : List Step) (xn : ℕ)
        → IsBase parts short next rows base
        → History parts short base steps store → ((next ≤ xn) × (store.done xn ≡ true)) ↔ HasCommitOf xn (told_by parts steps) }
    ensures earlier { (parts : Parts) (short next : ℕ) (rows : List Row) (base store : Store) (steps : List Step) (xn : ℕ)
        → IsBase parts short next rows base
        → History parts short base steps store → xn < next → store.done xn ≡ base.done xn }
    ensures not_over { (parts : Parts) (short next : ℕ) (rows : List Row) (base store : Store) (steps : List Step) (xn : ℕ)
        → IsBase parts short next rows base
        → History parts short base steps store → store.done xn ≡ true → store.over xn ≡ false }
{}

/// A base agrees with no changes; and after a step a store that agreed agrees with what the step tells too.
pub fn a_step_agrees()
    ensures none { (parts : Parts) (short next : ℕ) (rows : List Row) (base : Store)
        → IsBase parts short next rows base → Agrees parts short next rows base [] base }
    ensures step { (parts : Parts) (short next : ℕ) (rows : List Row) (base store : Store) (changes : List Change) (step : Step)
        → Agrees parts short next rows base changes store → IsStep parts short store step
        → Agrees parts short next rows base (changes ++ told parts step) (after_step store step) }
{}

/// Each front of a history is one, and shows what it tells, which is a front of what is told. Its changes are that front of the
/// changes.
pub fn fronts_are_histories()
    ensures history { (parts : Parts) (short : ℕ) (base store : Store) (steps : List Step) (count : ℕ) → History parts short base steps store
        → History parts short base (take count steps) (after_steps base (take count steps)) }
    ensures shows { (parts : Parts) (short next : ℕ) (rows : List Row) (base store : Store) (steps : List Step) (count : ℕ)
        → IsBase parts short next rows base
        → History parts short base steps store
        → let front = after_steps base (take count steps) in
        Shows parts front.tables front.layouts front.done (rows_over rows (told_by parts (take count steps))) }
    ensures told { (parts : Parts) (steps : List Step) (count : ℕ)
        → told_by parts (take count steps) ≡ take (length (told_by parts (take count steps))) (told_by parts steps) }
    ensures changes { (short : ℕ) (store : Store) (steps : List Step) (count : ℕ)
        → changes_of short store (take count steps) ≡ take count (changes_of short store steps) }
    ensures logged { (short : ℕ) (store : Store) (steps : List Step) (changes : List CellChange) (count : ℕ)
        → AreChangesOf short store steps changes → AreChangesOf short store (take count steps) (take count changes) }
{}

/// A history and its changes grow by a step that may follow. So do the changes that the log has for it.
pub fn histories_grow()
    ensures none { (parts : Parts) (short : ℕ) (base : Store) → History parts short base [] base }
    ensures step { (parts : Parts) (short : ℕ) (base store : Store) (steps : List Step) (step : Step)
        → History parts short base steps store → IsStep parts short store step
        → History parts short base (steps ++ step ∷ []) (after_step store step) }
    ensures told { (parts : Parts) (steps : List Step) (step : Step) → told_by parts (steps ++ step ∷ []) ≡ told_by parts steps ++ told parts step }
    ensures changes { (parts : Parts) (short : ℕ) (base store : Store) (steps : List Step) (step : Step) → History parts short base steps store
        → changes_of short base (steps ++ step ∷ []) ≡ changes_of short base steps ++ change_of short store step ∷ [] }
    ensures logged { (parts : Parts) (short : ℕ) (base store : Store) (steps : List Step) (changes : List CellChange) (step : Step) (change : CellChange)
        → History parts short base steps store → AreChangesOf short base steps changes → IsChangeOf short store step change
        → AreChangesOf short base (steps ++ step ∷ []) (changes ++ change ∷ []) }
{}

/// The data logs are asked only at the references of steps: where two hold the same bytes there, a history under the one is one under
/// the other, and tells the same. A base is one under the other where the two hold the same bytes at the references in its chains.
pub fn only_references_of_steps_are_asked()
    ensures history { (parts others : Parts) (short : ℕ) (base store : Store) (steps : List Step)
        → AgreeOnSteps parts others base steps
        → History parts short base steps store → History others short base steps store }
    ensures told { (parts others : Parts) (store : Store) (steps : List Step)
        → AgreeOnSteps parts others store steps → told_by parts steps ≡ told_by others steps }
    ensures base { (parts others : Parts) (short next : ℕ) (rows : List Row) (base : Store)
        → AgreeInChains parts others base.tables base.layouts
        → IsBase parts short next rows base → IsBase others short next rows base }
{}

/// The cells of a step's change, laid over those of the store before it, are those of the store after it; and so those of all
/// changes, laid over the base's, are those of the history's store. Whatever change the log has for the step, it has these cells.
pub fn cells_of_a_step()
    ensures laid { (store : Store) (step : Step) (t : ℕ)
        → (after_step store step).tables t ≡ laid (store.tables t) (contents_in t store step) }
    ensures all_laid { (parts : Parts) (short : ℕ) (base store : Store) (steps : List Step) (t : ℕ) → History parts short base steps store
        → store.tables t ≡ laid (base.tables t) (contents_by t base steps) }
    ensures change { (short : ℕ) (store : Store) (step : Step) → IsChangeOf short store step (change_of short store step) }
    ensures changes { (short : ℕ) (store : Store) (steps : List Step) → AreChangesOf short store steps (changes_of short store steps) }
    ensures cells { (short : ℕ) (store : Store) (step : Step) (change : CellChange) (t : ℕ) → IsChangeOf short store step change
        → cells_for t change ≡ map (cell_of t short) (contents_in t store step) }
    ensures all_cells { (short : ℕ) (store : Store) (steps : List Step) (changes : List CellChange) (t : ℕ) → AreChangesOf short store steps changes
        → cells_in t changes ≡ map (cell_of t short) (contents_by t store steps) }
{}

/// A link leaves the layout that its step does.
pub fn a_link_leaves_one_layout()
    ensures { (short : ℕ) (table : Table) (layout after : Layout) (header : Header) (slot : Slot)
        → IsSound short table layout
        → IsLink table layout header slot after → after ≡ layout_linked table layout slot }
{}

/// From the base's next number on a transaction of which nothing is told may write: it is open, and has no versions.
/// It stays open as long as no step ends it or takes a version from it. None
/// with a lower number than the base's next one is open.
pub fn a_new_transaction_is_open()
    ensures is_open { (parts : Parts) (short next : ℕ) (rows : List Row) (base store : Store) (steps : List Step) (xn : ℕ)
        → IsBase parts short next rows base
        → History parts short base steps store → next ≤ xn → IsUntold xn (told_by parts steps) → IsOpen store xn }
    ensures no_versions { (parts : Parts) (short next : ℕ) (rows : List Row) (base store : Store) (steps : List Step) (xn t row : ℕ)
        → IsBase parts short next rows base
        → History parts short base steps store → next ≤ xn → IsUntold xn (told_by parts steps) → IsUsedRow (store.tables t) row
        → HasNoneOf xn (versions_of store t row) }
    ensures stays { (store : Store) (step : Step) (xn : ℕ) → IsOpen store xn → LeavesOpen xn store step
        → IsOpen (after_step store step) xn }
    ensures later { (parts : Parts) (short next : ℕ) (rows : List Row) (base store : Store) (steps : List Step) (xn : ℕ)
        → IsBase parts short next rows base
        → History parts short base steps store → IsOpen store xn → next ≤ xn }
{}

/// Where each version is put into a row in which no other transaction that may still commit has one, each of these may commit.
/// So it is in each front of such a history.
pub fn one_writer_of_a_row()
    ensures base { (parts : Parts) (short next : ℕ) (rows : List Row) (base : Store) → IsBase parts short next rows base → HaveOneWriter base }
    ensures step { (parts : Parts) (short : ℕ) (store : Store) (step : Step) → AreSound short store.tables store.layouts
        → HaveOneWriter store → IsStep parts short store step → IsAlone store step → HaveOneWriter (after_step store step) }
    ensures commit { (parts : Parts) (short : ℕ) (store : Store) (xn number : ℕ) → HaveOneWriter store → IsOpen store xn
        → IsStep parts short store (Step.commit xn number) }
    ensures history { (parts : Parts) (short next : ℕ) (rows : List Row) (base store : Store) (steps : List Step)
        → IsBase parts short next rows base
        → History parts short base steps store → AreAlone base steps → HaveOneWriter store }
    ensures front { (store : Store) (steps : List Step) (count : ℕ)
        → AreAlone store steps → AreAlone store (take count steps) }
    ensures more { (parts : Parts) (short : ℕ) (base store : Store) (steps : List Step) (step : Step)
        → History parts short base steps store → AreAlone base steps
        → IsAlone store step → AreAlone base (steps ++ step ∷ []) }
{}

/// Commits stay numbered on by one with the next number, and are so in each front. There are no more of them than steps, so the
/// next one's number goes with that of its frame.
pub fn commits_stay_numbered()
    ensures step { (parts : Parts) (last : ℕ) (changes : List Change) (step : Step) → CountsFrom last changes → IsNumberedOn last changes step
        → CountsFrom last (changes ++ told parts step) }
    ensures last { (parts : Parts) (last : ℕ) (changes : List Change) (step : Step)
        → last_commit last (changes ++ told parts step) ≡ last_after (last_commit last changes) step }
    ensures front { (parts : Parts) (last : ℕ) (steps : List Step) (count : ℕ) → CountsFrom last (told_by parts steps)
        → CountsFrom last (told_by parts (take count steps)) }
    ensures due { (parts : Parts) (last : ℕ) (steps : List Step) → CountsFrom last (told_by parts steps)
        → last_commit last (told_by parts steps) ≤ last + length steps }
{}

/// Whatever change the log has for a step, a frame may hold it, where the number that it carries is a stored one, the step's numbers
/// fit their fields, and it unlinks no more versions than a frame has cells for.
pub fn what_a_frame_may_hold()
    ensures { (parts : Parts) (short tables frame : ℕ) (store : Store) (step : Step) (change : CellChange)
        → is_short short ≡ true → tables ≤ MOST_TABLES
        → AreSound short store.tables store.layouts → IsStep parts short store step
        → IsChangeOf short store step change → IsStoredNumber change.xn
        → IsWritten tables step → FitsFrame frame store step
        → may_hold tables frame short change ≡ true }
{}

/// 3 writes a row and commits, 4 deletes it and is rolled back, and its version is unlinked: each may follow, and the row is shown
/// from the commit on. What that leaves is a base, and from there 5 writes the row again, with a body that goes on in a data log,
/// and commits. That part moves to another log, and what 3 wrote is swept: the row is shown with its whole body.
pub fn a_small_history()
    ensures history { History two_places 16 nothing small_history (after_steps nothing small_history) }
    ensures rows { rows_in (told_by two_places small_history) ≡ row_with (97 ∷ []) ∷ [] }
    ensures written { rows_in (told_by two_places (take 1 small_history)) ≡ [] }
    ensures committed { rows_in (told_by two_places (take 2 small_history)) ≡ row_with (97 ∷ []) ∷ [] }
    ensures base { IsBase two_places 16 5 (row_with (97 ∷ []) ∷ []) small_base }
    ensures second { History two_places 16 small_base second_run (after_steps small_base second_run) }
    ensures rows_again { rows_over (row_with (97 ∷ []) ∷ []) (told_by two_places second_run) ≡ row_with long_body ∷ [] }
    ensures whole_body { let store = after_steps small_base second_run in
        Shows two_places store.tables store.layouts store.done (row_with long_body ∷ []) }
    ensures logged { AreChangesOf 16 small_base second_run second_changes }
{}
