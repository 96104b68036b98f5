ghost use Rattle.std.specs.Prelude.{◌≡◌, ◌<◌, ◌≤◌, ◌++◌, [], ◌∷◌, ℕ, List};
ghost use Rattle.px_chain.specs.Sound.{IsUsedRow};
ghost use Rattle.px_history.specs.Steps.{AreSteps, IsStep, Step, after_steps};
ghost use Rattle.px_history.specs.Store.{IsOneRow, IsTidied, Store, versions_of};
ghost use Rattle.px_model.specs.declared.row.Row.{Row};
ghost use Rattle.px_shown.specs.Parts.{Parts};
ghost use Rattle.px_shown.specs.Shown.{Shows};
ghost use Rattle.px_shown.specs.Tables.{AreSound};
ghost use Rattle.px_tidy.specs.Rows.{HasNoRowPast, IsNextRow};
ghost use Rattle.px_tidy.specs.Steps.{HasTables, IsOfTable, IsOfTableUpTo, IsRow, IsRowUpTo, Tidies, tidying_row, tidying_rows, tidying_table, tidying_tables};

/// The versions of a row that go may be unlinked one after the other, each by a step of its own. Then the row has just the
/// version that stays, which is done and a row, and where none stays there is no such row. All else is as before.
pub fn a_row_is_tidied()
    ensures steps { (short : ℕ) (store : Store) (t row : ℕ) → AreSound short store.tables store.layouts
        → Tidies short store (tidying_row store t row) (after_steps store (tidying_row store t row)) (IsRow t row) }
    ensures one_row { (short : ℕ) (store : Store) (t row : ℕ) → AreSound short store.tables store.layouts
        → let after = after_steps store (tidying_row store t row) in
        IsUsedRow (after.tables t) row → IsOneRow after.done (versions_of after t row) }
{}

/// So it is with one row after the other, from the first on, and with all rows of a table.
pub fn a_table_is_tidied()
    ensures rows { (short : ℕ) (store : Store) (t last : ℕ) → AreSound short store.tables store.layouts
        → Tidies short store (tidying_rows store t last) (after_steps store (tidying_rows store t last)) (IsRowUpTo t last) }
    ensures table { (short : ℕ) (store : Store) (t : ℕ) → AreSound short store.tables store.layouts
        → Tidies short store (tidying_table store t) (after_steps store (tidying_table store t)) (IsOfTable t) }
{}

/// So it is with one table after the other. Once this was done with all tables that have rows, the store is tidied.
pub fn a_store_is_tidied()
    ensures tables { (short : ℕ) (store : Store) (last : ℕ) → AreSound short store.tables store.layouts
        → Tidies short store (tidying_tables store last) (after_steps store (tidying_tables store last)) (IsOfTableUpTo last) }
    ensures tidied { (short : ℕ) (store : Store) (last : ℕ) → AreSound short store.tables store.layouts → HasTables store last
        → IsTidied (after_steps store (tidying_tables store last)) }
{}

/// A store that was tidied shows the rows that it showed before, whatever lies in the data logs.
pub fn tidying_shows_the_same()
    ensures { (parts : Parts) (short : ℕ) (store : Store) (last : ℕ) (rows : List Row) → AreSound short store.tables store.layouts
        → Shows parts store.tables store.layouts store.done rows
        → let after = after_steps store (tidying_tables store last) in Shows parts after.tables after.layouts after.done rows }
{}

/// Rows that aren't used have no steps, so one may go from each used row to the next one, and end behind the last.
pub fn rows_between_have_no_steps()
    ensures next { (short : ℕ) (store : Store) (t last row : ℕ) → AreSound short store.tables store.layouts
        → IsNextRow (store.tables t) last row → tidying_rows store t row ≡ tidying_rows store t last ++ tidying_row store t row }
    ensures end { (short : ℕ) (store : Store) (t last : ℕ) → AreSound short store.tables store.layouts
        → HasNoRowPast (store.tables t) last → tidying_rows store t last ≡ tidying_table store t }
{}

/// Of steps that may follow one after the other each may follow those before it.
pub fn each_step_may_follow()
    ensures { (parts : Parts) (short : ℕ) (store : Store) (before behind : List Step) (step : Step) → AreSteps parts short store (before ++ step ∷ behind)
        → IsStep parts short (after_steps store before) step }
{}
