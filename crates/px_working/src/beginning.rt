ghost use Rattle.std.specs.Prelude.{◌≡◌, ◌+◌, ◌<◌, ◌≤◌, [], ℕ, All, List};
ghost use Rattle.px_chain.specs.Sound.{IsUsedRow};
ghost use Rattle.px_history.specs.Store.{IsOpen, IsTidied, versions_of};
ghost use Rattle.px_life.specs.Example.{new_life};
ghost use Rattle.px_life.specs.Front.{commits_at};
ghost use Rattle.px_life.specs.Life.{IsLife, Life, end_of};
ghost use Rattle.px_model.specs.Machine.{fresh};
ghost use Rattle.px_model.specs.declared.limits.TheConstants.{STORED_NUMBERS_END};
ghost use Rattle.px_model.specs.declared.row.Row.{Row};
ghost use Rattle.px_reached.specs.Example.{no_marks};
ghost use Rattle.px_reached.specs.Reachable.{IsReachable, Marks};
ghost use Rattle.px_restart.specs.declared.restart.Restart.{Restart};
ghost use Rattle.px_shown.specs.Parts.{Parts};
ghost use Rattle.px_shown.specs.Shown.{Shows};
ghost use Rattle.px_site.specs.Disk.{at_rest};
ghost use Rattle.px_site.specs.State.{Moment};
ghost use Rattle.px_site.specs.declared.name.FileName.TheVariants.{Rec, Row as RowFile, Xlog};
ghost use Rattle.px_standing.specs.Images.{IsPlainImage};
ghost use Rattle.px_working.specs.Follows.{last_store};
ghost use Rattle.px_working.specs.Lasts.{IsOneSegment, IsValid, Lasts};
ghost use Rattle.px_working.specs.Works.{Works};

use px_cell_laws::a_tidied_store_holds_a_fresh_machine;
use px_chain_laws::machines_are_kept;
use px_history::histories_are_sound;
use px_life::a_new_store_is_a_life;
use px_reached::a_new_store_is_reachable;

/// Where all its frames are durable, and what can be reached is kept, a life lasts for a fresh machine with the rows that its last front
/// shows and the commits that the restart has there.
pub fn what_is_found_lasts()
    ensures { (parts : Parts) (rows : List Row) (base : ℕ) (life : Life) (restart : Restart) (marks : Marks) (now : Moment)
        → let store = last_store life in let found = commits_at restart life (end_of life) in
        IsLife parts restart.short restart.tables (base + 1) rows life → Shows parts store.tables store.layouts store.done rows
        → IsOneSegment restart life now → IsValid restart now → IsReachable IsPlainImage restart.short restart life marks now → marks.durable ≡ end_of life
        → Lasts parts found (fresh restart.tables restart.short rows found base) life restart marks now }
{}

/// In a store that was tidied a fresh machine with the rows that it shows works from then on, where the numbers of its versions go up to the base,
/// no later number is done or over, and the restart's low mark is no further than the next one.
pub fn what_begins_works()
    ensures { (parts : Parts) (rows : List Row) (before base : ℕ) (life : Life) (restart : Restart)
        → let store = last_store life in
        IsLife parts restart.short restart.tables (base + 1) rows life → IsTidied store
        → Shows parts store.tables store.layouts store.done rows
        → ((t row : ℕ) → IsUsedRow (store.tables t) row → All (λ slot. slot.xn ≤ base) (versions_of store t row))
        → ((xn : ℕ) → base < xn → IsOpen store xn)
        → restart.low ≤ base + 1 → base < STORED_NUMBERS_END
        → Works parts (fresh restart.tables restart.short rows before base) life restart }
{
    a_tidied_store_holds_a_fresh_machine();
    machines_are_kept();
    histories_are_sound();
}

/// In a store that was just made, whose log and table files have no byte, a fresh machine without rows lasts and works.
pub fn a_new_store_lasts()
    ensures lasts { (parts : Parts) (restart : Restart) (now : Moment) → IsValid restart now → IsOneSegment restart new_life now
        → restart.redo ≡ 0 → restart.durable ≡ 0
        → ((k : ℕ) → now.files (Xlog k) ≡ at_rest []) → ((t : ℕ) → (now.files (Rec t) ≡ at_rest []) × (now.files (RowFile t) ≡ at_rest []))
        → Lasts parts 0 (fresh restart.tables restart.short [] 0 0) new_life restart no_marks now }
    ensures works { (parts : Parts) (restart : Restart) → restart.low ≤ 1 → Works parts (fresh restart.tables restart.short [] 0 0) new_life restart }
{
    a_new_store_is_a_life();
    a_new_store_is_reachable();
    what_is_found_lasts();
    what_begins_works();
}
