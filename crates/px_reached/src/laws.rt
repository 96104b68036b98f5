ghost use Rattle.std.specs.Prelude.{◌≡◌, ◌≤◌, ◌-◌, [], ℕ, List};
ghost use Rattle.px_apply.specs.Contents.{Contents};
ghost use Rattle.px_model.specs.declared.row.Row.{Row};
ghost use Rattle.px_model.specs.Machine.{Machine, published};
ghost use Rattle.px_restart.specs.declared.restart.Restart.{Restart};
ghost use Rattle.px_restart.specs.Restart.{IsPicked};
ghost use Rattle.px_shown.specs.Parts.{Parts};
ghost use Rattle.px_site.specs.Disk.{at_rest};
ghost use Rattle.px_site.specs.State.{Moment};
ghost use Rattle.px_site.specs.declared.name.FileName.TheVariants.{Rec, Restart as RestartFile, Row as RowFile, Xlog};
ghost use Rattle.px_standing.specs.Images.{IsPlainImage};
ghost use Rattle.px_life.specs.Example.{new_life};
ghost use Rattle.px_life.specs.Front.{commits_at};
ghost use Rattle.px_life.specs.Life.{IsLife, Life, end_of};
ghost use Rattle.px_reached.specs.Example.{no_marks};
ghost use Rattle.px_reached.specs.Reachable.{IsReachable, Marks, PublishesFronts};
ghost use Rattle.px_reached.specs.Stands.{StandsFor};

use px_filed::files_lie_under_their_frames;
use px_life::more_places_open_to_the_same;
use px_opened::a_step_keeps_what_is_held;
use px_shown::only_numbers_in_chains_are_asked;

/// Whatever a crash leaves stands for a front of the life, none of whose durable frames is missing, where all that can be reached from the
/// restart that the crash leaves is kept, and the machine's rows are those of each front.
pub fn what_is_reachable_stands()
    ensures { (parts : Parts) (next : ℕ) (rows : List Row) (life : Life) (restart : Restart) (marks : Marks) (machine : Machine) (m : Moment) (image : Contents)
        → IsLife parts restart.short restart.tables next rows life
        → IsReachable IsPlainImage restart.short restart life marks m → PublishesFronts parts restart life marks machine
        → IsPlainImage m image → IsPicked (image (RestartFile 0)) (image (RestartFile 1)) restart
        → (frame : ℕ) × (marks.durable ≤ frame) × (frame ≤ end_of life)
        × StandsFor parts image (commits_at restart life frame) (published machine (commits_at restart life frame - machine.before)) }
{
    a_step_keeps_what_is_held();
    only_numbers_in_chains_are_asked();
    more_places_open_to_the_same();
    files_lie_under_their_frames();
}

/// Of a store that was just made all can be reached.
pub fn a_new_store_is_reachable()
    ensures { (short : ℕ) (restart : Restart) (m : Moment) → restart.first ≡ 0 → restart.redo ≡ 0 → restart.durable ≡ 0
        → ((k : ℕ) → m.files (Xlog k) ≡ at_rest []) → ((t : ℕ) → (m.files (Rec t) ≡ at_rest []) × (m.files (RowFile t) ≡ at_rest []))
        → IsReachable IsPlainImage short restart new_life no_marks m }
{}
