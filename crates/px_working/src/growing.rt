ghost use Rattle.std.specs.Prelude.{◌≡◌, ◌+◌, ◌≤◌, ℕ, List};
ghost use Rattle.px_change.specs.declared.change.Change.{Change};
ghost use Rattle.px_history.specs.Steps.{Step, after_step};
ghost use Rattle.px_laid.specs.Places.{laid_over};
ghost use Rattle.px_life.specs.Life.{IsLife, Life, between, end_of, grown, places_at, store_at};
ghost use Rattle.px_model.specs.declared.row.Row.{Row};
ghost use Rattle.px_shown.specs.Parts.{Parts};
ghost use Rattle.px_working.specs.Follows.{last_store};

/// A life with a frame more ends one frame later, in the store after its step, and with the cells of its change laid over those before.
/// The fronts before that, their places, and the changes below its end are those of the life.
pub fn a_life_has_a_frame_more()
    ensures end { (life : Life) (step : Step) (change : Change) → end_of (grown life step change) ≡ end_of life + 1 }
    ensures last { (parts : Parts) (short tables next : ℕ) (rows : List Row) (life : Life) (step : Step) (change : Change)
        → IsLife parts short tables next rows life → last_store (grown life step change) ≡ after_step (last_store life) step }
    ensures last_places { (parts : Parts) (short tables next : ℕ) (rows : List Row) (life : Life) (step : Step) (change : Change)
        → IsLife parts short tables next rows life
        → let later = grown life step change in places_at later (end_of later) ≡ laid_over (places_at life (end_of life)) change.cells }
    ensures store { (parts : Parts) (short tables next frame : ℕ) (rows : List Row) (life : Life) (step : Step) (change : Change)
        → IsLife parts short tables next rows life → frame ≤ end_of life → store_at (grown life step change) frame ≡ store_at life frame }
    ensures places { (parts : Parts) (short tables next frame : ℕ) (rows : List Row) (life : Life) (step : Step) (change : Change)
        → IsLife parts short tables next rows life → life.start ≤ frame → frame ≤ end_of life → places_at (grown life step change) frame ≡ places_at life frame }
    ensures changes { (life : Life) (step : Step) (change : Change) (from to : ℕ) → life.first ≤ from → from ≤ to → to ≤ end_of life
        → between (grown life step change) from to ≡ between life from to }
{}
