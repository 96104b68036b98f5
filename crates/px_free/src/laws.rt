ghost use Rattle.std.specs.Prelude.{◌≡◌, ◌≢◌, ℕ};
ghost use Rattle.px_free.specs.Places.{Places, after_giving, after_taking, next_place};

/// A place that is given back is taken next, and then all is as it was.
pub fn last_in_first_out()
    ensures place { (places : Places) (place : ℕ) → place ≢ 0 → next_place (after_giving places place) ≡ place }
    ensures places { (places : Places) (place : ℕ) → place ≢ 0
        → after_taking (after_giving places place) places.front ≡ places }
{}
