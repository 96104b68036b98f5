ghost use Rattle.std.specs.Prelude.{◌≡◌, [], codes};
ghost use Rattle.px_bytes.specs.Sum.{fnv_of};

/// The published sums of no bytes, of `a` and of `foobar`.
#[tactic(auto, unfolding(crate::specs::Sum::fnv_of))]
pub fn known_sums()
    ensures of_nothing { fnv_of [] ≡ 0x811c9dc5 }
    ensures of_a { fnv_of (codes "a") ≡ 0xe40c292c }
    ensures of_foobar { fnv_of (codes "foobar") ≡ 0xbf9cf968 }
{}
