// A body in a slot and in parts.
ghost use Rattle.std.specs.Prelude.{◌≡◌, ◌≤◌, ◌++◌, ℕ, List, [], ◌∷◌, length, IfNone, IfSome};
ghost use Rattle.std.specs.List.{AllByRecursion, concat};
ghost use Rattle.px_dlog.specs.Body.{head_of, parts_of};
ghost use Rattle.px_dlog.specs.declared.part.TheConstants.{LONGEST_PART};

/// The bytes of a body that stand in its slot.
pub fn head_of(body: &[u8], short: usize) -> &[u8]
    ensures { result.now ≡ head_of short body.now }
{
    &body[..short.min(body.len())]
}

/// The bytes of a body's part. None where all of the body stands in its slot.
pub fn part_of(body: &[u8], short: usize) -> Option<&[u8]>
    ensures some { IfSome result (λ part. parts_of short body.now ≡ part.now ∷ []) }
    ensures none { IfNone result (parts_of short body.now ≡ []) }
{
    if body.len() <= short {
        return None;
    }
    Some(&body[short..])
}

/// A body is its head and its parts behind each other, and each part has a byte and no more than the longest one, if the body has
/// no more.
pub fn a_body_is_its_head_and_parts()
    ensures whole { (short : ℕ) (body : List ℕ) → head_of short body ++ concat (parts_of short body) ≡ body }
    ensures fit { (short : ℕ) (body : List ℕ) → length body ≤ LONGEST_PART
        → AllByRecursion (λ bytes. (1 ≤ length bytes) × (length bytes ≤ LONGEST_PART)) (parts_of short body) }
{}
