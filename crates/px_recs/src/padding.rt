ghost use Rattle.std.specs.Prelude.{◌≡◌, ◌≢◌, ◌<◌, ◌≤◌, ◌^◌, All, ◌++◌, ◌↔◌, ℕ, List, length, take, replicate, IsTrue, IfSome, IfNone, OnOk, OnErr};
ghost use Rattle.px_model.specs.declared.limits.TheConstants.{LONGEST_SHORT};
ghost use Rattle.px_recs.specs.Text.{padded};

use px_model::LONGEST_SHORT;
use std::alloc::AllocError;

/// The front of this length of a field that is zero past it. None exactly where the field isn't zero there, or ends before.
pub(crate) fn unpadded(field: &[u8], front: usize) -> Option<&[u8]>
    ensures size { IfSome result (λ bytes. length bytes.now ≡ front) }
    ensures fit { IfSome result (λ bytes. All (λ byte. byte < 2 ^ 8) bytes.now) }
    ensures some { IfSome result (λ bytes. field.now ≡ padded (length field.now) bytes.now) }
    ensures none { IfNone result ((bytes : List ℕ) → length bytes ≡ front → field.now ≢ padded (length field.now) bytes) }
{
    let (bytes, padding) = field.split_at_checked(front)?;
    if are_zeros(padding) {
        Some(bytes)
    } else {
        None
    }
}

#[tactic(auto, using(crate::proofs::Zeros::zeros))]
pub(crate) fn are_zeros(bytes: &[u8]) -> bool
    ensures { IsTrue result ↔ (bytes.now ≡ replicate (length bytes.now) 0) }
{
    bytes.iter().all(|byte| *byte == 0)
}

/// Appends the bytes as a field of this size. An error may leave a part of them.
#[tactic(auto, unfolding(crate::specs::Text::padded))]
pub(crate) fn append_padded(out: &mut Vec<u8>, bytes: &[u8], size: usize) -> Result<(), AllocError>
    requires fits { length bytes.now ≤ size }
    requires bound { size ≤ LONGEST_SHORT }
    ensures ok { OnOk result (out.new.items ≡ out.old.items ++ padded size bytes.now) }
    ensures fit { All (λ byte. byte < 2 ^ 8) bytes.now }
    ensures err { OnErr result (take (length out.old.items) out.new.items ≡ out.old.items) }
{
    out.extend_from_slice(bytes)?;
    append_zeros(out, size - bytes.len())
}

fn append_zeros(out: &mut Vec<u8>, count: usize) -> Result<(), AllocError>
    requires { count ≤ LONGEST_SHORT }
    ensures ok { OnOk result (out.new.items ≡ out.old.items ++ replicate count 0) }
    ensures err { OnErr result (out.new.items ≡ out.old.items) }
{
    let zeros = [0u8; LONGEST_SHORT as usize];
    let (padding, _) = zeros.split_at(count);
    out.extend_from_slice(padding)?;
    Ok(())
}
