ghost use Rattle.std.specs.Prelude.{◌≡◌, ℕ, List, ◌++◌, fold};
ghost use Rattle.px_bytes.specs.Sum.{fnv_of, fnv_step};

/// The sum of no bytes.
pub const FNV_OFFSET: u32 = 0x811c_9dc5;

/// What the sum is multiplied by for each byte.
pub const FNV_PRIME: u32 = 0x0100_0193;

/// The sum of the bytes: FNV-1a with 32 bits (docs/FORMATS.md, 'The sum').
#[tactic(auto, unfolding(crate::specs::Sum::fnv_of))]
pub fn fnv(bytes: &[u8]) -> u32
    ensures { result ≡ fnv_of bytes.now }
{
    go_on(FNV_OFFSET, bytes)
}

/// The sum of several pieces as if they were one: `sum` is that of the pieces before, and the result
/// that of these and `bytes` behind them.
#[tactic(auto, unfolding(crate::specs::Sum::fnv_of))]
pub fn fnv_on(sum: u32, bytes: &[u8]) -> u32
    ensures { (before : List ℕ) → sum ≡ fnv_of before → result ≡ fnv_of (before ++ bytes.now) }
{
    go_on(sum, bytes)
}

fn go_on(sum: u32, bytes: &[u8]) -> u32
    ensures { result ≡ fold fnv_step sum bytes.now }
{
    let mut hash = sum;
    for byte in bytes {
        hash = (hash ^ u32::from(*byte)).wrapping_mul(FNV_PRIME);
    }
    hash
}
