ghost use Rattle.std.specs.Prelude.{◌≡◌, ◌<◌, ◌^◌, ◌↔◌, ℕ, List, ◌∷◌, ◌++◌, length, IsNone, IfNone, IfSome, Some};
ghost use Rattle.std.specs.Int.{w16, w32, w64, to_be_bytes};

use std::marker::Model;

/// A reader that takes bytes from the front, field by field. Contracts see it as the bytes that are
/// left. A call that finds too few of them answers None and takes nothing, and none takes memory.
#[derive(Drop)]
pub struct Fields<'a> {
    rest: &'a [u8],
}

impl<'a> Model for Fields<'a> {
    ghost Value = { List ℕ };

    ghost view = { λ f. f.rest.now };
}

impl<'a> Fields<'a> {
    pub fn new(bytes: &'a [u8]) -> Fields<'a>
        ensures { result ≡ bytes.now }
    {
        Fields { rest: bytes }
    }

    /// One byte.
    pub fn take_u8(&mut self) -> Option<u8>
        ensures none { IsNone result ↔ (length self.old < 1) }
        ensures kept { IfNone result (self.new ≡ self.old) }
        ensures taken { IfSome result (λ n. self.old ≡ n ∷ self.new) }
    {
        let (byte, rest) = self.rest.split_first()?;
        self.rest = rest;
        Some(*byte)
    }

    /// A number of two bytes, the high one first.
    pub fn take_u16(&mut self) -> Option<u16>
        ensures none { IsNone result ↔ (length self.old < 2) }
        ensures kept { IfNone result (self.new ≡ self.old) }
        ensures taken { IfSome result (λ n. self.old ≡ to_be_bytes w16 n ++ self.new) }
        // What put_u16 appended is taken again.
        ensures again { (n : ℕ) (rest : List ℕ) → n < 2 ^ 16 → self.old ≡ to_be_bytes w16 n ++ rest
            → (result ≡ Some n) × (self.new ≡ rest) }
    {
        let field = self.take_array()?;
        Some(u16::from_be_bytes(field))
    }

    /// A number of four bytes, the highest one first.
    pub fn take_u32(&mut self) -> Option<u32>
        ensures none { IsNone result ↔ (length self.old < 4) }
        ensures kept { IfNone result (self.new ≡ self.old) }
        ensures taken { IfSome result (λ n. self.old ≡ to_be_bytes w32 n ++ self.new) }
        // What put_u32 appended is taken again.
        ensures again { (n : ℕ) (rest : List ℕ) → n < 2 ^ 32 → self.old ≡ to_be_bytes w32 n ++ rest
            → (result ≡ Some n) × (self.new ≡ rest) }
    {
        let field = self.take_array()?;
        Some(u32::from_be_bytes(field))
    }

    /// A number of eight bytes, the highest one first.
    pub fn take_u64(&mut self) -> Option<u64>
        ensures none { IsNone result ↔ (length self.old < 8) }
        ensures kept { IfNone result (self.new ≡ self.old) }
        ensures taken { IfSome result (λ n. self.old ≡ to_be_bytes w64 n ++ self.new) }
        // What put_u64 appended is taken again.
        ensures again { (n : ℕ) (rest : List ℕ) → n < 2 ^ 64 → self.old ≡ to_be_bytes w64 n ++ rest
            → (result ≡ Some n) × (self.new ≡ rest) }
    {
        let field = self.take_array()?;
        Some(u64::from_be_bytes(field))
    }

    fn take_array<const N: usize>(&mut self) -> Option<[u8; N]>
        ensures none { IsNone result ↔ (length self.old < N) }
        ensures kept { IfNone result (self.new ≡ self.old) }
        ensures taken { IfSome result (λ front. self.old ≡ front ++ self.new) }
    {
        let (front, rest) = self.rest.split_first_chunk()?;
        self.rest = rest;
        Some(*front)
    }

    /// The next `n` bytes as they are. They outlive the reader.
    pub fn take_slice(&mut self, n: usize) -> Option<&'a [u8]>
        ensures none { IsNone result ↔ (length self.old < n) }
        ensures kept { IfNone result (self.new ≡ self.old) }
        ensures taken { IfSome result (λ front. self.old ≡ front.now ++ self.new) }
        ensures size { IfSome result (λ front. length front.now ≡ n) }
    {
        let (front, rest) = self.rest.split_at_checked(n)?;
        self.rest = rest;
        Some(front)
    }

    /// How many bytes are left.
    pub fn left(&self) -> usize
        ensures { result ≡ length self.now }
    {
        self.rest.len()
    }
}
