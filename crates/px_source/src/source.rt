// Where a run's input comes from.
ghost use Rattle.std.specs.Prelude.{ℕ, List, ◌≤◌, length, IfOk};
ghost use Rattle.px_source.specs.Source.{Takes, ReadCounted};

/// A read that failed: the input answered an error.
#[derive(Clone, Copy, Debug, PartialEq, Eq)]
pub struct SourceFault;

/// Bytes that are read from front to end.
pub trait Source {
    /// That the source tells its bytes to contracts. Standard input doesn't, and of such a source only the bound and
    /// the count are said.
    ghost tells: { Type 0 };

    /// The bytes that are left.
    ghost left: { Self → List ℕ };

    /// How many reads failed.
    ghost faults: { Self → ℕ };

    /// Takes bytes from the front of what is left to the front of `buf`, and answers how many, at most the length of
    /// `buf`. For a `buf` that isn't empty, 0 comes at the end alone. A SourceFault takes no byte, and comes only where
    /// the count of faults rose.
    fn read(&mut self, buf: &mut [u8]) -> Result<usize, SourceFault>
        ensures bound { IfOk result (λ n. n ≤ length buf.new) }
        ensures bytes { tells → Takes (left self.old) (left self.new) buf.new result }
        ensures counted { ReadCounted (faults self.old) (faults self.new) result };
}

impl<S: Source> Source for &mut S {
    ghost tells = { S.tells };

    ghost left = { λ s. S.left s.now };

    ghost faults = { λ s. S.faults s.now };

    fn read(&mut self, buf: &mut [u8]) -> Result<usize, SourceFault> {
        Source::read(&mut **self, buf)
    }
}
