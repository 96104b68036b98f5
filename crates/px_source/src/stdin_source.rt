// Standard input as a source.
ghost use Rattle.std.specs.Prelude.{◌≡◌, ◌≤◌, [], length, IfOk};
ghost use Rattle.std.specs.Io.KnownBytes.{Keeps, ReadConsumes};
ghost use Rattle.px_source.specs.Asked.{asked_to_read, more_by};
ghost use Rattle.px_source.specs.Source.{ReadCounted, Rose};

use crate::{Source, SourceFault};
use std::io::{self, ErrorKind, Read};
use std::marker::Model;

/// Standard input, or another reader. It counts how often the system was asked for bytes, how many it gave, and how many reads
/// it refused: contracts see these counts, each of which stands still at the greatest u64. They see the bytes too that the
/// reader has left, where it tells them; standard input doesn't.
#[derive(Drop)]
pub struct StdinSource<S: Read> {
    reader: S,
    calls: u64,
    bytes: u64,
    faults: u64,
    refusal: Option<io::Error>,
}

impl<S: Read> Model for StdinSource<S> {
    ghost use Rattle.px_source.specs.Asked.{Asked};

    ghost Value = { Asked };

    ghost view = { λ s. record { calls = s.calls; bytes = s.bytes; faults = s.faults; left = S.remaining s.reader } };
}

impl<S: Read + Drop> StdinSource<S> {
    /// Over the runtime's standard input; nothing is read yet.
    pub fn new<R: Input<Reader = S> + Drop>(rt: R) -> StdinSource<S>
        ensures calls { result.calls ≡ 0 }
        ensures bytes { result.bytes ≡ 0 }
        ensures faults { result.faults ≡ 0 }
    {
        StdinSource {
            reader: rt.reader(),
            calls: 0,
            bytes: 0,
            faults: 0,
            refusal: None,
        }
    }

    /// What the system said when it last refused a read, for people; None where it refused none.
    pub fn refusal(&self) -> Option<io::Error> {
        self.refusal
    }

    /// Asks the system once. This is the one place where it is asked, and the call is counted here.
    fn ask(&mut self, buf: &mut [u8]) -> io::Result<usize>
        ensures bound { IfOk result (λ n. n ≤ length buf.new) }
        ensures calls { self.new.calls ≡ (asked_to_read result self.old).calls }
        ensures bytes { self.new.bytes ≡ (asked_to_read result self.old).bytes }
        ensures faults { self.new.faults ≡ self.old.faults }
        ensures none_fell { self.old.calls ≤ self.new.calls }
        ensures given { ReadConsumes self.old.left self.new.left result buf.new }
    {
        self.calls = self.calls.saturating_add(1);
        let count = self.reader.read(buf)?;
        self.bytes = self.bytes.saturating_add(count as u64);
        Ok(count)
    }

    /// Asks once, and again where a signal came first. One call of the system gives as much as is there, so that a line is
    /// answered before the next one is waited for.
    #[tactic(auto, using(crate::proofs::Given::keeps_keeps, crate::proofs::Given::keeps_reads))]
    fn read_some(&mut self, buf: &mut [u8]) -> io::Result<usize>
        ensures bound { IfOk result (λ n. n ≤ length buf.new) }
        ensures asked { Rose self.old.calls self.new.calls }
        ensures bytes { IfOk result (λ n. self.new.bytes ≡ more_by n self.old.bytes) }
        ensures faults { self.new.faults ≡ self.old.faults }
        ensures given { ReadConsumes self.old.left self.new.left result buf.new }
    {
        for _ in 0..u64::MAX {
            match self.ask(buf) {
                Err(error) if error.kind() == ErrorKind::Interrupted => {}
                answer => return answer,
            }
        }
        self.ask(buf)
    }
}

impl<S: Read + Drop> Source for StdinSource<S> {
    ghost tells = { ⊥ };

    ghost left = { λ _. [] };

    ghost faults = { λ asked. asked.faults };

    fn read(&mut self, buf: &mut [u8]) -> Result<usize, SourceFault>
        ensures bound { IfOk result (λ n. n ≤ length buf.new) }
        ensures counted { ReadCounted self.old.faults self.new.faults result }
        ensures asked { Rose self.old.calls self.new.calls }
        ensures taken { IfOk result (λ n. self.new.bytes ≡ more_by n self.old.bytes) }
        ensures given { ReadConsumes self.old.left self.new.left result buf.new }
    {
        match self.read_some(buf) {
            Ok(count) => Ok(count),
            Err(error) => {
                self.faults = self.faults.saturating_add(1);
                self.refusal = Some(error);
                Err(SourceFault)
            }
        }
    }
}
