// An input whose lines are shown as they are read.
ghost use Rattle.std.specs.Prelude.{[]};

use px_source::{Source, SourceFault};

/// Lines that were written beforehand. Each read gives one, and shows it in front of its reply: the engine tells the reply to a
/// line before it reads the next one.
#[derive(Drop)]
pub(crate) struct Conversation<R> {
    rt: R,
    left: &'static [u8],
}

impl<R: Print> Conversation<R> {
    pub(crate) fn new(rt: R, lines: &'static [u8]) -> Conversation<R> {
        Conversation { rt, left: lines }
    }

    /// How many bytes the first line has that is left, with its line feed.
    fn first_line(&self) -> usize {
        match self.left.iter().position(|byte| *byte == b'\n') {
            Some(place) => place.saturating_add(1),
            None => self.left.len(),
        }
    }

    /// Shows a line, and leaves the place behind it to its reply.
    fn show(&self, line: &[u8]) -> Result<(), SourceFault> {
        let Ok(text) = str::from_utf8(line) else {
            return Err(SourceFault);
        };
        match print!(&self.rt; "{:<38} > ", text.trim_end()) {
            Ok(()) => Ok(()),
            Err(_) => Err(SourceFault),
        }
    }
}

impl<R: Print> Source for Conversation<R> {
    ghost tells = { ⊥ };

    ghost left = { λ _. [] };

    ghost faults = { λ _. 0 };

    fn read(&mut self, buf: &mut [u8]) -> Result<usize, SourceFault> {
        let count = self.first_line().min(self.left.len()).min(buf.len());
        let (line, left) = self.left.split_at(count);
        buf[..count].copy_from_slice(line);
        self.left = left;
        if count > 0 {
            let _shown = self.show(line);
        }
        Ok(count)
    }
}
