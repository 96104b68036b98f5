//! Where bytes went over.
ghost use Rattle.std.specs.Prelude.{◌≡◌, ◌≤◌, ◌+◌};

use px_site::{FileName, LONGEST_FILE};

/// A piece of a file that went over end to end, in one call of the system or in several.
#[derive(Clone, Copy, Debug, PartialEq, Eq)]
pub struct Piece {
    pub file: FileName,
    /// Where its first byte stands.
    pub from: u64,
    /// Where the byte behind its last one stands.
    pub to: u64,
    ghost ordered: { from ≤ to },
}

impl Piece {
    ghost use Rattle.px_realsite.specs.Piece.{Adds};

    /// No byte of any file.
    pub(super) fn new() -> Piece {
        Piece {
            file: FileName::Index,
            from: 0,
            to: 0,
        }
    }

    /// Takes in bytes that went over at a place: the piece goes on with them, or where they don't follow it another one begins.
    pub(super) fn add(&mut self, file: FileName, place: u64, count: usize)
        requires { place + count ≤ LONGEST_FILE }
        ensures { Adds file place count self.old self.new }
    {
        if self.file != file || self.to != place {
            *self = Piece {
                file,
                from: place,
                to: place,
            };
        }
        self.to = place + count as u64;
    }
}
