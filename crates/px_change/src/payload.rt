ghost use Rattle.std.specs.Prelude.{◌≡◌, ◌≢◌, [], ◌++◌, true, IfNone, IfSome, OnErr, OnOk};
ghost use Rattle.px_change.specs.Grammar.{is_change};
ghost use Rattle.px_change.specs.Text.{change_text};
ghost use Rattle.px_change.specs.declared.change.Change.{Change};

use crate::Change;
use crate::limits::END_SIZE;
use crate::write::{append_change, end_bytes};
use std::alloc::AllocError;

/// What a frame of the log carries: the bytes of a change, from wherever they come.
pub trait Payload {
    /// The change whose bytes they are.
    ghost change: { Self → Change };

    /// The bytes of a change without cells; they take no memory. None exactly where it has cells.
    fn end(&self) -> Option<[u8; END_SIZE]>
        ensures some { IfSome result (λ bytes. bytes ≡ change_text (change self.now)) }
        ensures none { IfNone result ((change self.now).cells ≢ []) };

    /// Appends the bytes of a change that a store with that short length may have. Without memory for them `out` stays as it was.
    fn encode(&self, short: u32, out: &mut Vec<u8>) -> Result<(), AllocError>
        requires { is_change short (change self.now) ≡ true }
        ensures ok { OnOk result (out.new.items ≡ out.old.items ++ change_text (change self.now)) }
        ensures err { OnErr result (out.new.items ≡ out.old.items) };
}

impl Payload for Change {
    ghost change = { λ change. change };

    fn end(&self) -> Option<[u8; END_SIZE]> {
        if self.cells.as_slice().is_empty() {
            Some(end_bytes(self))
        } else {
            None
        }
    }

    fn encode(&self, short: u32, out: &mut Vec<u8>) -> Result<(), AllocError> {
        let _short = short;
        let before = out.len();
        let appended = append_change(self, out);
        if appended.is_err() {
            out.truncate(before);
        }
        appended
    }
}
