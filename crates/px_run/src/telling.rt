// Pieces of text that are told.
ghost use Rattle.std.specs.Prelude.{◌≡◌, IfErr};
ghost use Rattle.px_site.specs.Cause.{NoneFell};
ghost use Rattle.px_model.specs.Machine.{Machine};
ghost use Rattle.px_core.specs.Working.{WorksFor};
ghost use Rattle.px_run.specs.Working.{Closes, HasTellCause, TellsPiece};

use px_calls::{Status, closing_line};
use px_core::Core;
use px_play::status_of_tell;
use px_site::Site;

/// Tells a piece. `OutputFault`: a front of it was told; `OutOfMemory`: nothing was.
pub(crate) fn tell<W: Site>(core: &mut Core<W>, piece: &[u8]) -> Result<(), Status>
    ensures tells { W.tells → TellsPiece piece.now (W.state core.old.site) (W.state core.new.site) result }
    ensures rest { core.new ≡ record core.old { site = core.new.site } }
    ensures works { W.tells → (m : Machine) → WorksFor W.state core.old m → WorksFor W.state core.new m }
    ensures cause { IfErr result (HasTellCause (W.counts core.old.site) (W.counts core.new.site)) }
    ensures none_fell { NoneFell (W.counts core.old.site) (W.counts core.new.site) }
{
    match core.tell(piece) {
        Ok(()) => Ok(()),
        Err(error) => Err(status_of_tell(error)),
    }
}

/// Tells the line that a call ends with, where it has one. Its error changes nothing.
pub(crate) fn tell_closing_line<W: Site>(site: &mut W, status: &Status)
    ensures closes { W.tells → Closes status.now (W.state site.old) (W.state site.new) (W.counts site.old) (W.counts site.new) }
    ensures none_fell { NoneFell (W.counts site.old) (W.counts site.new) }
{
    let line = closing_line(status);
    if !line.as_slice().is_empty() {
        let _told = site.tell(line.as_slice());
    }
}
