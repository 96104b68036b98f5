ghost use Rattle.std.specs.Prelude.{◌≡◌, ◌<◌, length, IfOk, OnErr, OnOk};
ghost use Rattle.px_model.specs.declared.limits.TheConstants.{SESSIONS};
ghost use Rattle.px_answers.specs.Keeping.{kept_by, none_kept, with_kept, without_kept};

use px_model::{Row, RowList, SESSIONS, Session};
use std::alloc::{AllocError, Global};
use std::marker::Model;

/// The rows that the open transactions keep by tickets: ticket k of a session keeps the k-th of its rows. Contracts see, for each
/// session, the list of them.
#[derive(Drop)]
pub struct Tickets {
    alloc: Global,
    kept: Vec<RowList>,
}

impl Model for Tickets {
    ghost use Rattle.std.specs.Prelude.{◌≡◌, length};
    ghost use Rattle.px_model.specs.declared.limits.TheConstants.{SESSIONS};
    ghost use Rattle.px_answers.specs.Keeping.{Kept};

    ghost Value = { Kept };

    ghost view = { λ t. t.kept.items };

    ghost invariant = { λ t. length t.kept.items ≡ SESSIONS };
}

impl Tickets {
    /// No session keeps a row.
    pub fn new(alloc: Global) -> Result<Tickets, AllocError>
        ensures { IfOk result (λ tickets. tickets ≡ none_kept) }
    {
        let mut kept = Vec::new(alloc);
        for _session in 0..SESSIONS {
            kept.push(RowList::new(alloc))?;
        }
        Ok(Tickets { alloc, kept })
    }

    /// The rows that the session's tickets keep, in order.
    pub fn of(&self, session: Session) -> &[Row]
        ensures is { result.now ≡ kept_by self.now session }
        ensures place { session < length self.now }
        ensures bound { session < SESSIONS }
    {
        self.kept[session.index() as usize].as_slice()
    }

    /// Keeps a row by the session's next ticket. Without memory all stays as it was.
    pub fn keep(&mut self, session: Session, row: Row) -> Result<(), AllocError>
        ensures ok { OnOk result (self.new ≡ with_kept self.old session row) }
        ensures err { OnErr result (self.new ≡ self.old) }
    {
        self.kept[session.index() as usize].push(row)?;
        Ok(())
    }

    /// Takes the rows from the session's tickets, as where its transaction ends. It takes no memory.
    pub fn clear(&mut self, session: Session)
        ensures { self.new ≡ without_kept self.old session }
    {
        self.kept[session.index() as usize] = RowList::new(self.alloc);
    }
}
