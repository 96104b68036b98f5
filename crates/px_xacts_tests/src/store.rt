ghost use Rattle.std.specs.Prelude.{◌≡◌, ◌≤◌, ◌<◌, ◌^◌, length, IsSomeAnd};
ghost use Rattle.px_model.specs.declared.limits.TheConstants.{MOST_WRITES};
ghost use Rattle.px_xacts.specs.Transactions.{open_of};

use px_model::{Bytes, Session};
use px_xacts::{Begun, WriteAt, Xacts};
use std::alloc::{AllocError, Global};

/// Begins a transaction that makes so many writes.
pub fn open(
    alloc: Global,
    all: &mut Xacts,
    session: Session,
    frames: u64,
    writes: u32,
) -> Result<Begun, AllocError>
    requires { writes ≤ MOST_WRITES }
{
    let answer = all.begin(session, frames)?;
    if let Begun::Number(_) = answer {
        add_writes(alloc, all, session, writes)?;
    }
    Ok(answer)
}

/// Adds so many writes, with the slots 1, 2 and so on.
fn add_writes(
    alloc: Global,
    all: &mut Xacts,
    session: Session,
    writes: u32,
) -> Result<(), AllocError>
    requires few { writes ≤ MOST_WRITES }
    requires begun { IsSomeAnd (open_of all.old session) (λ transaction. length transaction.writes ≡ 0) }
{
    for index in 0..writes {
        all.add_write(
            session,
            WriteAt {
                table: 1,
                row: 1,
                slot: index + 1,
                key: Bytes::new(alloc),
            },
        )?;
    }
    Ok(())
}

/// Ends the session's transaction, if it has one.
pub fn end(all: &mut Xacts, session: Session, committed: bool) -> bool {
    if all.number(session).is_none() {
        return false;
    }
    all.end(session, committed);
    true
}

/// Sweeps the next write, if one is due.
pub fn sweep(all: &mut Xacts) -> bool {
    if all.due().is_none() {
        return false;
    }
    all.swept();
    true
}
