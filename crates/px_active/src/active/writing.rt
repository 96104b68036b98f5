ghost use Rattle.std.specs.Prelude.{◌≡◌, ◌<◌, ℕ, Bool, IfOk, IsSomeAnd, OnErr, OnOk, Some, false, is_none, length};
ghost use Rattle.std.specs.Option.{option_copied};
ghost use Rattle.px_active.specs.declared.active.Active.{Active};
ghost use Rattle.px_active.specs.Active.{IsActiveOf, IsGivenBack, IsTaken, MayTake, Noted, last_of, new_key, place_of};
ghost use Rattle.px_calls.specs.declared.call.Call.{Call};
ghost use Rattle.px_calls.specs.Steps.{is_refusal, open_of, reply_of, state_after};
ghost use Rattle.px_chain_laws.specs.Kept.{IsKept};
ghost use Rattle.px_chain_laws.specs.Writing.{write_of};
ghost use Rattle.px_locks.specs.Holders.{holder_of};
ghost use Rattle.px_model.specs.declared.limits.TheConstants.{MOST_WRITES};
ghost use Rattle.px_model.specs.declared.machine.Open.{Open};
ghost use Rattle.px_model.specs.declared.write.Write.{Write};
ghost use Rattle.px_model.specs.Machine.{Machine};
ghost use Rattle.px_model.specs.Rows.{key_written};
ghost use Rattle.px_xacts.specs.declared.write.WriteAt.{WriteAt};
ghost use Rattle.px_xacts.specs.Transactions as transactions;
ghost use Rattle.px_xacts_laws.specs.Mirrors.{key_at};

use super::Active;
use px_locks::Locks;
use px_model::{Bytes, Session};
use px_xacts::{WriteAt, Xacts};
use std::alloc::{AllocError, Global};

/// A write that is to be noted: the session and its transaction's number, and where the version stands. The key is lent.
#[derive(Clone, Copy, Debug, Drop)]
pub struct NewWrite<'a> {
    pub session: Session,
    pub number: u64,
    pub table: u8,
    pub row: u32,
    pub slot: u32,
    pub key: &'a [u8],
}

impl Active {
    /// Notes a write of the session's transaction, which has this number and which takes its key. Tells whether nobody held the key
    /// before. Without memory all stays as it was.
    pub fn write(&mut self, alloc: Global, write: &NewWrite<'_>) -> Result<bool, AllocError>
        requires room { IsSomeAnd (transactions.open_of self.old.xacts write.now.session) (λ transaction. length transaction.writes < MOST_WRITES) }
        requires may_take { MayTake (new_key write.now) write.now.number self.old.locks }
        ensures active { (m : Machine) (call : Call) (xact : Open) (written : Write) → IsKept m → IsActiveOf m self.old → open_of m write.now.session ≡ Some xact
            → write.now.number ≡ xact.number → write_of call ≡ Some written → new_key write.now ≡ key_written written
            → is_refusal (reply_of m write.now.session call) ≡ false
            → OnOk result (IsActiveOf (state_after m write.now.session call) self.new) }
        ensures noted { IfOk result (λ free. Noted write.now.session write.now.number (place_of write.now) free self.old self.new) }
        ensures commits { self.new.commits ≡ self.old.commits }
        ensures may_take_back { OnOk result (IsSomeAnd (transactions.open_of self.new.xacts write.now.session) (λ transaction. 0 < length transaction.writes)) }
        ensures err { OnErr result (self.new ≡ self.old) }
    {
        let at = place_of(alloc, write)?;
        let free = take(&mut self.locks, write)?;
        match self.xacts.add_write(write.session, at) {
            Ok(()) => Ok(free),
            Err(error) => {
                give_up(&mut self.locks, write.table, write.key, free);
                Err(error)
            }
        }
    }

    /// Takes back the write that was noted last, as where its frame couldn't be appended. `free` tells whether nobody held its key
    /// before. It takes no memory.
    pub fn take_back(&mut self, session: Session, free: bool)
        requires { IsSomeAnd (transactions.open_of self.old.xacts session) (λ transaction. 0 < length transaction.writes) }
        ensures takes_back { (before : Active) (number : ℕ) (at : WriteAt) → Noted session number at free before self.old → self.new ≡ before }
        ensures commits { self.new.commits ≡ self.old.commits }
    {
        give_back(&mut self.locks, &self.xacts, session, free);
        self.xacts.unwrite(session);
    }
}

/// Where the version stands, with a key of its own.
fn place_of(alloc: Global, write: &NewWrite<'_>) -> Result<WriteAt, AllocError>
    ensures { IfOk result (λ at. at ≡ place_of write.now) }
{
    Ok(WriteAt {
        table: write.table,
        row: write.row,
        slot: write.slot,
        key: Bytes::from_slice(alloc, write.key)?,
    })
}

/// The write that the session's open transaction made last.
fn last_write(xacts: &Xacts, session: Session) -> Option<&WriteAt>
    ensures { option_copied result ≡ last_of (transactions.open_of xacts.now session) }
{
    xacts.open_of(session)?.writes.as_slice().last()
}

/// The transaction takes the key of its write. Tells whether nobody held it.
fn take(locks: &mut Locks, write: &NewWrite<'_>) -> Result<bool, AllocError>
    requires { MayTake (new_key write.now) write.now.number locks.old }
    ensures taken { OnOk result (IsTaken (new_key write.now) write.now.number locks.old locks.new) }
    ensures free { IfOk result (λ free. free ≡ is_none (holder_of (new_key write.now) locks.old)) }
    ensures err { OnErr result (locks.new ≡ locks.old) }
{
    let free = locks.holder(write.table, write.key).is_none();
    locks.take(write.table, write.key, write.number)?;
    Ok(free)
}

/// Takes the key from whoever holds it, where nobody held it before.
fn give_up(locks: &mut Locks, table: u8, key: &[u8], free: bool)
    ensures { IsGivenBack (table, key.now) free locks.old locks.new }
{
    if free {
        locks.free(table, key);
    }
}

/// Takes the key of the transaction's last write from whoever holds it, where nobody held it before.
fn give_back(locks: &mut Locks, xacts: &Xacts, session: Session, free: bool)
    ensures { (at : WriteAt) → last_of (transactions.open_of xacts.now session) ≡ Some at → IsGivenBack (key_at at) free locks.old locks.new }
{
    if let Some(last) = last_write(xacts, session) {
        give_up(locks, last.table, last.key.as_slice(), free);
    }
}
