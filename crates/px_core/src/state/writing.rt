//! The writes.

ghost use Rattle.std.specs.Prelude.{◌≡◌, Some, None, true};
ghost use Rattle.px_answers.specs.Writing.{Asks, reply_done};
ghost use Rattle.px_chain_laws.specs.Writing.{write_of};
ghost use Rattle.px_model.specs.Rows.{key_written};
ghost use Rattle.px_working.specs.Follows.{last_store};
ghost use Rattle.px_core.specs.Core.{IsWell, is_write};
ghost use Rattle.px_core.specs.Serving.{Does, Finds, HasRoom, IsSmallWrite, MayPut, Serves};

use super::Kept;
use super::reading::caller;
use crate::CoreError;
use px_active::NewWrite;
use px_answers::{Asked, Writer, may_write};
use px_appending::append_version;
use px_calls::{Call, Reply};
use px_held::{HeldError, Prepared};
use px_model::{MOST_VARIATIONS, Row, Session, Write};
use px_site::Site;
use px_tables::Place;

/// Who may write, and where the version goes.
#[derive(Clone, Copy, Debug)]
pub(super) struct Ready {
    pub writer: Writer,
    pub place: Place,
}

impl<W: Site> Kept<W> {
    // A write that isn't refused appends its frame.
    pub(super) fn write(&mut self, session: Session, call: Call) -> Result<Reply, CoreError>
        requires well { IsWell W.state self.old }
        requires whole { self.old.error ≡ None }
        requires writes { is_write call ≡ true }
        ensures { Serves W.tells W.state W.counts session call self.old self.new result }
    {
        match self.place_for(session, &call)? {
            Ok(ready) => self.put(session, ready, call),
            Err(refusal) => Ok(refusal),
        }
    }

    // Where the version of a write goes, and else the refusal.
    fn place_for(
        &mut self,
        session: Session,
        call: &Call,
    ) -> Result<Result<Ready, Reply>, HeldError>
        requires well { IsWell W.state self.old }
        requires writes { is_write call.now ≡ true }
        ensures { Finds W.tells W.state W.counts session call.now self.old self.new result }
    {
        let asked = asked_by(call);
        let caller = caller(session, &self.active.xacts, &self.held);
        let locks = &self.active.locks;
        let writer = match may_write(&mut self.site, &mut self.held, &caller, locks, &asked)? {
            Ok(writer) => writer,
            Err(refusal) => return Ok(Err(refusal)),
        };
        match self
            .held
            .place_for(&mut self.site, asked.table as u8, asked.key)?
        {
            Some(place) => Ok(Ok(Ready { writer, place })),
            None => Ok(Err(Reply::TableFull(MOST_VARIATIONS))),
        }
    }

    // Notes the version, appends its frame, and lays its cells. Where the frame isn't appended the version is taken back. The key and
    // the body move from the call into the slot.
    fn put(&mut self, session: Session, ready: Ready, call: Call) -> Result<Reply, CoreError>
        requires well { IsWell W.state self.old }
        requires whole { self.old.error ≡ None }
        requires room { HasRoom self.old session call ready }
        ensures { Does W.tells W.state W.counts session call self.old self.new (λ m works. MayPut m (last_store works.life) session call ready) result }
    {
        let done = reply_done(&call);
        let write = write_of(call);
        let table = table_of(&write);
        let slot = ready.place.version(self.alloc, ready.writer.stored, write);
        let new = NewWrite {
            session,
            number: ready.writer.number,
            table,
            row: slot.row,
            slot: ready.place.number,
            key: slot.key.as_slice(),
        };
        let free = self.active.write(self.alloc, &new)?;
        let prepared = Prepared::link(table, ready.place, slot);
        if let Err(error) = append_version(
            &mut self.site,
            &mut self.held,
            &mut self.log,
            prepared,
        ) {
            self.active.take_back(session, free);
            return Err(self.after_log_error(error));
        }
        Ok(done)
    }
}

/// What the write asks for.
fn asked_by(call: &Call) -> Asked<'_>
    requires { is_write call.now ≡ true }
    ensures { Asks call.now result }
{
    match call {
        Call::Insert {
            table,
            key,
            body,
            ..
        } => Asked::insert(*table, key.as_slice(), body.as_slice()),
        Call::Update {
            table,
            key,
            body,
            ..
        } => Asked::update(*table, key.as_slice(), body.as_slice()),
        Call::Delete { table, key } => Asked::delete(*table, key.as_slice()),
        _ => unreachable!(),
    }
}

/// What is answered where it is done.
fn reply_done(call: &Call) -> Reply
    ensures { result ≡ reply_done call.now }
{
    match call {
        Call::Insert { .. } => Reply::Inserted,
        Call::Update { .. } => Reply::Updated,
        Call::Delete { .. } => Reply::Deleted,
        _ => Reply::NoRow,
    }
}

/// What it writes.
fn write_of(call: Call) -> Write
    requires { IsSmallWrite call }
    ensures { write_of call ≡ Some result }
{
    match call {
        Call::Insert {
            table,
            key,
            tag,
            body,
        }
        | Call::Update {
            table,
            key,
            tag,
            body,
        } => {
            Write::Put(Row {
                table: table as u8,
                key,
                tag,
                body,
            })
        }
        Call::Delete { table, key } => Write::Delete {
            table: table as u8,
            key,
        },
        _ => unreachable!(),
    }
}

/// The number of the table.
fn table_of(write: &Write) -> u8
    ensures { result ≡ (key_written write.now).0 }
{
    match write {
        Write::Put(row) => row.table,
        Write::Delete { table, key: _ } => *table,
    }
}
