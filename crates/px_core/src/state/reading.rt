//! The calls that change no cell and add no frame.

ghost use Rattle.std.specs.Prelude.{◌≡◌, ◌≤◌, None, length, true};
ghost use Rattle.px_answers.specs.Asking.{IsCallerOn};
ghost use Rattle.px_calls.specs.declared.call.Call.{Call};
ghost use Rattle.px_model.specs.declared.limits.TheConstants.{MOST_TABLES};
ghost use Rattle.px_core.specs.Core.{IsWell, adds_nothing};
ghost use Rattle.px_core.specs.Serving.{Reads, Serves};

use super::Kept;
use crate::CoreError;
use px_answers::{Caller, fetch, find, get, hold, scan};
use px_calls::{Call, Reply};
use px_held::{Held, HeldError};
use px_model::Session;
use px_site::Site;
use px_xacts::Xacts;

impl<W: Site> Kept<W> {
    // A call that changes no cell and adds no frame.
    pub(super) fn answer(&mut self, session: Session, call: Call) -> Result<Reply, CoreError>
        requires well { IsWell W.state self.old }
        requires whole { self.old.error ≡ None }
        requires reads { adds_nothing call ≡ true }
        ensures { Serves W.tells W.state W.counts session call self.old self.new result }
    {
        Ok(self.read(session, &call)?)
    }

    fn read(&mut self, session: Session, call: &Call) -> Result<Reply, HeldError>
        requires well { IsWell W.state self.old }
        requires reads { adds_nothing call.now ≡ true }
        ensures { Reads W.tells W.state W.counts session call.now self.old self.new result }
    {
        match call {
            Call::Begin => self.begin(session),
            Call::Get { table, key } => self.get(session, *table, key.as_slice()),
            Call::Hold { table, key } => self.hold(session, *table, key.as_slice()),
            Call::Fetch { ticket } => self.fetch(session, *ticket),
            Call::Find { table, tag } => self.find(session, *table, *tag),
            Call::Scan { table } => self.scan(session, *table),
            _ => unreachable!(),
        }
    }

    fn begin(&mut self, session: Session) -> Result<Reply, HeldError>
        ensures { Reads W.tells W.state W.counts session Call.Begin self.old self.new result }
    {
        Ok(self.active.begin(session, self.log.frames())?)
    }

    fn get(&mut self, session: Session, table: u32, key: &[u8]) -> Result<Reply, HeldError>
        requires { IsWell W.state self.old }
        ensures { Reads W.tells W.state W.counts session (Call.Get table key.now) self.old self.new result }
    {
        let caller = caller(session, &self.active.xacts, &self.held);
        get(&mut self.site, &mut self.held, &caller, table, key)
    }

    fn hold(&mut self, session: Session, table: u32, key: &[u8]) -> Result<Reply, HeldError>
        requires { IsWell W.state self.old }
        ensures { Reads W.tells W.state W.counts session (Call.Hold table key.now) self.old self.new result }
    {
        let caller = caller(session, &self.active.xacts, &self.held);
        let tickets = &mut self.active.tickets;
        hold(&mut self.site, &mut self.held, &caller, tickets, table, key)
    }

    fn fetch(&mut self, session: Session, ticket: u32) -> Result<Reply, HeldError>
        requires { IsWell W.state self.old }
        ensures { Reads W.tells W.state W.counts session (Call.Fetch ticket) self.old self.new result }
    {
        let caller = caller(session, &self.active.xacts, &self.held);
        Ok(fetch(&caller, &self.active.tickets, ticket)?)
    }

    fn find(&mut self, session: Session, table: u32, tag: u32) -> Result<Reply, HeldError>
        requires { IsWell W.state self.old }
        ensures { Reads W.tells W.state W.counts session (Call.Find table tag) self.old self.new result }
    {
        let caller = caller(session, &self.active.xacts, &self.held);
        find(
            self.alloc,
            &mut self.site,
            &mut self.held,
            &caller,
            table,
            tag,
        )
    }

    fn scan(&mut self, session: Session, table: u32) -> Result<Reply, HeldError>
        requires { IsWell W.state self.old }
        ensures { Reads W.tells W.state W.counts session (Call.Scan table) self.old self.new result }
    {
        let caller = caller(session, &self.active.xacts, &self.held);
        scan(self.alloc, &mut self.site, &mut self.held, &caller, table)
    }
}

/// Who calls.
pub(super) fn caller<'a>(session: Session, xacts: &'a Xacts, held: &Held) -> Caller<'a>
    requires { length held.now.tables ≤ MOST_TABLES }
    ensures on { IsCallerOn held.now result }
    ensures session { result.session ≡ session }
    ensures xacts { result.xacts.now ≡ xacts.now }
{
    Caller {
        session,
        xacts,
        tables: held.tables() as u8,
        short: held.short(),
    }
}
