//! What calls that read are answered.

ghost use Rattle.std.specs.Prelude.{◌≡◌, IfOk, OnErr, OnOk};
ghost use Rattle.px_calls.specs.declared.call.Call.{Call};
ghost use Rattle.px_calls.specs.Steps.{reply_of, state_after};
ghost use Rattle.px_history.specs.Store.{Store};
ghost use Rattle.px_locks.specs.Holders.{Holders};
ghost use Rattle.px_model.specs.Machine.{Machine};
ghost use Rattle.px_answers.specs.Asking.{IsCallerOf, IsCallerOn};
ghost use Rattle.px_answers.specs.Keeping.{KeepsTickets};
ghost use Rattle.px_answers.specs.Reading.{Answers, ReadsOnly, call_for};
ghost use Rattle.px_answers.specs.Seeing.{Sees};

use crate::caller::Caller;
use crate::rows::{row_seen, rows_seen};
use crate::tickets::Tickets;
use px_calls::Reply;
use px_held::{Held, HeldError};
use px_model::MOST_TICKETS;
use px_site::Site;
use std::alloc::{AllocError, Global};

/// The row of the key, as the session's transaction sees it.
pub fn get<W: Site>(
    site: &mut W,
    held: &mut Held,
    caller: &Caller<'_>,
    table: u32,
    key: &[u8],
) -> Result<Reply, HeldError>
    ensures reply { W.tells → Answers (W.state site.old) held.old caller.now (Call.Get table key.now) result }
    ensures reads { ReadsOnly W.tells W.state W.counts site.old site.new held.old held.new result }
{
    let opened = match caller.may_read(table, key) {
        Ok(opened) => opened,
        Err(refusal) => return Ok(refusal),
    };
    match row_seen(site, held, &caller.reader(&opened), table as u8, key)? {
        Some(row) => Ok(Reply::RowIs(row)),
        None => Ok(Reply::NoRow),
    }
}

/// Keeps the row of the key by the session's next ticket. Without memory the tickets stay as they were.
pub fn hold<W: Site>(
    site: &mut W,
    held: &mut Held,
    caller: &Caller<'_>,
    tickets: &mut Tickets,
    table: u32,
    key: &[u8],
) -> Result<Reply, HeldError>
    ensures reply { W.tells → IsCallerOn held.old caller.now → (holders : Holders) (m : Machine) (store : Store)
        → Sees (W.state site.old) held.old caller.now.xacts.now holders m store → KeepsTickets tickets.old m → IfOk result (λ reply. reply ≡ reply_of m caller.now.session (Call.Hold table key.now)) }
    ensures keeps { W.tells → IsCallerOn held.old caller.now → (holders : Holders) (m : Machine) (store : Store)
        → Sees (W.state site.old) held.old caller.now.xacts.now holders m store → KeepsTickets tickets.old m → OnOk result (KeepsTickets tickets.new (state_after m caller.now.session (Call.Hold table key.now))) }
    ensures err { OnErr result (tickets.new ≡ tickets.old) }
    ensures reads { ReadsOnly W.tells W.state W.counts site.old site.new held.old held.new result }
{
    let opened = match caller.may_read(table, key) {
        Ok(opened) => opened,
        Err(refusal) => return Ok(refusal),
    };
    let kept = tickets.of(caller.session).len();
    if kept >= MOST_TICKETS {
        return Ok(Reply::LimitTickets);
    }
    let Some(row) = row_seen(site, held, &caller.reader(&opened), table as u8, key)? else {
        return Ok(Reply::Missing);
    };
    tickets.keep(caller.session, row)?;
    Ok(Reply::Held(kept as u32 + 1))
}

/// The row that the ticket keeps, as it was when it was held. Fails only for want of memory.
pub fn fetch(caller: &Caller<'_>, tickets: &Tickets, ticket: u32) -> Result<Reply, AllocError>
    ensures { (m : Machine) → IsCallerOf m caller.now → KeepsTickets tickets.now m
        → IfOk result (λ reply. reply ≡ reply_of m caller.now.session (Call.Fetch ticket)) }
{
    let Some(_opened) = caller.opened() else {
        return Ok(Reply::NoTransaction);
    };
    if ticket == 0 {
        return Ok(Reply::NoTicket);
    }
    match tickets.of(caller.session).get(ticket as usize - 1) {
        Some(row) => Ok(Reply::RowIs(row.copy()?)),
        None => Ok(Reply::NoTicket),
    }
}

/// The rows of the table that have the tag, in order of key.
pub fn find<W: Site>(
    alloc: Global,
    site: &mut W,
    held: &mut Held,
    caller: &Caller<'_>,
    table: u32,
    tag: u32,
) -> Result<Reply, HeldError>
    ensures reply { W.tells → Answers (W.state site.old) held.old caller.now (Call.Find table tag) result }
    ensures reads { ReadsOnly W.tells W.state W.counts site.old site.new held.old held.new result }
{
    rows_of(alloc, site, held, caller, table, Some(tag))
}

/// The rows of the table, in order of key.
pub fn scan<W: Site>(
    alloc: Global,
    site: &mut W,
    held: &mut Held,
    caller: &Caller<'_>,
    table: u32,
) -> Result<Reply, HeldError>
    ensures reply { W.tells → Answers (W.state site.old) held.old caller.now (Call.Scan table) result }
    ensures reads { ReadsOnly W.tells W.state W.counts site.old site.new held.old held.new result }
{
    rows_of(alloc, site, held, caller, table, None)
}

/// The rows of the table, of all tags or of one.
fn rows_of<W: Site>(
    alloc: Global,
    site: &mut W,
    held: &mut Held,
    caller: &Caller<'_>,
    table: u32,
    tag: Option<u32>,
) -> Result<Reply, HeldError>
    ensures reply { W.tells → Answers (W.state site.old) held.old caller.now (call_for table tag) result }
    ensures reads { ReadsOnly W.tells W.state W.counts site.old site.new held.old held.new result }
{
    let opened = match caller.may_read_table(table) {
        Ok(opened) => opened,
        Err(refusal) => return Ok(refusal),
    };
    let rows = rows_seen(alloc, site, held, &caller.reader(&opened), table as u8, tag)?;
    Ok(Reply::Rows(rows))
}
