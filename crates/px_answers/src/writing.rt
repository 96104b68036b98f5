//! What a write is answered before its version has a place.

ghost use Rattle.std.specs.Prelude.{◌≡◌, ◌<◌, ℕ, List, IfErr, IfOk, false, is_some, true};
ghost use Rattle.px_calls.specs.declared.call.Call.{Call};
ghost use Rattle.px_calls.specs.Steps.{is_refusal, reply_of};
ghost use Rattle.px_chain_laws.specs.Reading.{newest_committed, writer_past};
ghost use Rattle.px_held.specs.Errors.{HasReadCause, IsPassing};
ghost use Rattle.px_held.specs.Serving.{Serves};
ghost use Rattle.px_history.specs.Fitting.{IsStoredNumber};
ghost use Rattle.px_history.specs.Store.{Store};
ghost use Rattle.px_locks.specs.Holders.{Holders, unless_held_by};
ghost use Rattle.px_model.specs.declared.machine.Open.{Open};
ghost use Rattle.px_model.specs.Machine.{Machine, view};
ghost use Rattle.px_model.specs.Rows.{row_at};
ghost use Rattle.px_shown.specs.Tables.{AreSound};
ghost use Rattle.px_answers.specs.Asking.{IsCallerOf, IsCallerOn, IsOpenIn};
ghost use Rattle.px_answers.specs.Reading.{ForReader, ReadsOnly, Stays};
ghost use Rattle.px_answers.specs.Seeing.{Sees};
ghost use Rattle.px_answers.specs.Writing.{Asks, FitsIn, IsAdmitted, IsAnswered, IsFound, MayAsk, MayWrite, committed_since, is_wrong, refusal_of};

use crate::caller::{Caller, Opened, fits_key};
use crate::rows::row_in;
use px_calls::Reply;
use px_chain::SlotView;
use px_held::{Held, HeldError, Reader};
use px_locks::Locks;
use px_model::{MOST_WRITES, Standing};
use px_site::Site;

/// What a write needs: that the row is there, or that it isn't.
#[derive(Clone, Copy, Debug, PartialEq, Eq)]
pub enum Wants {
    Present,
    Absent,
}

/// What a session asks to write. A deletion has no body.
#[derive(Clone, Copy, Drop)]
pub struct Asked<'a> {
    pub table: u32,
    pub key: &'a [u8],
    pub body: Option<&'a [u8]>,
    pub wants: Wants,
}

/// A transaction that may write: which begin since the opening it was, from 1, and its stored number.
#[derive(Clone, Copy, Debug)]
pub struct Writer {
    pub number: u64,
    pub stored: u64,
}

impl<'a> Asked<'a> {
    /// A row of that key that isn't there.
    pub fn insert(table: u32, key: &'a [u8], body: &'a [u8]) -> Asked<'a>
        ensures { (tag : ℕ) → Asks (Call.Insert table key.now tag body.now) result }
    {
        Asked {
            table,
            key,
            body: Some(body),
            wants: Wants::Absent,
        }
    }

    /// A row in the place of the one with that key.
    pub fn update(table: u32, key: &'a [u8], body: &'a [u8]) -> Asked<'a>
        ensures { (tag : ℕ) → Asks (Call.Update table key.now tag body.now) result }
    {
        Asked {
            table,
            key,
            body: Some(body),
            wants: Wants::Present,
        }
    }

    /// That the row with that key goes.
    pub fn delete(table: u32, key: &'a [u8]) -> Asked<'a>
        ensures { Asks (Call.Delete table key.now) result }
    {
        Asked {
            table,
            key,
            body: None,
            wants: Wants::Present,
        }
    }
}

/// The session's transaction, where it may write the row of the key, and else the refusal. That the table is full isn't one of
/// these refusals: it shows where the next version gets no place.
pub fn may_write<W: Site>(
    site: &mut W,
    held: &mut Held,
    caller: &Caller<'_>,
    locks: &Locks,
    asked: &Asked<'_>,
) -> Result<Result<Writer, Reply>, HeldError>
    ensures may { W.tells → IsCallerOn held.old caller.now → (m : Machine) (store : Store) (call : Call)
        → Sees (W.state site.old) held.old caller.now.xacts.now locks.now m store → Asks call asked.now → IfOk result (λ answer. IfOk answer (MayWrite m caller.now.session call asked.now.table)) }
    ensures refused { W.tells → IsCallerOn held.old caller.now → (m : Machine) (store : Store) (call : Call)
        → Sees (W.state site.old) held.old caller.now.xacts.now locks.now m store → Asks call asked.now → IfOk result (λ answer. IfErr answer (λ reply. reply ≡ reply_of m caller.now.session call)) }
    ensures refusal { IfOk result (λ answer. IfErr answer (λ reply. is_refusal reply ≡ true)) }
    ensures admitted { IfOk result (λ answer. IfOk answer (IsAdmitted caller.now locks.now asked.now)) }
    ensures stored { IfOk result (λ answer. IfOk answer (λ writer. IsStoredNumber writer.stored)) }
    ensures reads { ReadsOnly W.tells W.state W.counts site.old site.new held.old held.new result }
{
    let opened = match may_ask(caller, asked) {
        Ok(opened) => opened,
        Err(refusal) => return Ok(Err(refusal)),
    };
    let table = asked.table as u8;
    if let Some(number) = other_than(locks.holder(table, asked.key), opened.number) {
        return Ok(Err(Reply::Conflict(number)));
    }
    let row = held.row_of(site, table, asked.key)?;
    if let Some(number) = committer(site, held, caller, &opened, table, row)? {
        return Ok(Err(Reply::Conflict(number)));
    }
    let is_there = is_there(site, held, &caller.reader(&opened), table, row)?;
    Ok(writer_unless(is_there, asked.wants, &opened))
}

/// The session's transaction, where nothing refuses it the write that needs no cell, and else the refusal.
fn may_ask(caller: &Caller<'_>, asked: &Asked<'_>) -> Result<Opened, Reply>
    ensures may { (m : Machine) → IsCallerOf m caller.now → IfOk result (MayAsk m caller.now.session asked.now) }
    ensures refused { (m : Machine) → IsCallerOf m caller.now → IfErr result (IsAnswered m caller.now.session asked.now) }
    ensures refusal { IfErr result (λ reply. is_refusal reply ≡ true) }
    ensures fits { IfOk result (FitsIn caller.now asked.now) }
    ensures stored { IfOk result (λ opened. IsStoredNumber opened.stored) }
    ensures small { IfOk result (λ _. asked.now.table < 256) }
{
    let Some(opened) = caller.opened() else {
        return Err(Reply::NoTransaction);
    };
    if !caller.has_table(asked.table) {
        return Err(Reply::NoTable);
    }
    if !fits_key(asked.key) {
        return Err(Reply::LimitKey);
    }
    if !caller.fits_body(asked.body) {
        return Err(Reply::LimitBody);
    }
    if opened.writes >= MOST_WRITES {
        return Err(Reply::LimitWrites);
    }
    Ok(opened)
}

/// The holder, where it isn't this transaction.
fn other_than(holder: Option<u64>, number: u64) -> Option<u64>
    ensures { result ≡ unless_held_by number holder }
{
    match holder {
        Some(other) if other != number => Some(other),
        _ => None,
    }
}

/// The number of the transaction that committed the row last, where it did so at or past the snapshot of the opened one.
fn committer<W: Site>(
    site: &mut W,
    held: &mut Held,
    caller: &Caller<'_>,
    opened: &Opened,
    table: u8,
    row: Option<u32>,
) -> Result<Option<u64>, HeldError>
    ensures number { W.tells → (holders : Holders) (m : Machine) (store : Store) (xact : Open) (key : List ℕ)
        → Sees (W.state site.old) held.old caller.now.xacts.now holders m store → IsOpenIn m caller.now.session xact opened.now
        → IsFound (store.tables table) key row → IfOk result (λ number. number ≡ writer_past m xact.snap (newest_committed m (table, key))) }
    ensures stays { Stays W.tells W.state W.counts site.old site.new held.old held.new }
    ensures fault { IfErr result (HasReadCause (W.counts site.old) (W.counts site.new)) }
    ensures sound { W.tells → (store : Store) (key : List ℕ) → Serves (W.state site.old) held.old store → IsFound (store.tables table) key row
        → IfErr result IsPassing }
{
    let Some(row) = row else {
        return Ok(None);
    };
    let newest = held.newest_committed(site, table, row, caller.xacts)?;
    Ok(committed_since(newest, caller.xacts.base(), opened.snapshot))
}

/// The number of the version's transaction, where it committed at or past the snapshot.
fn committed_since(newest: Option<SlotView>, base: u64, snapshot: u64) -> Option<u64>
    ensures { result ≡ committed_since base snapshot newest }
{
    let view = newest?;
    match view.standing {
        Standing::Committed(place) if place >= snapshot => Some(view.xn.saturating_sub(base)),
        _ => None,
    }
}

/// Whether the reader sees a row in the cells of that row, if there is one.
fn is_there<W: Site>(
    site: &mut W,
    held: &mut Held,
    reader: &Reader<'_>,
    table: u8,
    row: Option<u32>,
) -> Result<bool, HeldError>
    ensures there { W.tells → ForReader (W.state site.old) held.old reader.now (λ store m xact. (key : List ℕ) → IsFound (store.tables table) key row
        → IfOk result (λ there. there ≡ is_some (row_at (table, key) (view m xact)))) }
    ensures stays { Stays W.tells W.state W.counts site.old site.new held.old held.new }
    ensures fault { IfErr result (HasReadCause (W.counts site.old) (W.counts site.new)) }
    ensures sound { W.tells → (short : ℕ) (store : Store) (key : List ℕ) → Serves (W.state site.old) held.old store
        → AreSound short store.tables store.layouts → IsFound (store.tables table) key row → IfErr result IsPassing }
{
    match row {
        Some(row) => Ok(row_in(site, held, reader, table, row)?.is_some()),
        None => Ok(false),
    }
}

/// The opened transaction as a writer, unless what is there refuses it.
fn writer_unless(is_there: bool, wants: Wants, opened: &Opened) -> Result<Writer, Reply>
    ensures refused { IfErr result (λ reply. (is_wrong wants is_there ≡ true) × (reply ≡ refusal_of wants)) }
    ensures writer { IfOk result (λ writer. (is_wrong wants is_there ≡ false) × (writer.number ≡ opened.now.number) × (writer.stored ≡ opened.now.stored)) }
{
    match (wants, is_there) {
        (Wants::Absent, true) => Err(Reply::Duplicate),
        (Wants::Present, false) => Err(Reply::Missing),
        _ => Ok(Writer {
            number: opened.number,
            stored: opened.stored,
        }),
    }
}
