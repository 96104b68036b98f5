//! The definitions of a call's reply and of the state after it, carried out over the list of all transactions: nothing is kept but
//! who wrote what, and each view is made anew by going through all writes. docs/MODEL.md has them in words.

use px_calls::{Call, Reply};
use px_model::{Bytes, Ended, MOST_TICKETS, Open, Row, RowList, Session, Write, Writes};
use std::alloc::Global;
use std::collections::BTreeMap;
use std::test::Fail;

/// How many tables the store has, and the longest body of a row.
const TABLES: u32 = 2;

const LONGEST_BODY: usize = 64;

/// The rows by table and key.
type Rows = BTreeMap<(u8, Vec<u8>), Row>;

/// A store without rows at its opening.
#[derive(Drop)]
pub(crate) struct Definitions {
    alloc: Global,
    /// The transactions that ended and had writes, in the order of their ends.
    ended: Vec<Ended>,
    /// The open transaction of each session.
    active: Vec<Option<Open>>,
    begun: u64,
}

impl Definitions {
    pub(crate) fn new(alloc: Global) -> Result<Definitions, Fail> {
        let mut active = Vec::new(alloc);
        for _ in 0..px_model::SESSIONS {
            active.push(None)?;
        }
        Ok(Definitions {
            alloc,
            ended: Vec::new(alloc),
            active,
            begun: 0,
        })
    }

    /// What a call is answered; the state is the one after it from then on.
    pub(crate) fn step(&mut self, session: Session, call: Call) -> Result<Reply, Fail> {
        let reply = self.reply(session, &call)?;
        if !reply.is_refusal() {
            self.take(session, call)?;
        }
        Ok(reply)
    }

    /// The rows that are committed now.
    pub(crate) fn committed(&self) -> Result<RowList, Fail> {
        let rows = self.rows_at(u64::try_from(self.ended.len())?)?;
        self.wanted(&rows, None, None)
    }

    /// The number of the transaction that begins next.
    fn next(&self) -> Result<u64, Fail> {
        Ok(self.begun.checked_add(1).ok_or("too many begins")?)
    }

    fn open_of(&self, session: Session) -> Option<&Open> {
        self.active.get(usize::from(session.index()))?.as_ref()
    }

    // ---- views

    /// The rows after the commits among the first so many ends.
    fn rows_at(&self, ends: u64) -> Result<Rows, Fail> {
        let mut rows = BTreeMap::new(self.alloc);
        for (place, ended) in self.ended.iter().enumerate() {
            if u64::try_from(place)? < ends && ended.committed {
                write_all(self.alloc, &mut rows, &ended.writes)?;
            }
        }
        Ok(rows)
    }

    /// What the transaction sees.
    fn view(&self, open: &Open) -> Result<Rows, Fail> {
        let mut rows = self.rows_at(open.snap)?;
        write_all(self.alloc, &mut rows, &open.writes)?;
        Ok(rows)
    }

    fn row(&self, open: &Open, table: u32, key: &Bytes) -> Result<Option<Row>, Fail> {
        let name = (
            u8::try_from(table)?,
            Vec::from_slice(self.alloc, key.as_slice())?,
        );
        match self.view(open)?.get(&name) {
            Some(row) => Ok(Some(row.copy()?)),
            None => Ok(None),
        }
    }

    /// Those of the rows that stand in the table and have the tag, where one is asked for.
    fn wanted(&self, rows: &Rows, table: Option<u32>, tag: Option<u32>) -> Result<RowList, Fail> {
        let mut wanted = RowList::new(self.alloc);
        for (_, row) in rows {
            let is_in_table = table.is_none() || table == Some(u32::from(row.table));
            if is_in_table && (tag.is_none() || tag == Some(row.tag)) {
                wanted.push(row.copy()?)?;
            }
        }
        Ok(wanted)
    }

    // ---- replies

    fn reply(&self, session: Session, call: &Call) -> Result<Reply, Fail> {
        let Some(open) = self.open_of(session) else {
            return Ok(match call {
                Call::Begin => Reply::Began(self.next()?),
                _ => Reply::NoTransaction,
            });
        };
        match call {
            Call::Begin => Ok(Reply::OpenAlready),
            Call::Fetch { ticket } => fetched(open, *ticket),
            Call::Commit => self.committed_reply(open),
            Call::Rollback => Ok(Reply::RolledBack),
            Call::Get { table, key } | Call::Hold { table, key } => {
                self.read_reply(open, call, *table, key)
            }
            Call::Find { table, .. } | Call::Scan { table } => self.rows_reply(open, call, *table),
            Call::Insert {
                table,
                key,
                body,
                ..
            }
            | Call::Update {
                table,
                key,
                body,
                ..
            } => { self.write_reply(session, open, call, *table, key, body.as_slice().len()) }
            Call::Delete { table, key } => { self.write_reply(session, open, call, *table, key, 0) }
        }
    }

    fn committed_reply(&self, open: &Open) -> Result<Reply, Fail> {
        if open.writes.as_slice().is_empty() {
            return Ok(Reply::EndedEmpty);
        }
        let commits = self.ended.iter().filter(|ended| ended.committed).count();
        let number = u64::try_from(commits)?.checked_add(1);
        Ok(Reply::Committed(number.ok_or("too many commits")?))
    }

    fn read_reply(&self, open: &Open, call: &Call, table: u32, key: &Bytes) -> Result<Reply, Fail> {
        if !has_table(table) {
            return Ok(Reply::NoTable);
        }
        if key.as_slice().is_empty() {
            return Ok(Reply::LimitKey);
        }
        let row = self.row(open, table, key)?;
        let kept = open.kept.as_slice().len();
        match call {
            Call::Hold { .. } if kept >= MOST_TICKETS => Ok(Reply::LimitTickets),
            Call::Hold { .. } if row.is_none() => Ok(Reply::Missing),
            Call::Hold { .. } => Ok(Reply::Held(
                u32::try_from(kept)?
                    .checked_add(1)
                    .ok_or("too many tickets")?,
            )),
            _ => Ok(row.map_or(Reply::NoRow, Reply::RowIs)),
        }
    }

    fn rows_reply(&self, open: &Open, call: &Call, table: u32) -> Result<Reply, Fail> {
        if !has_table(table) {
            return Ok(Reply::NoTable);
        }
        let tag = match call {
            Call::Find { tag, .. } => Some(*tag),
            _ => None,
        };
        Ok(Reply::Rows(self.wanted(&self.view(open)?, Some(table), tag)?))
    }

    fn write_reply(
        &self,
        session: Session,
        open: &Open,
        call: &Call,
        table: u32,
        key: &Bytes,
        body: usize,
    ) -> Result<Reply, Fail> {
        if !has_table(table) {
            return Ok(Reply::NoTable);
        }
        if key.as_slice().is_empty() {
            return Ok(Reply::LimitKey);
        }
        if body > LONGEST_BODY {
            return Ok(Reply::LimitBody);
        }
        if let Some(number) = self.conflict(session, open, table, key)? {
            return Ok(Reply::Conflict(number));
        }
        let is_there = self.row(open, table, key)?.is_some();
        Ok(match call {
            Call::Insert { .. } if is_there => Reply::Duplicate,
            Call::Insert { .. } => Reply::Inserted,
            _ if !is_there => Reply::Missing,
            Call::Update { .. } => Reply::Updated,
            _ => Reply::Deleted,
        })
    }

    /// Another open transaction that wrote the key, else the last one at or past the snapshot that did and committed.
    fn conflict(
        &self,
        session: Session,
        open: &Open,
        table: u32,
        key: &Bytes,
    ) -> Result<Option<u64>, Fail> {
        for (place, other) in self.active.iter().enumerate() {
            if let Some(other) = other {
                if place != usize::from(session.index()) && has_written(&other.writes, table, key) {
                    return Ok(Some(other.number));
                }
            }
        }
        self.last_writer(open.snap, table, key)
    }

    fn last_writer(&self, snap: u64, table: u32, key: &Bytes) -> Result<Option<u64>, Fail> {
        let mut last = None;
        for (place, ended) in self.ended.iter().enumerate() {
            if u64::try_from(place)? >= snap
                && ended.committed
                && has_written(&ended.writes, table, key)
            {
                last = Some(ended.number);
            }
        }
        Ok(last)
    }

    // ---- the state after a call that isn't refused

    fn take(&mut self, session: Session, call: Call) -> Result<(), Fail> {
        match call {
            Call::Begin => self.begin(session),
            Call::Commit => self.end(session, true),
            Call::Rollback => self.end(session, false),
            Call::Hold { table, key } => self.keep(session, table, &key),
            Call::Insert {
                table,
                key,
                tag,
                body,
            }
            | Call::Update {
                table,
                key,
                tag,
                body,
            } => {
                let table = u8::try_from(table)?;
                self.write(
                    session,
                    Write::Put(Row {
                        table,
                        key,
                        tag,
                        body,
                    }),
                )
            }
            Call::Delete { table, key } => {
                let table = u8::try_from(table)?;
                self.write(session, Write::Delete { table, key })
            }
            Call::Get { .. } | Call::Fetch { .. } | Call::Find { .. } | Call::Scan { .. } => Ok(()),
        }
    }

    fn begin(&mut self, session: Session) -> Result<(), Fail> {
        self.begun = self.next()?;
        let open = Open {
            number: self.begun,
            snap: u64::try_from(self.ended.len())?,
            writes: Writes::new(self.alloc),
            kept: RowList::new(self.alloc),
        };
        self.set(session, Some(open))
    }

    fn end(&mut self, session: Session, committed: bool) -> Result<(), Fail> {
        let Open {
            number,
            snap,
            writes,
            ..
        } = self.taken(session)?;
        if !writes.as_slice().is_empty() {
            self.ended.push(Ended {
                number,
                committed,
                snap,
                writes,
            })?;
        }
        Ok(())
    }

    fn keep(&mut self, session: Session, table: u32, key: &Bytes) -> Result<(), Fail> {
        let mut open = self.taken(session)?;
        let row = self.row(&open, table, key)?.ok_or("no row")?;
        open.kept.push(row)?;
        self.set(session, Some(open))
    }

    fn write(&mut self, session: Session, write: Write) -> Result<(), Fail> {
        let mut open = self.taken(session)?;
        open.writes.push(write)?;
        self.set(session, Some(open))
    }

    fn taken(&mut self, session: Session) -> Result<Open, Fail> {
        let slot = self
            .active
            .get_mut(usize::from(session.index()))
            .ok_or("no session")?;
        Ok(slot.take().ok_or("no transaction")?)
    }

    fn set(&mut self, session: Session, open: Option<Open>) -> Result<(), Fail> {
        let slot = self
            .active
            .get_mut(usize::from(session.index()))
            .ok_or("no session")?;
        *slot = open;
        Ok(())
    }
}

fn has_table(table: u32) -> bool {
    1 <= table && table <= TABLES
}

fn fetched(open: &Open, ticket: u32) -> Result<Reply, Fail> {
    let place = usize::try_from(ticket)?.checked_sub(1);
    match place.and_then(|place| open.kept.as_slice().get(place)) {
        Some(row) => Ok(Reply::RowIs(row.copy()?)),
        None => Ok(Reply::NoTicket),
    }
}

fn has_written(writes: &Writes, table: u32, key: &Bytes) -> bool {
    writes
        .as_slice()
        .iter()
        .any(|write| is_of(write, table, key))
}

fn is_of(write: &Write, table: u32, key: &Bytes) -> bool {
    let (written, its_key) = match write {
        Write::Put(row) => (row.table, &row.key),
        Write::Delete { table, key } => (*table, key),
    };
    u32::from(written) == table && its_key.as_slice() == key.as_slice()
}

/// The rows after these writes.
fn write_all(alloc: Global, rows: &mut Rows, writes: &Writes) -> Result<(), Fail> {
    for write in writes.as_slice() {
        write_one(alloc, rows, write)?;
    }
    Ok(())
}

fn write_one(alloc: Global, rows: &mut Rows, write: &Write) -> Result<(), Fail> {
    match write {
        Write::Put(row) => {
            let name = (row.table, Vec::from_slice(alloc, row.key.as_slice())?);
            rows.insert(name, row.copy()?)?;
        }
        Write::Delete { table, key } => {
            let name = (*table, Vec::from_slice(alloc, key.as_slice())?);
            let _row = rows.remove(&name);
        }
    }
    Ok(())
}
