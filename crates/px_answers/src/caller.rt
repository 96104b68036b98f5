ghost use Rattle.std.specs.Prelude.{◌≡◌, ◌<◌, ◌≤◌, IfErr, IfOk, IfSome, length, option_map, true};
ghost use Rattle.std.specs.Bool.{OnTrue};
ghost use Rattle.px_calls.specs.Steps.{fits_key, has_table, is_refusal};
ghost use Rattle.px_history.specs.Fitting.{IsStoredNumber};
ghost use Rattle.px_model.specs.Machine.{Machine};
ghost use Rattle.px_tables.specs.Linking.{IsKey};
ghost use Rattle.px_xacts.specs.Transactions.{open_of};
ghost use Rattle.px_answers.specs.Asking.{IsCallerOf, IsKeyRefusal, IsTableRefusal, MayReadKey, MayReadTable, opened_of};
ghost use Rattle.px_answers.specs.Writing.{fits_asked};

use px_calls::Reply;
use px_held::Reader;
use px_model::{LONGEST_KEY, Session};
use px_xacts::Xacts;

/// A session that calls, the transactions of its store, and what is known in memory of its tables.
#[derive(Clone, Copy, Drop)]
pub struct Caller<'a> {
    pub session: Session,
    pub xacts: &'a Xacts,
    /// How many tables the store has, and how many bytes of a row's body stand in its slot at most.
    pub tables: u8,
    pub short: u32,
}

/// What is known of an open transaction.
#[derive(Clone, Copy, Debug)]
pub(crate) struct Opened {
    /// Which begin since the opening it was, from 1, and its stored number.
    pub number: u64,
    pub stored: u64,
    /// How many transactions had ended when it began.
    pub snapshot: u64,
    /// How many writes it has.
    pub writes: usize,
}

impl<'a> Caller<'a> {
    /// The session's open transaction.
    pub(crate) fn opened(&self) -> Option<Opened>
        ensures is { result ≡ option_map (opened_of self.now.xacts.now) (open_of self.now.xacts.now self.now.session) }
        ensures stored { IfSome result (λ opened. IsStoredNumber opened.stored) }
    {
        let transaction = self.xacts.open_of(self.session)?;
        Some(Opened {
            number: transaction.number,
            stored: self.xacts.base() + transaction.number,
            snapshot: transaction.snap,
            writes: transaction.writes.as_slice().len(),
        })
    }

    /// The transaction as a reader of cells.
    pub(crate) fn reader(&self, opened: &Opened) -> Reader<'a>
        ensures xacts { result.xacts.now ≡ self.now.xacts.now }
        ensures own { result.own ≡ opened.now.stored }
        ensures snapshot { result.snapshot ≡ opened.now.snapshot }
    {
        Reader {
            xacts: self.xacts,
            own: opened.stored,
            snapshot: opened.snapshot,
        }
    }

    /// Tells whether there is a table of that number; they go from 1 to how many there are.
    #[tactic(auto, unfolding(px_calls::specs::Steps::has_table))]
    pub(crate) fn has_table(&self, table: u32) -> bool
        ensures is { (m : Machine) → IsCallerOf m self.now → result ≡ has_table m table }
        ensures within { OnTrue result ((1 ≤ table) × (table ≤ self.now.tables)) }
        ensures fits { OnTrue result (table < 256) }
    {
        1 <= table && table <= self.tables as u32
    }

    /// Tells whether a write may have the body; a deletion has none.
    #[tactic(auto, unfolding(px_calls::specs::Steps::fits_body, px_calls::specs::Steps::longest_body))]
    pub(crate) fn fits_body(&self, body: Option<&[u8]>) -> bool
        ensures is { (m : Machine) → IsCallerOf m self.now → result ≡ fits_asked m (option_map (λ bytes. bytes.now) body.entry) }
        ensures fits { OnTrue result (IfSome (option_map (λ bytes. bytes.now) body.entry) (λ bytes. length bytes ≤ self.now.short)) }
    {
        match body {
            Some(body) => body.len() <= self.short as usize,
            None => true,
        }
    }

    /// The session's transaction, where it may read rows of the table, and else the refusal.
    pub(crate) fn may_read_table(&self, table: u32) -> Result<Opened, Reply>
        ensures may { (m : Machine) → IsCallerOf m self.now → IfOk result (MayReadTable m self.now.session table) }
        ensures refused { (m : Machine) → IsCallerOf m self.now → IfErr result (IsTableRefusal m self.now.session table) }
        ensures refusal { IfErr result (λ reply. is_refusal reply ≡ true) }
        ensures small { IfOk result (λ _. table < 256) }
    {
        let Some(opened) = self.opened() else {
            return Err(Reply::NoTransaction);
        };
        if !self.has_table(table) {
            return Err(Reply::NoTable);
        }
        Ok(opened)
    }

    /// The session's transaction, where it may read the row of the key, and else the refusal.
    pub(crate) fn may_read(&self, table: u32, key: &[u8]) -> Result<Opened, Reply>
        ensures may { (m : Machine) → IsCallerOf m self.now → IfOk result (MayReadKey m self.now.session table key.now) }
        ensures refused { (m : Machine) → IsCallerOf m self.now → IfErr result (IsKeyRefusal m self.now.session table key.now) }
        ensures refusal { IfErr result (λ reply. is_refusal reply ≡ true) }
        ensures small { IfOk result (λ _. table < 256) }
    {
        let opened = self.may_read_table(table)?;
        if !fits_key(key) {
            return Err(Reply::LimitKey);
        }
        Ok(opened)
    }
}

/// Tells whether the key has 1 to 64 bytes.
#[tactic(auto, unfolding(px_calls::specs::Steps::fits_key))]
pub(crate) fn fits_key(key: &[u8]) -> bool
    ensures is { result ≡ fits_key key.now }
    ensures fits { OnTrue result (IsKey key.now) }
{
    1 <= key.len() && key.len() <= LONGEST_KEY
}
