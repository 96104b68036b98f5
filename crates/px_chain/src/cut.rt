ghost use Rattle.std.specs.Prelude.{◌≡◌};
ghost use Rattle.std.specs.Option.{option_copied};
ghost use Rattle.px_chain.specs.Links.{first_or, row_of};
ghost use Rattle.px_chain.specs.Near.{is_alone, near_header};

use crate::chain::Linked;
use px_cells::Header;
use px_free::{give_row, give_slot};
use std::marker::Model;

/// What an unlink reads of a chain: the slots that go, and their two neighbours.
#[derive(Drop)]
pub struct Cut<'a> {
    /// The slot in front of those that go, if there is one.
    pub(crate) newer: Option<&'a Linked>,
    /// The slots that go, the newest first.
    pub(crate) gone: &'a [Linked],
    /// The number of the slot behind them, if there is one.
    pub(crate) older: Option<u32>,
}

impl<'a> Model for Cut<'a> {
    ghost use Rattle.std.specs.Option.{option_copied};
    ghost use Rattle.px_chain.specs.Near.{Near};

    ghost Value = { Near };

    ghost view = { λ cut. record { newer = option_copied cut.newer; gone = cut.gone.now; older = cut.older } };
}

impl<'a> Cut<'a> {
    pub fn new(newer: Option<&'a Linked>, gone: &'a [Linked], older: Option<u32>) -> Cut<'a>
        ensures { result ≡ record { newer = option_copied newer.entry; gone = gone.now; older = older } }
    {
        Cut { newer, gone, older }
    }

    /// Whether no slot stays.
    pub(crate) fn is_alone(&self) -> bool
        ensures { result ≡ is_alone self.now }
    {
        self.newer.is_none() && self.older.is_none()
    }

    /// The number of the row pointer.
    pub(crate) fn row(&self) -> u32
        ensures { result ≡ row_of self.now.gone }
    {
        match self.gone.first() {
            Some(first) => first.slot.row,
            None => 0,
        }
    }

    /// The header once the slots are given back, and the row pointer too where no slot stays.
    pub(crate) fn header(&self, header: Header) -> Header
        ensures { result ≡ near_header header self.now }
    {
        let given = give_slot(header, number_or(self.gone, header.free_slot));
        if self.is_alone() {
            give_row(given, self.row())
        } else {
            given
        }
    }
}

/// The number of the first slot, else another one.
pub(crate) fn number_or(slots: &[Linked], other: u32) -> u32
    ensures { result ≡ first_or slots.now other }
{
    match slots.first() {
        Some(first) => first.number,
        None => other,
    }
}
