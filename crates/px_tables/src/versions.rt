ghost use Rattle.std.specs.Prelude.{◌≡◌, [], ◌∷◌, MatchOption};
ghost use Rattle.std.specs.Iterator.{YieldsFirstBy, item_count};

use px_cells::Slot;
use std::marker::Model;

/// The versions of a row that a walk along its chain is yet to meet, the newest first. Contracts see them as the list of their
/// slots.
#[derive(Drop)]
pub struct Versions<'a> {
    pub(crate) slots: &'a [Slot],
    /// The number of the next one's slot, 0 where there is none.
    pub(crate) number: u32,
}

impl<'a> Model for Versions<'a> {
    ghost use Rattle.std.specs.Prelude.{List, length};
    ghost use Rattle.px_chain.specs.declared.chain.Linked.{Linked};
    ghost use Rattle.px_tables.specs.Walked.{Ends, walked};

    ghost Value = { List Linked };

    ghost view = { λ it. walked (length it.slots.now) it.slots.now it.number };

    ghost invariant = { λ it. Ends it.slots.now it.number };
}

impl<'a> Iterator for Versions<'a> {
    type Item = (u32, &'a Slot);

    ghost next_gives = { YieldsFirstBy (λ version. record { number = version.0; slot = version.1.now }) (λ left. left) };

    ghost remaining = { item_count (λ left. left) };

    fn next(&mut self) -> Option<(u32, &'a Slot)> {
        let number = self.number;
        if number == 0 {
            return None;
        }
        let slot = &self.slots[number as usize];
        self.number = slot.next;
        Some((number, slot))
    }
}
