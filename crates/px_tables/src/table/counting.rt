ghost use Rattle.std.specs.Prelude.{◌≡◌, ◌+◌, length};
ghost use Rattle.px_chain.specs.Sound.{Layout};
ghost use Rattle.px_tables.specs.Held.{HasLayout};

use super::Table;
use crate::versions::Versions;

impl Table {
    /// The table's number.
    pub fn number(&self) -> u8
        ensures { result ≡ self.now.cells.number }
    {
        self.number
    }

    /// How many slots stand in the chains of the rows: those that were ever used, less those on the free list. The walk along that
    /// is the same as along a chain.
    pub fn version_count(&self) -> u32
        ensures { (layout : Layout) → HasLayout self.now.cells layout → self.now.cells.header.slots ≡ length layout.free_slots + result }
    {
        let free = Versions {
            slots: self.slots.as_slice(),
            number: self.header.free_slot,
        };
        let mut in_chains = self.header.slots;
        for _ in free {
            in_chains -= 1;
        }
        in_chains
    }
}
