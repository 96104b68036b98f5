ghost use Rattle.std.specs.Prelude.{◌≡◌};
ghost use Rattle.px_chain.specs.Links.{IsStored};
ghost use Rattle.px_history.specs.Steps.{Step};
ghost use Rattle.px_held.specs.Linking.{HasPlaceFor, IsReady, step_of};
ghost use Rattle.px_held.specs.Serving.{HeldTables};

use px_cells::Slot;
use px_tables::{Linking, Place, Unlinking};

/// A version of a row of this table that is prepared.
#[derive(Debug, Drop)]
pub struct Prepared {
    pub table: u8,
    pub linking: Linking,
}

impl Prepared {
    /// The version in this slot, prepared to go to this place of the table. The slot may have a part in a data log, whose record
    /// names the slot by its number there.
    pub fn link(table: u8, place: Place, slot: Slot) -> Prepared
        requires row { slot.row ≡ place.row }
        requires next { slot.next ≡ place.next }
        ensures step { step_of result ≡ Step.put table place.header slot }
        ensures ready { (held : HeldTables) → HasPlaceFor held table slot.key place → IsStored held.short slot → IsReady held result }
    {
        let linking = place.link(slot);
        Prepared { table, linking }
    }
}

/// Versions of a row of this table that are prepared to go.
#[derive(Debug, Drop)]
pub struct PreparedUnlink {
    pub table: u8,
    pub unlinking: Unlinking,
}
