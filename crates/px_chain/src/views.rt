ghost use Rattle.std.specs.Prelude.{◌≡◌, find};
ghost use Rattle.std.specs.Option.{option_map};
ghost use Rattle.px_chain.specs.declared.views.SlotView.{SlotView};
ghost use Rattle.px_chain.specs.Visible.{is_done, is_visible};

use px_model::Standing;

/// What a reader needs of a slot in a chain: its number, the stored number of the transaction that wrote it, and what became
/// of that.
#[derive(Clone, Copy, Debug, PartialEq, Eq)]
pub struct SlotView {
    pub slot: u32,
    pub xn: u64,
    pub standing: Standing,
}

impl SlotView {
    /// Whether the reader sees it: it wrote it itself, or it was done before the reader began.
    pub fn is_visible(&self, own: u64, snapshot: u64) -> bool
        ensures { result ≡ is_visible own snapshot self.now }
    {
        self.xn == own || is_done(self.standing, snapshot)
    }
}

/// The slot of a chain, the newest first, that a reader sees: the first that it wrote itself, or that was done before the
/// store was opened, or committed at a place below the snapshot. `own` is the reader's stored number. None where there is no
/// such slot.
pub fn visible(chain: &[SlotView], own: u64, snapshot: u64) -> Option<u32>
    ensures { result ≡ option_map (λ view. view.slot) (find (is_visible own snapshot) chain.now) }
{
    for view in chain {
        if view.is_visible(own, snapshot) {
            return Some(view.slot);
        }
    }
    None
}

fn is_done(standing: Standing, snapshot: u64) -> bool
    ensures { result ≡ is_done snapshot standing }
{
    match standing {
        Standing::Before => true,
        Standing::Open | Standing::RolledBack => false,
        Standing::Committed(place) => place < snapshot,
    }
}
