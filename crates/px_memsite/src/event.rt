// What happens to a site.
ghost use Rattle.std.specs.Prelude.{◌≡◌};
ghost use Rattle.px_memsite.specs.Events.{is_change, moments_of};

use crate::change::Change;
use px_site::FileName;

/// A call that is to change something, or bytes that were put there from outside. Where a call
/// fails, its number says how many of its bytes go through.
#[derive(Drop)]
pub enum Event {
    Changed(FileName, Change, Option<u64>),
    Synced(FileName, Option<u64>),
    Told(Vec<u8>, Option<u64>),
    Put(FileName, Vec<u8>),
}

impl Event {
    /// How many moments it adds: those within a call and after it, and none for bytes put there.
    pub fn moments(&self) -> u64
        ensures { result ≡ moments_of self.now }
    {
        match self {
            Event::Put(_, _) => 0,
            _ => 2,
        }
    }

    pub fn is_change(&self) -> bool
        ensures { result ≡ is_change self.now }
    {
        match self {
            Event::Changed(_, _, _) => true,
            _ => false,
        }
    }
}
