ghost use Rattle.std.specs.Prelude.{◌≡◌, List, not, IfOk, IfErr, OnOk, OnErr};
ghost use Rattle.px_site.specs.Cause.{Counts, NoneFell};
ghost use Rattle.px_index.specs.Errors.{HasReadCause, IsPassing};
ghost use Rattle.px_index.specs.Listed.{IsInOrder, IsNextFrom, has, with_entry, without_entry};
ghost use Rattle.px_index.specs.declared.entry.Entry.{Entry};

use crate::{EntriesError, Entry};

/// Entries, seen as a list in order without twins.
///
/// They may stand in pages of a file, so that each call may fault. Its fault is `Read`, and it is counted; damage is answered only
/// where the pages aren't those of such a list. After an error the entries are as before.
pub trait Entries {
    /// That they are those of this list. Where a site under them doesn't tell its files, nothing is known of them.
    ghost lists: { Self → List Entry → Type 0 };

    /// How many calls of the site under them answered each error.
    ghost counts: { Self → Counts };

    /// Adds the entry. False exactly where it was there.
    fn add(&mut self, entry: Entry) -> Result<bool, EntriesError>
        ensures added { (entries : List Entry) → lists self.old entries → IfOk result (λ added. added ≡ not (has entries entry)) }
        ensures lists { (entries : List Entry) → lists self.old entries → OnOk result (lists self.new (with_entry entries entry)) }
        ensures as_before { (entries : List Entry) → lists self.old entries → OnErr result (lists self.new entries) }
        ensures sound { (entries : List Entry) → lists self.old entries → IfErr result IsPassing }
        ensures fault { IfErr result (HasReadCause (counts self.old) (counts self.new)) }
        ensures none_fell { NoneFell (counts self.old) (counts self.new) };

    /// Takes the entry out. False exactly where it wasn't there.
    fn remove(&mut self, entry: &Entry) -> Result<bool, EntriesError>
        ensures removed { (entries : List Entry) → lists self.old entries → IfOk result (λ removed. removed ≡ has entries entry.now) }
        ensures lists { (entries : List Entry) → lists self.old entries → OnOk result (lists self.new (without_entry entries entry.now)) }
        ensures as_before { (entries : List Entry) → lists self.old entries → OnErr result (lists self.new entries) }
        ensures sound { (entries : List Entry) → lists self.old entries → IfErr result IsPassing }
        ensures fault { IfErr result (HasReadCause (counts self.old) (counts self.new)) }
        ensures none_fell { NoneFell (counts self.old) (counts self.new) };

    /// The least entry that isn't below this one. None exactly where there is none.
    fn next_from(&mut self, entry: &Entry) -> Result<Option<Entry>, EntriesError>
        ensures next { (entries : List Entry) → lists self.old entries → IfOk result (IsNextFrom entries entry.now) }
        ensures same { (entries : List Entry) → lists self.old entries → lists self.new entries }
        ensures sound { (entries : List Entry) → lists self.old entries → IfErr result IsPassing }
        ensures fault { IfErr result (HasReadCause (counts self.old) (counts self.new)) }
        ensures none_fell { NoneFell (counts self.old) (counts self.new) };

    /// The list is in order, without twins.
    ghost in_order: { (self : Self) (entries : List Entry) → lists self entries → IsInOrder entries };
}
