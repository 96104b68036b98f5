//! What the entries of versions become as a version is linked or unlinked, and which slots a walk of them meets.
ghost use Rattle.std.specs.Prelude.{◌≡◌, [], ◌∷◌, ◌++◌, ℕ, List, Option, true};
ghost use Rattle.px_site.specs.Cause.{no_counts};
ghost use Rattle.px_index.specs.Errors.{HasReadCause, IsPassing};
ghost use Rattle.px_index.specs.Listed.{IsInOrder};
ghost use Rattle.px_index.specs.Order.{same_entry};
ghost use Rattle.px_index.specs.Versions.{AreEntries, HasFreeSlot, IsNextVersion, IsNextVersionKey, Version, with_version, without_version};
ghost use Rattle.px_index.specs.Walks.{IsNextKey, IsNextSlot};
ghost use Rattle.px_index.specs.declared.entry.Entry.{Entry};
ghost use Rattle.px_index.specs.declared.error.EntriesError.{EntriesError};
ghost use Rattle.px_index.specs.declared.field.Field.{Field};

/// Entries that compare equal are one.
pub fn equal_entries_are_one()
    ensures { (entry other : Entry) → same_entry entry other ≡ true → entry ≡ other }
{}

/// No versions have no entries.
pub fn entries_of_none()
    ensures { AreEntries [] [] }
{}

/// In which order versions are listed doesn't matter to their entries.
pub fn versions_stand_in_any_order()
    ensures to_front { (front behind : List Version) (entries : List Entry) (version : Version) → AreEntries (front ++ version ∷ behind) entries
        → AreEntries (version ∷ front ++ behind) entries }
    ensures from_front { (front behind : List Version) (entries : List Entry) (version : Version) → AreEntries (version ∷ front ++ behind) entries
        → AreEntries (front ++ version ∷ behind) entries }
{}

/// A linked version brings its own entries.
pub fn entries_of_one_more()
    ensures { (versions : List Version) (entries : List Entry) (version : Version) → AreEntries versions entries
        → AreEntries (version ∷ versions) (with_version entries version) }
{}

/// An unlinked version takes its own entries with it, where no other version stands in its slot.
pub fn entries_of_one_less()
    ensures { (versions : List Version) (entries : List Entry) (version : Version) → IsInOrder entries
        → AreEntries (version ∷ versions) entries → HasFreeSlot versions version → AreEntries versions (without_version entries version) }
{}

/// The next slot of a key or of a tag is that of the next version that has it: a walk meets each such version, in order of their
/// slots, and no other one.
pub fn a_walk_meets_the_versions()
    ensures { (versions : List Version) (entries : List Entry) (table : ℕ) (field : Field) (from : ℕ) (found : Option ℕ)
        → AreEntries versions entries → IsNextSlot entries table field from found → IsNextVersion versions table field from found }
{}

/// The next key is the least of a version past the other one, and the slot is the least of its versions: a walk meets the key of
/// each version, in order, and no other one.
pub fn a_walk_meets_the_keys()
    ensures { (versions : List Version) (entries : List Entry) (table : ℕ) (after : Option (List ℕ)) (found : Option (List ℕ × ℕ))
        → AreEntries versions entries → IsNextKey entries table after found → IsNextVersionKey versions table after found }
{}

/// Of the errors, entries in memory answer want of memory alone.
pub fn only_memory_is_short_in_memory()
    ensures { (error : EntriesError) → HasReadCause no_counts no_counts error
        → IsPassing error → error ≡ EntriesError.OutOfMemory }
{}
