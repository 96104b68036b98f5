ghost use Rattle.std.specs.Prelude.{◌≡◌, ◌+◌, ◌<◌, ◌≤◌, ◌^◌, ◌≢◌, ℕ, List, IsTrue, length};
ghost use Rattle.px_cells.specs.Form.{is_short, is_slot};
ghost use Rattle.px_cells.specs.declared.cell.CellKind.{CellKind};
ghost use Rattle.px_cells.specs.declared.cell.CellKind.TheVariants.{Header as AHeader, Pointer as APointer, Slot as ASlot};
ghost use Rattle.px_cells.specs.declared.header.Header.{Header};
ghost use Rattle.px_cells.specs.declared.pointer.Pointer.{Pointer};
ghost use Rattle.px_cells.specs.declared.slot.Slot.{Slot};
ghost use Rattle.px_recs.specs.Place.{is_number_of, place_of, size_of};
ghost use Rattle.px_recs.specs.Text.{HeaderAt, HeaderFits, PointerAt, SlotAt, SlotFits, header_text, pointer_text, slot_text};

/// What was written is read again as the same value.
pub fn written_is_read()
    ensures header { (header : Header) → HeaderFits header → HeaderAt (header_text header) header }
    ensures pointer { (pointer : Pointer) → pointer.head < 2 ^ 32 → PointerAt (pointer_text pointer) pointer }
    ensures slot { (short : ℕ) (slot : Slot) → IsTrue (is_slot short slot) → SlotFits slot
        → SlotAt short (slot_text short slot) slot }
{}

/// Nothing else is read as that value.
pub fn read_is_written()
    ensures header { (bytes : List ℕ) (header : Header) → HeaderAt bytes header → bytes ≡ header_text header }
    ensures pointer { (bytes : List ℕ) (pointer : Pointer) → PointerAt bytes pointer → bytes ≡ pointer_text pointer }
    ensures slot { (short : ℕ) (bytes : List ℕ) (slot : Slot) → SlotAt short bytes slot → bytes ≡ slot_text short slot }
{}

/// Bytes are read in one way.
pub fn one_reading()
    ensures header { (bytes : List ℕ) (a b : Header) → HeaderAt bytes a → HeaderAt bytes b → a ≡ b }
    ensures pointer { (bytes : List ℕ) (a b : Pointer) → PointerAt bytes a → PointerAt bytes b → a ≡ b }
    ensures slot { (short : ℕ) (bytes : List ℕ) (a b : Slot) → SlotAt short bytes a → SlotAt short bytes b → a ≡ b }
{}

/// What is read has the size of its kind.
pub fn sizes_of_texts()
    ensures header { (short : ℕ) (bytes : List ℕ) (header : Header) → HeaderAt bytes header
        → length bytes ≡ size_of short AHeader }
    ensures pointer { (short : ℕ) (bytes : List ℕ) (pointer : Pointer) → PointerAt bytes pointer
        → length bytes ≡ size_of short APointer }
    ensures slot { (short : ℕ) (bytes : List ℕ) (slot : Slot) → SlotAt short bytes slot
        → length bytes ≡ size_of short ASlot }
{}

/// Slots and row pointers follow one another without gaps, the slots behind the header.
pub fn cells_follow_one_another()
    ensures first { (short : ℕ) → place_of short ASlot 1 ≡ place_of short AHeader 0 + size_of short AHeader }
    ensures next { (short number : ℕ) (what : CellKind) → IsTrue (is_number_of what number) → what ≢ AHeader
        → place_of short what (number + 1) ≡ place_of short what number + size_of short what }
{}

/// Different cells of a file don't overlap.
pub fn cells_are_apart()
    ensures header { (short number : ℕ) → IsTrue (is_number_of ASlot number)
        → place_of short AHeader 0 + size_of short AHeader ≤ place_of short ASlot number }
    ensures others { (short m n : ℕ) (what : CellKind) → IsTrue (is_number_of what m) → m < n
        → IsTrue (is_number_of what n) → place_of short what m + size_of short what ≤ place_of short what n }
{}
