//! What the files hold once cells are written, and what a crash may find touched meanwhile.
ghost use Rattle.std.specs.Prelude.{◌≡◌, ◌<◌, ◌≤◌, ℕ, List, [], ◌∷◌, ◌++◌, false, true, length, max, slice_index};
ghost use Rattle.std.specs.List.{AllByRecursion};
ghost use Rattle.px_site.specs.Disk.{IsImage, most, touched};
ghost use Rattle.px_site.specs.Names.{same_file};
ghost use Rattle.px_site.specs.State.{Moment, State};
ghost use Rattle.px_site.specs.declared.error.SiteError.{SiteError};
ghost use Rattle.px_site.specs.declared.name.FileName.{FileName};
ghost use Rattle.px_site.specs.declared.name.FileName.TheVariants.{Rec, Row};
ghost use Rattle.px_cells.specs.declared.cell.Cell.{Cell};
ghost use Rattle.px_change.specs.Grammar.{is_change};
ghost use Rattle.px_change.specs.declared.change.Change.{Change};
ghost use Rattle.px_apply.specs.Contents.{Contents, HasCell, is_byte_of_some, is_file_of, reach, with_cells};
ghost use Rattle.px_apply.specs.Examples.{third_pointer};
ghost use Rattle.px_apply.specs.Moments.{IsWithin, TouchesCells, TouchesOnly, cells_begun};
ghost use Rattle.px_apply.specs.Writes.{StopsAt, cells_written};

/// A site after the writes has the contents with the cells, all writes begun, and nothing told.
pub fn what_writes_leave()
    ensures contents { (short : ℕ) (s : State) (cells : List Cell)
        → (cells_written short s cells).content ≡ with_cells short s.content cells }
    ensures now { (short : ℕ) (s : State) (cells : List Cell)
        → (cells_written short s cells).now ≡ cells_begun short s.now cells }
    ensures told { (short : ℕ) (s : State) (cells : List Cell)
        → (cells_written short s cells).now.told ≡ s.now.told }
{}

/// Cells change their own bytes alone, and what they leave of these doesn't hang on what stood there. Past its end a file
/// reads as zeros; it grows as far as the cells in it reach.
pub fn contents_after_cells()
    ensures elsewhere { (short : ℕ) (cells : List Cell) (contents : Contents) (file : FileName) (at : ℕ)
        → is_byte_of_some short cells file at ≡ false
        → slice_index (with_cells short contents cells file) at ≡ slice_index (contents file) at }
    ensures decided { (short : ℕ) (cells : List Cell) (a b : Contents) (file : FileName)
        → ((at : ℕ) → is_byte_of_some short cells file at ≡ false → slice_index (a file) at ≡ slice_index (b file) at)
        → (at : ℕ) → slice_index (with_cells short a cells file) at ≡ slice_index (with_cells short b cells file) at }
    ensures size { (short : ℕ) (cells : List Cell) (contents : Contents) (file : FileName)
        → length (with_cells short contents cells file) ≡ max (reach short cells file) (length (contents file)) }
    ensures unless { (short : ℕ) (cells : List Cell) (contents : Contents) (file : FileName)
        → is_file_of cells file ≡ false → with_cells short contents cells file ≡ contents file }
{}

/// Cells that are written again, be they of one change or of many in a row, leave what they left.
pub fn written_again()
    ensures { (short : ℕ) (cells : List Cell) (contents : Contents)
        → with_cells short (with_cells short contents cells) cells ≡ with_cells short contents cells }
{}

/// The cells of a change lie apart: once all are written, each is there.
pub fn cells_are_there()
    ensures { (short : ℕ) (change : Change) (contents : Contents) → is_change short change ≡ true
        → AllByRecursion (HasCell short (with_cells short contents change.cells)) change.cells }
{}

/// A change writes to the two files of one table alone.
pub fn files_of_a_change()
    ensures { (short : ℕ) (change : Change) (first : Cell) (others : List Cell) (file : FileName)
        → is_change short change ≡ true → change.cells ≡ first ∷ others
        → same_file (Rec first.table) file ≡ false → same_file (Row first.table) file ≡ false
        → is_file_of change.cells file ≡ false }
{}

/// A row pointer behind two that were never written, and nothing in the record file.
pub fn a_row_pointer_in_an_empty_file()
    ensures row { with_cells 64 (λ file. []) (third_pointer ∷ []) (Row 1)
        ≡ 0 ∷ 0 ∷ 0 ∷ 0 ∷ 0 ∷ 0 ∷ 0 ∷ 0 ∷ 0 ∷ 0 ∷ 0 ∷ 0 ∷ 0 ∷ 0 ∷ 0 ∷ 0 ∷ 1 ∷ 0 ∷ 0 ∷ 0 ∷ 0 ∷ 0 ∷ 0 ∷ 7 ∷ [] }
    ensures rec { with_cells 64 (λ file. []) (third_pointer ∷ []) (Rec 1) ≡ [] }
{}

/// At each moment while cells are written only bytes of theirs are touched, and so it is over changes in a row.
pub fn touches_cells_only()
    ensures within { (short : ℕ) (cells : List Cell) (before m : Moment)
        → IsWithin short cells before m → TouchesOnly short cells before m }
    ensures in_turn { (short : ℕ) (xs ys : List Cell) (a b c : Moment)
        → TouchesOnly short xs a b → TouchesOnly short ys b c → TouchesOnly short (xs ++ ys) a c }
{}

/// The same of the files when all cells are written, and when the writes stopped at one of them.
pub fn touched_in_the_end()
    ensures written { (short : ℕ) (cells : List Cell) (s : State) (file : FileName)
        → TouchesCells short cells file (s.now.files file) ((cells_written short s cells).now.files file) }
    ensures stopped { (short : ℕ) (cells : List Cell) (old new : State) (error : SiteError) (file : FileName)
        → StopsAt {T = Unit {0}} short cells old new (Err error)
        → TouchesCells short cells file (old.now.files file) (new.now.files file) }
    ensures told { (short : ℕ) (cells : List Cell) (old new : State) (error : SiteError)
        → StopsAt {T = Unit {0}} short cells old new (Err error)
        → new.now.told ≡ old.now.told }
{}

/// Whatever a crash leaves of a file while cells are written has each byte as it was synced that neither was touched
/// before nor is a cell's, and reaches no further than it could before or than the cells in it do.
pub fn what_a_crash_leaves()
    ensures kept { (short : ℕ) (cells : List Cell) (before m : Moment) (file : FileName) (image : List ℕ) (at : ℕ)
        → TouchesOnly short cells before m → IsImage (m.files file) image → at < length (before.files file).synced
        → touched (before.files file).pending at ≡ false → is_byte_of_some short cells file at ≡ false
        → slice_index image at ≡ slice_index (before.files file).synced at }
    ensures no_longer { (short : ℕ) (cells : List Cell) (before m : Moment) (file : FileName) (image : List ℕ)
        → TouchesOnly short cells before m → IsImage (m.files file) image
        → length image ≤ max (reach short cells file) (most (length (before.files file).synced) (before.files file).pending) }
{}
