ghost use Rattle.std.specs.Prelude.{◌≤◌, ℕ, List};
ghost use Rattle.px_apply.specs.Contents.{Contents};
ghost use Rattle.px_shown.specs.Parts.{Parts};
ghost use Rattle.px_model.specs.declared.row.Row.{Row};
ghost use Rattle.px_opened.specs.Opened.{changes_over};
ghost use Rattle.px_site.specs.Disk.{FileState, IsImage};
ghost use Rattle.px_site.specs.declared.name.FileName.{FileName};
ghost use Rattle.px_life.specs.Extends.{Extends};
ghost use Rattle.px_life.specs.Life.{IsLife, Life, between, end_of, places_at};
ghost use Rattle.px_filed.specs.Filed.{IsSpared, KeepsFiles, RestsUpTo, file_places};

/// What a crash leaves of the table files, under the frames from `redo` on, has all cells of the front that ends at a frame, where this
/// has the durable ones before it: those that the store has there, and the same headers.
pub fn files_lie_under_their_frames()
    ensures { (parts : Parts) (short tables next : ℕ) (rows : List Row) (life : Life) (redo applied durable : ℕ) (files : FileName → FileState) (image : Contents) (frame : ℕ)
        → IsLife parts short tables next rows life → KeepsFiles short life redo applied files
        → life.redo ≤ redo → redo ≤ applied → applied ≤ durable → life.start ≤ durable → durable ≤ frame → frame ≤ end_of life
        → ((name : FileName) → IsImage (files name) (image name))
        → Extends (places_at life frame) (changes_over (file_places short image) (between life redo frame)) }
{}

/// The files keep the cells up to a frame exactly where each file rests up to it. A file that rests up to a frame does so up to each
/// earlier one, and up to all that was applied where no frame between has a cell in it.
pub fn each_file_rests()
    ensures files { (short : ℕ) (life : Life) (redo applied : ℕ) (files : FileName → FileState)
        → KeepsFiles short life redo applied files → (file : FileName) → RestsUpTo short life redo applied file files }
    ensures together { (short : ℕ) (life : Life) (redo applied : ℕ) (files : FileName → FileState)
        → ((file : FileName) → RestsUpTo short life redo applied file files) → KeepsFiles short life redo applied files }
    ensures lower { (parts : Parts) (short tables next : ℕ) (rows : List Row) (life : Life) (low upto applied : ℕ) (file : FileName) (files : FileName → FileState)
        → IsLife parts short tables next rows life → RestsUpTo short life upto applied file files
        → life.redo ≤ low → low ≤ upto → upto ≤ applied
        → RestsUpTo short life low applied file files }
    ensures raise { (parts : Parts) (short tables next : ℕ) (rows : List Row) (life : Life) (upto applied : ℕ) (file : FileName) (files : FileName → FileState)
        → IsLife parts short tables next rows life → RestsUpTo short life upto applied file files
        → life.redo ≤ upto → upto ≤ applied → IsSpared life upto applied file
        → RestsUpTo short life applied applied file files }
{}
