ghost use Rattle.std.specs.Prelude.{◌≡◌, ◌≢◌, ◌++◌, ℕ, List, drop};
ghost use Rattle.px_site.specs.Disk.{FileState, IsImage};
ghost use Rattle.px_site.specs.State.{EachMoment, State};
ghost use Rattle.px_dlog.specs.Errors.{HasNoPart};
ghost use Rattle.px_dlog.specs.Logs.{KeepsOutside, KeepsParts, LiesIn, Reads, Rests, RestsIn, Stored};
ghost use Rattle.px_dlog.specs.Part.{CanPart, PartAt, part_text};

/// What was written is read again as the same part, whatever follows it.
pub fn written_is_read()
    ensures { (table slot : ℕ) (bytes rest : List ℕ) → CanPart table slot bytes
        → PartAt (part_text table slot bytes ++ rest) table slot bytes }
{}

/// Nothing else is read as that part.
pub fn read_is_written()
    ensures { (text : List ℕ) (table slot : ℕ) (bytes : List ℕ) → PartAt text table slot bytes
        → (rest : List ℕ) × (text ≡ part_text table slot bytes ++ rest) }
{}

/// A text is read in one way: at its front stands one part at most.
pub fn one_reading()
    ensures { (text : List ℕ) (t u m n : ℕ) (x y : List ℕ) → PartAt text t m x → PartAt text u n y
        → (t ≡ u) × (m ≡ n) × (x ≡ y) }
{}

/// A part that lies in a log is read there.
pub fn what_lies_is_read()
    ensures { (content : List ℕ) (stored : Stored) → LiesIn content stored
        → PartAt (drop stored.part.place content) stored.part.table stored.part.slot stored.bytes }
{}

/// A part that rests lies in whatever a crash leaves of its log.
pub fn what_rests_is_left()
    ensures { (file : FileState) (image : List ℕ) (stored : Stored) → RestsIn file stored → IsImage file image
        → LiesIn image stored }
{}

/// A part is read as it was appended, and isn't found damaged, as long as it lies in its log.
pub fn what_was_appended_is_read()
    ensures read { (stored : Stored) (content before after : List ℕ) → LiesIn content stored → Reads stored.part content before after
        → after ≡ before ++ stored.bytes }
    ensures sound { (stored : Stored) (content : List ℕ) → LiesIn content stored → ¬ HasNoPart stored.part content }
{}

/// A part that rested rests behind calls at each of whose moments what rested did.
pub fn what_rested_rests()
    ensures { (a b : State) (stored : Stored) → EachMoment (KeepsParts a.now) a b → Rests a.now stored → Rests b.now stored }
{}

/// A log's removal leaves the parts of the others at rest.
pub fn a_removal_leaves_the_others()
    ensures { (log : ℕ) (a b : State) (stored : Stored) → EachMoment (KeepsOutside log a.now) a b → stored.part.log ≢ log → Rests a.now stored
        → Rests b.now stored }
{}
