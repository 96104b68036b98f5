//! What a store stands for stays while its files are synced, its log is cut, and something is told.

ghost use Rattle.std.specs.Prelude.{◌≡◌, ℕ, List, OnOk, Result};
ghost use Rattle.px_log.specs.Log.{ReadsAsBefore};
ghost use Rattle.px_model.specs.Machine.{Machine};
ghost use Rattle.px_model.specs.declared.row.Row.{Row};
ghost use Rattle.px_site.specs.State.{EachMoment, Moment, OnFile, State, Syncs};
ghost use Rattle.px_site.specs.declared.error.SiteError.{SiteError};
ghost use Rattle.px_site.specs.declared.name.FileName.{FileName};
ghost use Rattle.px_xlog.specs.Contents.{the_log};
ghost use Rattle.px_cell_standing.specs.Found.{HoldsStore};
ghost use Rattle.px_cell_standing.specs.Images.{ImagesStandFor, KeepsStanding};
ghost use Rattle.px_cell_standing.specs.Settled.{KeepsOneFile, Settled};

/// A settled site stands for the same at both moments of a sync, and is settled after one that succeeds.
pub fn a_sync_leaves_what_stands()
    ensures moments { (file : FileName) (a b : State) (result : Result (Unit {0}) SiteError) (commits : ℕ) (rows : List Row) → Settled a commits rows
        → Syncs file a b result → EachMoment (KeepsStanding commits rows a.now) a b }
    ensures settled { (file : FileName) (a b : State) (result : Result (Unit {0}) SiteError) (commits : ℕ) (rows : List Row) → Settled a commits rows
        → Syncs file a b result → OnOk result (Settled b commits rows) }
{}

/// While the log is cut, of which a crash leaves only what is read as something that one could have left before, all stands for the same.
pub fn a_cut_leaves_what_stands()
    ensures { (commits : ℕ) (rows : List Row) (before now : Moment) → ImagesStandFor commits rows before → KeepsOneFile before
        → OnFile the_log before (ReadsAsBefore (before.files the_log)) now → KeepsStanding commits rows before now }
{}

/// Where the files are the same, all stands for the same, whatever was told.
pub fn telling_leaves_what_stands()
    ensures images { (a b : Moment) (commits : ℕ) (rows : List Row) → b.files ≡ a.files → ImagesStandFor commits rows a → ImagesStandFor commits rows b }
    ensures settled { (a b : State) (commits : ℕ) (rows : List Row) → b.content ≡ a.content → b.now.files ≡ a.now.files → Settled a commits rows
        → Settled b commits rows }
    ensures store { (m : Machine) (a b : State) → b.content ≡ a.content → b.now.files ≡ a.now.files → HoldsStore m a → HoldsStore m b }
{}
