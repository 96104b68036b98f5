ghost use Rattle.std.specs.Prelude.{ℕ};
ghost use Rattle.px_chain.specs.Sound.{IsSound, Layout};
ghost use Rattle.px_chain.specs.Table.{Table};
ghost use Rattle.px_survey.specs.Examples.{circle, lost_slot, stray_slot, twins};
ghost use Rattle.px_survey.specs.Flaws.{IsFlaw};
ghost use Rattle.px_survey.specs.declared.flaw.Flaw.{Flaw};

/// Sound cells have no flaw.
pub fn sound_cells_have_no_flaw()
    ensures { (short : ℕ) (table : Table) (layout : Layout) (flaw : Flaw) → IsSound short table layout → ¬ IsFlaw table flaw }
{}

/// Cells written by hand: a circle in a free list, a slot on no list, a slot of another row, two rows with one key.
pub fn flaws_by_example()
    ensures circle { IsFlaw circle Flaw.Header }
    ensures lost_slot { IsFlaw lost_slot (Flaw.Slot 1) }
    ensures stray_slot { IsFlaw stray_slot (Flaw.Pointer 1) }
    ensures twins { IsFlaw twins (Flaw.Pointer 2) }
{}
