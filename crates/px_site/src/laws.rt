//! What the definitions say of small examples.
ghost use Rattle.std.specs.Prelude.{◌≡◌, [], ◌∷◌, codes};
ghost use Rattle.px_site.specs.Disk.{Wrote, Cut, IsImage, pending_more, at_rest};
ghost use Rattle.px_site.specs.Names.{file_text};
ghost use Rattle.px_site.specs.declared.name.FileName.{FileName};

/// The texts that stand in a store's folder.
pub fn texts_of_file_names()
    ensures rec { file_text (FileName.Rec 8) ≡ codes "rec-8" }
    ensures row { file_text (FileName.Row 1) ≡ codes "row-1" }
    ensures dlog { file_text (FileName.Dlog 10) ≡ codes "dlog-10" }
    ensures xlog { file_text (FileName.Xlog 4294967295) ≡ codes "xlog-4294967295" }
    ensures restart { file_text (FileName.Restart 0) ≡ codes "restart-0" }
{}

/// Until the file is synced a crash may tear a write and undo a cut, and it may leave zeros or anything else of what was
/// written past the end. It leaves each byte that nothing touched.
pub fn what_a_crash_may_leave()
    ensures torn { IsImage (pending_more (Wrote 1 (7 ∷ 8 ∷ [])) (at_rest (1 ∷ 2 ∷ 3 ∷ []))) (1 ∷ 7 ∷ 3 ∷ []) }
    ensures longer { IsImage (pending_more (Wrote 1 (7 ∷ 8 ∷ [])) (at_rest (1 ∷ []))) (1 ∷ 0 ∷ 9 ∷ []) }
    ensures uncut { IsImage (pending_more (Cut 1) (at_rest (1 ∷ 2 ∷ 3 ∷ []))) (1 ∷ 2 ∷ 3 ∷ []) }
    ensures untouched { IsImage (pending_more (Wrote 1 (7 ∷ [])) (at_rest (1 ∷ 2 ∷ []))) (9 ∷ 7 ∷ []) → ⊥ }
{}
