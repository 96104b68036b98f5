ghost use Rattle.std.specs.Prelude.{ℕ, IsTrue};
ghost use Rattle.px_cells.specs.Form.{is_short};
ghost use Rattle.px_chain.specs.Links.{IsStored};
ghost use Rattle.px_model.specs.declared.write.Write.{Write};
ghost use Rattle.px_tables.specs.Linking.{FitsSlot, version_of};

/// The version of a write that fits a slot of the store is in a form that the store may have.
pub fn a_version_that_fits_is_stored()
    ensures { (short xn next row : ℕ) (write : Write) → IsTrue (is_short short) → FitsSlot short write
        → IsStored short (version_of xn next row write) }
{}
