ghost use Rattle.std.specs.Prelude.{◌≡◌, ◌++◌, ℕ, List};
ghost use Rattle.px_restart.specs.declared.restart.Restart.{Restart};
ghost use Rattle.px_restart.specs.declared.text.TheConstants.{VERSION};
ghost use Rattle.px_restart.specs.Restart.{CanRestart, RestartAt, restart_text};

/// What was written is read again as the same restart, whatever follows it.
pub fn written_is_read()
    ensures { (restart : Restart) (rest : List ℕ) → CanRestart restart
        → RestartAt (restart_text VERSION restart ++ rest) restart }
{}

/// Nothing else is read as that restart.
pub fn read_is_written()
    ensures { (bytes : List ℕ) (restart : Restart) → RestartAt bytes restart
        → (rest : List ℕ) × (bytes ≡ restart_text VERSION restart ++ rest) }
{}

/// Bytes are read in one way.
pub fn one_reading()
    ensures { (bytes : List ℕ) (r s : Restart) → RestartAt bytes r → RestartAt bytes s → r ≡ s }
{}
