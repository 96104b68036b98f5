//! What the definitions say of a small run.
ghost use Rattle.std.specs.Prelude.{◌≡◌, [], ◌∷◌, ◌++◌, codes, Some, None};
ghost use Rattle.px_play.specs.Acknowledged.{acknowledged};
ghost use Rattle.px_play.specs.Input.{script_of};
ghost use Rattle.px_play.specs.Told.{joined};
ghost use Rattle.px_model.specs.Machine.{commits};
ghost use Rattle.px_logged.specs.Recounting.{rows_now};
ghost use Rattle.px_engine.specs.Requests.{after_requests};
ghost use Rattle.px_run.specs.Command.{command_of};
ghost use Rattle.px_run.specs.Examples.{small, small_input, small_row, small_told};
ghost use Rattle.px_run.specs.Running.{engine_of, run_pieces, machine_after};
ghost use Rattle.px_run.specs.declared.command.Command.{Command};

pub fn what_words_are()
    ensures run { command_of (codes "run" ∷ []) ≡ Some Command.Run }
    ensures make { command_of (codes "make" ∷ codes "1" ∷ codes "64" ∷ []) ≡ Some (Command.Make 1 64) }
    ensures nine { command_of (codes "make" ∷ codes "9" ∷ codes "64" ∷ []) ≡ None }
    ensures zero { command_of (codes "make" ∷ codes "01" ∷ codes "64" ∷ []) ≡ None }
    ensures none { command_of [] ≡ None }
{}

pub fn a_small_run()
    ensures told { joined (run_pieces small (script_of small_input)) ≡ small_told }
    ensures frames { (after_requests (engine_of small) (script_of small_input)).frames ≡ 2 }
    ensures commits { commits (machine_after small (script_of small_input)) ≡ 1 }
    ensures rows { rows_now (machine_after small (script_of small_input)) ≡ small_row ∷ [] }
    ensures acknowledged { acknowledged 0 small_told ≡ 1 }
    ensures not_yet { acknowledged 0 (codes "opened commits 0 rows 0 redone 0" ++ 10 ∷ codes "committed 1") ≡ 0 }
{}
