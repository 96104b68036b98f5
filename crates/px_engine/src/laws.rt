//! What holds of an engine after many steps.

ghost use Rattle.std.specs.Prelude.{◌≡◌, ◌-◌, ◌≤◌, ◌++◌, ℕ, List};
ghost use Rattle.px_model.specs.Machine.{Machine, commits, published};
ghost use Rattle.px_calls.specs.declared.call.Call.{Call};
ghost use Rattle.px_calls.specs.Histories.{Step, machine_after, state_after_all};
ghost use Rattle.px_logged.specs.Growing.{KeepsOpening};
ghost use Rattle.px_engine.specs.Calls.{steps_of_calls};
ghost use Rattle.px_engine.specs.Engine.{Engine, after_steps};
ghost use Rattle.px_engine.specs.Requests.{Request, after_requests, steps_of};

/// Steps that are calls of sessions lead where the calls lead.
pub fn steps_of_calls_are_calls()
    ensures { (m : Machine) (calls : List (ℕ × Call)) → machine_after m (steps_of_calls calls) ≡ state_after_all m calls }
{}

/// Requests lead where the steps among them lead, and steps where they lead the machine.
pub fn requests_are_steps()
    ensures steps { (e : Engine) (requests : List Request) → after_requests e requests ≡ after_steps e (steps_of requests) }
    ensures machine { (e : Engine) (steps : List Step) → (after_steps e steps).machine ≡ machine_after e.machine steps }
{}

/// What was published stays, whatever is called and swept, and no commit goes.
pub fn what_was_published_stays()
    ensures published { (m : Machine) (steps : List Step) (count : ℕ) → count ≤ commits m - m.before
        → published (machine_after m steps) count ≡ published m count }
    ensures opening { (m : Machine) (steps : List Step) → KeepsOpening m (machine_after m steps) }
    ensures commits { (m : Machine) (steps : List Step) → commits m ≤ commits (machine_after m steps) }
{}
