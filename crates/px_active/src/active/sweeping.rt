ghost use Rattle.std.specs.Prelude.{◌≡◌, ◌+◌, IfSome, IsSome};
ghost use Rattle.px_active.specs.Active.{AreStored, IsActiveOf};
ghost use Rattle.px_calls.specs.Sweeps.{sweep_reply, swept_state};
ghost use Rattle.px_cell_laws.specs.Locating.{without_first};
ghost use Rattle.px_history.specs.Fitting.{IsStoredNumber};
ghost use Rattle.px_model.specs.Machine.{Machine};
ghost use Rattle.px_xacts.specs.Transactions as transactions;
ghost use Rattle.px_xacts_laws.specs.Mirrors.{due_reply};

use super::Active;
use px_xacts::Due;

impl Active {
    /// The next write to sweep. None exactly where its transaction isn't below the horizon, or none is left.
    pub fn due(&self) -> Option<Due>
        ensures is { result ≡ transactions.due self.now.xacts }
        ensures reply { (m : Machine) → IsActiveOf m self.now → due_reply result ≡ sweep_reply m }
        ensures stored { AreStored self.now.xacts → IfSome result (λ due. IsStoredNumber (self.now.xacts.base + due.number)) }
    {
        self.xacts.due()
    }

    /// Notes that the next write to sweep is swept.
    pub fn swept(&mut self)
        requires { IsSome (transactions.due self.old.xacts) }
        ensures active { (m : Machine) → IsActiveOf m self.old → IsActiveOf (swept_state m) self.new }
        ensures rest { self.new ≡ record self.old { xacts = without_first self.old.xacts } }
        ensures stored { AreStored self.old.xacts → AreStored self.new.xacts }
    {
        self.xacts.swept();
    }
}
