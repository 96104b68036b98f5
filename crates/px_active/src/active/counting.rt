ghost use Rattle.std.specs.Prelude.{◌≡◌};
ghost use Rattle.px_active.specs.Active.{IsActiveOf};
ghost use Rattle.px_model.specs.Chains.{unswept};
ghost use Rattle.px_model.specs.Machine.{Machine, opens};

use super::Active;

impl Active {
    /// How many transactions are open.
    pub fn open_count(&self) -> u64
        ensures { (m : Machine) → IsActiveOf m self.now → result ≡ opens m }
    {
        self.xacts.open_count()
    }

    /// How many writes of ended transactions aren't swept.
    pub fn unswept_count(&self) -> u64
        ensures { (m : Machine) → IsActiveOf m self.now → result ≡ unswept m }
    {
        self.xacts.unswept_count()
    }
}
