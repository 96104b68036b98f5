ghost use Rattle.std.specs.Prelude.{◌≡◌, ◌≤◌, ◌<◌, ◌+◌, ℕ, Bool};
ghost use Rattle.px_model.specs.declared.standing.Standing.TheVariants.{Open};
ghost use Rattle.px_xacts.specs.Transactions.{standing, standing_at, IsOpenAs, IsEndedAs};

use super::Xacts;
use px_model::Standing;

impl Xacts {
    /// What became of the transaction with this stored number: `Before` exactly where it is at most `base`, and `Open` for a
    /// number that nobody was given. It looks at one entry.
    #[tactic(auto, unfolding(crate::specs::Transactions::standing))]
    pub fn standing(&self, xn: u64) -> Standing
        ensures is { result ≡ standing self.now xn }
        ensures is_open { (session : ℕ) → IsOpenAs self.now session xn → result ≡ Open }
        ensures unbegun { self.now.base + self.now.begun < xn → result ≡ Open }
        ensures ended { (place : ℕ) (committed : Bool) → IsEndedAs self.now place committed xn → result ≡ standing_at place committed }
    {
        if xn <= self.base {
            return Standing::Before;
        }
        let index = (xn - self.base - 1) as usize;
        self.standings.get(index).copied().unwrap_or(Standing::Open)
    }
}
