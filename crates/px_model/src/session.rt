ghost use Rattle.std.specs.Prelude.{◌≡◌, ◌<◌, ◌≤◌, MatchOption};
ghost use Rattle.px_model.specs.declared.limits.TheConstants.{SESSIONS};

use crate::SESSIONS;
use std::marker::Model;

/// One of the sixteen sessions, 0 to 15. Contracts see its number.
#[derive(Clone, Copy, Debug)]
pub struct Session {
    index: u8,
}

impl Model for Session {
    ghost use Rattle.std.specs.Prelude.{ℕ, ◌<◌};
    ghost use Rattle.px_model.specs.declared.limits.TheConstants.{SESSIONS};

    ghost Value = { ℕ };

    ghost view = { λ s. s.index };

    ghost invariant = { λ s. s.index < SESSIONS };

    ghost inverse = { λ n. record { index = n } };
}

impl Session {
    /// The session with this number. None exactly where there are no more than `n` sessions.
    pub fn of(n: u8) -> Option<Session>
        ensures { MatchOption result (SESSIONS ≤ n) (λ session. (session ≡ n) × (n < SESSIONS)) }
    {
        if n < SESSIONS {
            Some(Session { index: n })
        } else {
            None
        }
    }

    /// Its number, 0 to 15.
    pub fn index(self) -> u8
        ensures is { result ≡ self }
        ensures below { result < SESSIONS }
    {
        self.index
    }
}
