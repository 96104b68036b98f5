//! What a core counts of itself.

ghost use Rattle.std.specs.Prelude.{◌≡◌};
ghost use Rattle.px_engine.specs.Counts.{census_of, marks_at};
ghost use Rattle.px_model.specs.Machine.{Machine};
ghost use Rattle.px_core.specs.Core.{durable_of, frames_of};
ghost use Rattle.px_core.specs.Working.{WorksFor};

use super::Core;
use px_engine::{Census, Marks};
use px_site::Site;

impl<W: Site> Core<W> {
    /// What the store counts of itself: its commits, its open transactions, the writes that aren't swept, and its versions. Each body
    /// fits its slot until parts of data logs are read, so that none lives and none is held.
    pub fn census(&self) -> Census
        ensures { (m : Machine) → WorksFor W.state self.now m → result ≡ census_of m }
    {
        let active = &self.kept.active;
        Census {
            commits: active.commits,
            opens: active.open_count(),
            unswept: active.unswept_count(),
            variations: self.kept.held.version_count(),
            live: 0,
            held: 0,
        }
    }

    /// How far the log is written and synced. None of it is applied to the table files yet.
    pub fn marks(&self) -> Marks
        ensures { result ≡ marks_at (frames_of self.now) (durable_of self.now) }
    {
        let log = &self.kept.log;
        Marks {
            frames: log.frames(),
            durable: log.durable(),
            applied: 0,
            redo: 0,
        }
    }
}
