//! The rows that are committed now.

ghost use Rattle.std.specs.Prelude.{◌≡◌, ◌≤◌, Some, IfOk, IfErr, IsErrOf, length, option_copied};
ghost use Rattle.px_committed.specs.Rows.{first_past};
ghost use Rattle.px_logged.specs.Recounting.{rows_now};
ghost use Rattle.px_model.specs.Machine.{Machine};
ghost use Rattle.px_model.specs.declared.limits.TheConstants.{MOST_TABLES};
ghost use Rattle.px_site.specs.Cause.{NoneFell};
ghost use Rattle.px_site.specs.declared.error.SiteError.{SiteError};
ghost use Rattle.px_core.specs.Core.{HasRowCause, IsWell};
ghost use Rattle.px_core.specs.Errors.{IsPassing};
ghost use Rattle.px_core.specs.Serving.{Walks};
ghost use Rattle.px_core.specs.Working.{WorksFor};

use super::{Core, Kept};
use crate::CoreError;
use px_committed::next_row;
use px_held::Held;
use px_model::{KeyOf, Row};
use px_site::Site;

impl<W: Site> Core<W> {
    /// The first row past a key, in order of table and key, among those that are committed now; the first of all after None.
    /// None exactly where there is none. It only reads: the core works on for each machine, whatever it answers.
    ///
    /// - `OutOfMemory`: the call or the site wanted memory.
    /// - `Fault`: a read failed.
    /// - `Damaged`: a cell isn't what a store may have there. Never on a site that tells its files: the opening has looked at them.
    /// - `Broken`: exactly where the core keeps an error of an earlier call.
    pub fn next_row(&mut self, after: Option<&KeyOf>) -> Result<Option<Row>, CoreError>
        ensures row { W.tells → (m : Machine) → WorksFor W.state self.old m
            → IfOk result (λ row. row ≡ first_past (option_copied after.entry) (rows_now m)) }
        ensures rest { self.new ≡ record self.old { site = self.new.site; held = self.new.held } }
        ensures same { W.tells → W.state self.new.site ≡ W.state self.old.site }
        ensures works { W.tells → (m : Machine) → WorksFor W.state self.old m → WorksFor W.state self.new m }
        ensures broken { (error : SiteError) → self.old.error ≡ Some error → IsErrOf result (CoreError.Broken error) }
        ensures cause { IfErr result (HasRowCause W.counts self.old self.new) }
        ensures sound { W.tells → IfErr result IsPassing }
        ensures none_fell { NoneFell (W.counts self.old.site) (W.counts self.new.site) }
    {
        if let Some(error) = self.kept.error {
            return Err(CoreError::Broken(error));
        }
        self.kept.next_row(after)
    }
}

impl<W: Site> Kept<W> {
    // The same where no error is kept.
    fn next_row(&mut self, after: Option<&KeyOf>) -> Result<Option<Row>, CoreError>
        requires { IsWell W.state self.old }
        ensures { Walks W.tells W.state W.counts (option_copied after.entry) self.old self.new result }
    {
        let tables = table_count(&self.held);
        let xacts = &self.active.xacts;
        Ok(next_row(&mut self.site, &mut self.held, xacts, tables, after)?)
    }
}

/// How many tables the store has.
fn table_count(held: &Held) -> u8
    requires { length held.now.tables ≤ MOST_TABLES }
    ensures { result ≡ length held.now.tables }
{
    held.tables() as u8
}
