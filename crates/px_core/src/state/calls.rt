ghost use Rattle.std.specs.Prelude.{◌≡◌, None, Some, IfOk, IfErr, IsErrOf, OnOk};
ghost use Rattle.px_site.specs.Cause.{NoneFell};
ghost use Rattle.px_site.specs.State.{EachMoment};
ghost use Rattle.px_site.specs.declared.error.SiteError.{SiteError};
ghost use Rattle.px_model.specs.Machine.{Machine};
ghost use Rattle.px_standing.specs.Images.{LeavesOthers};
ghost use Rattle.px_core.specs.Core.{IsWell};
ghost use Rattle.px_core.specs.Errors.{IsPassing};
ghost use Rattle.px_core.specs.Serving.{Serves};
ghost use Rattle.px_core.specs.Working.{Answers, FindsFull, Refuses, StandsWithin, WorksFor};

use super::{Core, Kept};
use crate::CoreError;
use px_calls::{Call, Reply};
use px_model::Session;
use px_site::Site;

impl<W: Site> Core<W> {
    /// One call of a session, whichever it is: its reply, or why the core gives up.
    ///
    /// What the reply is, and what stands at each moment, is said of every machine that the core works for.
    ///
    /// - `OutOfMemory`: the call or the site wanted memory, a commit and a rollback only where the site did. Where it was the
    ///   sync of a commit that did, the core is broken from then on.
    /// - `Fault`: a read failed, which leaves the core as it was; or an append failed, or a commit's sync did, by which the core
    ///   is broken from then on.
    /// - `LogFull`: the call is no refusal and had a frame to append, for which the log has no number left.
    /// - `Damaged`: a cell isn't what a store may have there. Never on a site that tells its files: the opening has looked at them.
    /// - `Broken`: exactly where the core keeps an error of an earlier call.
    pub fn step(&mut self, session: Session, call: Call) -> Result<Reply, CoreError>
        ensures answered { W.tells → (m : Machine) → WorksFor W.state self.old m → IfOk result (Answers W.state session call m self.old self.new) }
        ensures moments { W.tells → (m : Machine) → WorksFor W.state self.old m → StandsWithin W.state session call m self.old self.new }
        ensures others { W.tells → (m : Machine) → WorksFor W.state self.old m
            → EachMoment (LeavesOthers (W.state self.old.site).now) (W.state self.old.site) (W.state self.new.site) }
        ensures refused { IfErr result (Refuses W.tells W.state W.counts call self.old self.new) }
        ensures full { W.tells → (m : Machine) → WorksFor W.state self.old m → IfErr result (FindsFull session call m self.old) }
        ensures sound { W.tells → IfErr result IsPassing }
        ensures broken { (error : SiteError) → self.old.error ≡ Some error → IsErrOf result (CoreError.Broken error) }
        ensures steady { OnOk result (self.new.error ≡ None) }
        ensures none_fell { NoneFell (W.counts self.old.site) (W.counts self.new.site) }
    {
        if let Some(error) = self.kept.error {
            return Err(CoreError::Broken(error));
        }
        self.kept.serve(session, call)
    }
}

impl<W: Site> Kept<W> {
    // The same where no error is kept.
    fn serve(&mut self, session: Session, call: Call) -> Result<Reply, CoreError>
        requires well { IsWell W.state self.old }
        requires whole { self.old.error ≡ None }
        ensures { Serves W.tells W.state W.counts session call self.old self.new result }
    {
        match call {
            Call::Begin
            | Call::Get { .. }
            | Call::Hold { .. }
            | Call::Fetch { .. }
            | Call::Find { .. }
            | Call::Scan { .. } => self.answer(session, call),
            Call::Insert { .. } | Call::Update { .. } | Call::Delete { .. } => {
                self.write(session, call)
            }
            Call::Commit => self.commit(session),
            Call::Rollback => self.roll_back(session),
        }
    }
}
