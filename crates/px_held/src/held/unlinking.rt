ghost use Rattle.std.specs.Prelude.{◌≡◌, ℕ, IfErr, IfOk};
ghost use Rattle.px_history.specs.Steps.{after_step};
ghost use Rattle.px_history.specs.Store.{Store};
ghost use Rattle.px_history.specs.Written.{change_of};
ghost use Rattle.px_site.specs.Cause.{NoneFell};
ghost use Rattle.px_site.specs.State.{State};
ghost use Rattle.px_held.specs.Errors.{HasReadCause, IsPassing};
ghost use Rattle.px_held.specs.Serving.{HasSameForm, Serves};
ghost use Rattle.px_held.specs.Unlinking.{GoFrom, IsUnlinkReady, ServesVersions, unlink_from};

use super::Held;
use crate::error::HeldError;
use crate::prepared::PreparedUnlink;
use px_cells::CellList;
use px_site::Site;
use std::alloc::AllocError;

impl Held {
    /// Prepares that `count` versions of a row go: the newest of them is in slot `first`, and `newer` is the slot in front of
    /// that one, 0 where there is none. It reads these versions and their two neighbours, however long the row's chain is.
    pub fn prepare_unlink<W: Site>(
        &mut self,
        site: &mut W,
        table: u8,
        row: u32,
        newer: u32,
        first: u32,
        count: u32,
    ) -> Result<PreparedUnlink, HeldError>
        requires { ServesVersions (W.state site.old) self.old table row newer first count }
        ensures ready { IfOk result (IsUnlinkReady self.new) }
        ensures table { IfOk result (λ prepared. prepared.table ≡ table) }
        ensures which { IfOk result (λ prepared. prepared.unlinking.row ≡ row × prepared.unlinking.first ≡ first × prepared.unlinking.count ≡ count) }
        ensures form { HasSameForm self.old self.new }
        ensures keeps { W.tells → (store : Store) → Serves (W.state site.old) self.old store → Serves (W.state site.new) self.new store }
        ensures still { (store : Store) → Serves (W.state site.old) self.old store → Serves (W.state site.new) self.new store }
        ensures same { W.tells → W.state site.new ≡ W.state site.old }
        ensures sound { IfErr result IsPassing }
        ensures fault { IfErr result (HasReadCause (W.counts site.old) (W.counts site.new)) }
        ensures none_fell { NoneFell (W.counts site.old) (W.counts site.new) }
    {
        let unlinking = self.tables[table as usize - 1].prepare_unlink(row, newer, first, count)?;
        Ok(PreparedUnlink { table, unlinking })
    }

    /// The cells of what was prepared, for the log. It fails only for want of memory.
    pub fn cells_unlinked(&self, prepared: &PreparedUnlink) -> Result<CellList, AllocError>
        requires { IsUnlinkReady self.now prepared.now }
        ensures { IfOk result (λ cells. (site : State) (store : Store) (from : ℕ) → Serves site self.now store → GoFrom store prepared.now from
            → cells ≡ (change_of self.now.short store (unlink_from prepared.now from)).cells) }
    {
        self.tables[prepared.table as usize - 1].cells_unlinked(&prepared.unlinking)
    }

    /// Lays what was prepared over its table. It takes no memory, and can't fail.
    pub fn lay_unlinked(&mut self, prepared: PreparedUnlink)
        requires { IsUnlinkReady self.old prepared }
        ensures step { (site : State) (store : Store) (from : ℕ) → Serves site self.old store → GoFrom store prepared from
            → Serves site self.new (after_step store (unlink_from prepared from)) }
        ensures form { HasSameForm self.old self.new }
    {
        let PreparedUnlink { table, unlinking } = prepared;
        self.tables[table as usize - 1].lay_unlinked(unlinking);
    }
}
