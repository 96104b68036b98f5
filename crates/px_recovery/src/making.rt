// A store without rows is made.
ghost use Rattle.std.specs.Prelude.{◌≡◌, ◌≤◌, [], true, false, IfOk, IfErr, OnOk, OnErr};
ghost use Rattle.px_site.specs.Cause.{HasCause, NoneFell};
ghost use Rattle.px_site.specs.Names.{same_file};
ghost use Rattle.px_site.specs.State.{EachMoment};
ghost use Rattle.px_site.specs.declared.name.FileName.{FileName};
ghost use Rattle.px_log.specs.Touching.{ChangesAtMost};
ghost use Rattle.px_restart.specs.Restart.{CanRestart};
ghost use Rattle.px_cell_standing.specs.Images.{CanMake};
ghost use Rattle.px_cell_standing.specs.Settled.{Settled};
ghost use Rattle.px_recovery.specs.Errors.{HasMakeCause, IsOfChange, IsOfFile, LeavesUnmade, MakesFileFault};
ghost use Rattle.px_recovery.specs.Making.{HasNoOthers, IsFree, IsMade, IsWritten, StaysNew, WritesFirstFile, first_file, first_saved, precedes};

use crate::MakeError;
use crate::restarts::{FIRST_RESTART, SECOND_RESTART, read_restart};
use px_cell_standing::a_new_store_is_found;
use px_model::{LONGEST_SHORT, MOST_TABLES, SHORTEST_SHORT};
use px_restart::{Restart, restart_bytes};
use px_site::{FileName, Site, SiteError};

/// Makes a store with so many tables and this short length, in bytes, and without rows, where no file but the two
/// restart files has a byte and neither of these checks (docs/FORMATS.md, 'Restart file'). Elsewhere it answers NotEmpty,
/// and does nothing. Its other errors are those of the site; after a fault a store may have been made or not, and where not,
/// it may be made again.
pub fn make<W: Site>(site: &mut W, tables: u32, short: u32) -> Result<(), MakeError>
    requires tables_from { 1 ≤ tables }
    requires tables_to { tables ≤ MOST_TABLES }
    requires short_from { SHORTEST_SHORT ≤ short }
    requires short_to { short ≤ LONGEST_SHORT }
    ensures free { W.tells → OnOk result (IsFree (W.state site.old).content) }
    ensures made { W.tells → OnOk result (IsMade tables short (W.state site.old) (W.state site.new)) }
    ensures settled { W.tells → CanMake (W.state site.old) → OnOk result (Settled (W.state site.new) 0 []) }
    ensures moments { W.tells → CanMake (W.state site.old) → EachMoment (StaysNew (W.state site.old).now) (W.state site.old) (W.state site.new) }
    ensures first_alone { W.tells → EachMoment (WritesFirstFile (first_saved tables short) (W.state site.old)) (W.state site.old) (W.state site.new) }
    ensures others { W.tells → (name : FileName) → same_file first_file name ≡ false → (W.state site.new).content name ≡ (W.state site.old).content name }
    ensures few { W.tells → ChangesAtMost 2 (W.state site.old) (W.state site.new) }
    ensures spared { W.tells → (IsFree (W.state site.old).content → ⊥) → W.state site.new ≡ W.state site.old }
    ensures refused { W.tells → IfErr result (LeavesUnmade (W.state site.old) (W.state site.new)) }
    ensures none_fell { NoneFell (W.counts site.old) (W.counts site.new) }
    ensures again { W.tells → CanMake (W.state site.old) → OnErr result (CanMake (W.state site.new)) }
    ensures cause { IfErr result (HasMakeCause (W.counts site.old) (W.counts site.new)) }
    ensures own { IfErr result MakesFileFault }
{
    a_new_store_is_found();
    if !is_free(site)? {
        return Err(MakeError::NotEmpty);
    }
    write_restart(site, &first_restart(tables, short))?;
    Ok(())
}

/// Whether a store may be made here.
fn is_free<W: Site>(site: &mut W) -> Result<bool, SiteError>
    ensures free { W.tells → IfOk result (λ free. (free ≡ true → IsFree (W.state site.old).content) × (free ≡ false → IsFree (W.state site.old).content → ⊥)) }
    ensures same { W.tells → W.state site.new ≡ W.state site.old }
    ensures none_fell { NoneFell (W.counts site.old) (W.counts site.new) }
    ensures cause { IfErr result (HasCause (W.counts site.old) (W.counts site.new)) }
    ensures own { IfErr result IsOfFile }
{
    if has_others(site)? {
        return Ok(false);
    }
    Ok(read_restart(site)?.is_none())
}

/// Whether a file other than the two restart files has a byte. The names of those stand next to each other.
fn has_others<W: Site>(site: &mut W) -> Result<bool, SiteError>
    ensures others { W.tells → IfOk result (λ others. (others ≡ false → HasNoOthers (W.state site.old).content) × (others ≡ true → HasNoOthers (W.state site.old).content → ⊥)) }
    ensures same { W.tells → W.state site.new ≡ W.state site.old }
    ensures none_fell { NoneFell (W.counts site.old) (W.counts site.new) }
    ensures cause { IfErr result (HasCause (W.counts site.old) (W.counts site.new)) }
    ensures own { IfErr result IsOfFile }
{
    if precedes_restarts(site.list(None)?) {
        return Ok(true);
    }
    Ok(site.list(Some(SECOND_RESTART))?.is_some())
}

fn precedes_restarts(name: Option<FileName>) -> bool
    ensures { result ≡ precedes name }
{
    match name {
        Some(name) => name.is_before(FIRST_RESTART),
        None => false,
    }
}

/// What the first restart file of a store says.
fn first_restart(tables: u32, short: u32) -> Restart
    ensures { result ≡ first_saved tables short }
{
    Restart {
        serial: 1,
        tables,
        short,
        commits: 0,
        next: 1,
        low: 1,
        first: 0,
        redo: 0,
        durable: 0,
        segment: 1,
    }
}

// The sync stands before the answer: a store that was told to be made is still there after a crash.
fn write_restart<W: Site>(site: &mut W, restart: &Restart) -> Result<(), SiteError>
    requires { CanRestart restart.now }
    ensures written { W.tells → OnOk result (IsWritten restart.now (W.state site.old) (W.state site.new)) }
    ensures moments { W.tells → EachMoment (WritesFirstFile restart.now (W.state site.old)) (W.state site.old) (W.state site.new) }
    ensures others { W.tells → (name : FileName) → same_file first_file name ≡ false → (W.state site.new).content name ≡ (W.state site.old).content name }
    ensures few { W.tells → ChangesAtMost 2 (W.state site.old) (W.state site.new) }
    ensures none_fell { NoneFell (W.counts site.old) (W.counts site.new) }
    ensures cause { IfErr result (HasCause (W.counts site.old) (W.counts site.new)) }
    ensures own { IfErr result IsOfChange }
{
    let bytes = restart_bytes(restart);
    site.write_at(FIRST_RESTART, 0, &bytes)?;
    site.sync(FIRST_RESTART)
}
