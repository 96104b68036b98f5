ghost use Rattle.std.specs.Prelude.{◌≡◌, true, IsTrue, OnOk, OnErr};
ghost use Rattle.std.specs.List.{list_all};
ghost use Rattle.px_site.specs.Cause.{Counted};
ghost use Rattle.px_site.specs.State.{Changes, EachMoment};
ghost use Rattle.px_cells.specs.Form.{is_short};
ghost use Rattle.px_change.specs.Grammar.{is_cell, is_change};
ghost use Rattle.px_apply.specs.Moments.{IsWithin};
ghost use Rattle.px_apply.specs.Writes.{StopsAt, cells_written, file_of, write_of};

use px_cells::Cell;
use px_change::Change;
use px_recs::{cell_place, table_file};
use px_site::{Fault, Site, SiteError};

/// Writes the cells of a change to the files of their table, in their order: at most four writes. `short` is the store's
/// short length, 16 to 1,024, and the change is one that such a store may have.
///
/// The site's `write_at` gives the errors: OutOfMemory where it wants memory, and its fault is `Write`. Then the cells
/// before the one at which it failed are written, and those behind it aren't. Nothing is synced.
pub fn write_cells<W: Site>(site: &mut W, change: &Change, short: u32) -> Result<(), SiteError>
    requires short { IsTrue (is_short short) }
    requires grammar { is_change short change.now ≡ true }
    ensures ok { W.tells → OnOk result (W.state site.new ≡ cells_written short (W.state site.old) change.now.cells) }
    ensures err { W.tells → OnErr result (StopsAt short change.now.cells (W.state site.old) (W.state site.new) result) }
    ensures moments { W.tells
        → EachMoment (IsWithin short change.now.cells (W.state site.old).now) (W.state site.old) (W.state site.new) }
    ensures counted { Counted Fault.Write (W.counts site.old) (W.counts site.new) result }
{
    write_each(site, change.cells.as_slice(), short)
}

// The same of cells that may each stand in a store with that short length, in whatever order.
fn write_each<W: Site>(site: &mut W, cells: &[Cell], short: u32) -> Result<(), SiteError>
    requires short { IsTrue (is_short short) }
    requires grammar { list_all (is_cell short) cells.now ≡ true }
    ensures ok { W.tells → OnOk result (W.state site.new ≡ cells_written short (W.state site.old) cells.now) }
    ensures err { W.tells → OnErr result (StopsAt short cells.now (W.state site.old) (W.state site.new) result) }
    ensures moments { W.tells
        → EachMoment (IsWithin short cells.now (W.state site.old).now) (W.state site.old) (W.state site.new) }
    ensures counted { Counted Fault.Write (W.counts site.old) (W.counts site.new) result }
{
    for cell in cells {
        write_cell(site, cell, short)?;
    }
    Ok(())
}

fn write_cell<W: Site>(site: &mut W, cell: &Cell, short: u32) -> Result<(), SiteError>
    requires short { IsTrue (is_short short) }
    requires grammar { is_cell short cell.now ≡ true }
    ensures moves { W.tells
        → Changes (file_of cell.now) (write_of short cell.now) (W.state site.old) (W.state site.new) result }
    ensures counted { Counted Fault.Write (W.counts site.old) (W.counts site.new) result }
{
    let file = table_file(cell.what, cell.table);
    let place = cell_place(cell.what, cell.number, short);
    site.write_at(file, place, cell.bytes.as_slice())
}
