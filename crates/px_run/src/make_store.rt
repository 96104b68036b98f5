// `make`.
ghost use Rattle.std.specs.Prelude.{◌≡◌, ◌≤◌, Some};
ghost use Rattle.px_site.specs.Cause.{NoneFell};
ghost use Rattle.px_site.specs.State.{EachMoment};
ghost use Rattle.px_cell_standing.specs.Images.{CanMake, ImagesAreNew};
ghost use Rattle.px_run.specs.Causes.{HasStatusCause};
ghost use Rattle.px_run.specs.Working.{MakesStore};
ghost use Rattle.px_run.specs.declared.command.Command.{Command};

use px_calls::{Status, made_line};
use px_model::{LONGEST_SHORT, MOST_TABLES, SHORTEST_SHORT};
use px_play::status_of_tell;
use px_recovery::make;
use px_site::Site;

/// Makes a store, and then tells its line. The status is Done, NotEmpty, DiskFault, OutputFault or OutOfMemory.
pub(crate) fn make_store<W: Site>(site: &mut W, tables: u32, short: u32) -> Status
    requires tables_from { 1 ≤ tables }
    requires tables_to { tables ≤ MOST_TABLES }
    requires short_from { SHORTEST_SHORT ≤ short }
    requires short_to { short ≤ LONGEST_SHORT }
    ensures cause { HasStatusCause (Some (Command.Make tables short)) (W.counts site.old) (W.counts site.new) 0 0 result }
    ensures makes { W.tells → MakesStore tables short (W.state site.old) (W.state site.new) result }
    ensures moments { W.tells → CanMake (W.state site.old) → EachMoment ImagesAreNew (W.state site.old) (W.state site.new) }
    ensures none_fell { NoneFell (W.counts site.old) (W.counts site.new) }
{
    if let Err(error) = make(site, tables, short) {
        return Status::from(error);
    }
    match site.tell(made_line(tables, short).as_slice()) {
        Ok(()) => Status::Done,
        Err(error) => status_of_tell(error),
    }
}
