ghost use Rattle.std.specs.Prelude.{◌≡◌, ◌*◌, ◌<◌, ◌^◌, ◌≤◌, true, drop, length, None, IfOk, IfErr, IfSome, IfNone, OnOk};
ghost use Rattle.px_site.specs.Cause.{NoneFell};
ghost use Rattle.px_frame.specs.Frame.{payload_at};
ghost use Rattle.px_log.specs.Errors.{CountsLogFault, IsFileFault};
ghost use Rattle.px_change.specs.Grammar.{may_hold};
ghost use Rattle.px_change.specs.Text.{change_text};
ghost use Rattle.px_log.specs.MayStand.{MayStand};
ghost use Rattle.px_xlog.specs.Contents.{the_log};
ghost use Rattle.px_log.specs.Scanning.{FindsDamage, FindsForeign, IsForeign, IsNext, ScansTo};
ghost use Rattle.px_log.specs.Window.{Sees, longest_frame};

use crate::place::log_file;
use crate::window::Window;
use crate::{ChangeList, LogOpenError};
use px_change::{Change, decode, may_stand};
use px_frame::read_frame;
use px_restart::Restart;
use px_site::Site;
use std::alloc::{AllocError, Global};

/// What was read of a log: its changes, how many they are, and where the reading stopped.
#[derive(Drop)]
pub struct LogScan {
    pub changes: ChangeList,
    pub frames: u64,
    pub stop: u64,
}

/// Reads the log's frames from the first one on, while they check. Damaged exactly where one of them is read whose
/// payload isn't a change that it may hold.
pub fn read_log<W: Site>(
    alloc: Global,
    site: &mut W,
    restart: &Restart,
) -> Result<LogScan, LogOpenError>
    ensures scan { W.tells → IfOk result (λ scan. ScansTo ((W.state site.old).content the_log) scan.changes scan.stop) }
    ensures held { IfOk result (λ scan. MayStand restart.now.tables 0 restart.now.short scan.changes) }
    ensures count { IfOk result (λ scan. scan.frames ≡ length scan.changes) }
    ensures small { IfOk result (λ scan. (scan.stop ≤ longest_frame * scan.frames) × (scan.frames ≤ 2 ^ 48)) }
    ensures same { W.tells → W.state site.new ≡ W.state site.old }
    ensures fault { IfErr result (CountsLogFault (W.counts site.old) (W.counts site.new)) }
    ensures own { IfErr result IsFileFault }
    ensures damage { W.tells → IfErr result (FindsDamage restart.now ((W.state site.old).content the_log)) }
    ensures none_fell { NoneFell (W.counts site.old) (W.counts site.new) }
{
    let mut window = Window::new(alloc)?;
    let mut changes = ChangeList::new(alloc);
    let mut frames = 0;
    let mut stop = 0;
    while let Some((change, size)) = next_change(alloc, site, &mut window, restart, stop, frames)? {
        changes.push(change)?;
        frames += 1;
        stop += size;
    }
    Ok(LogScan {
        changes,
        frames,
        stop,
    })
}

// The change of the frame with this number at this place, and that frame's size. None where no frame checks there.
fn next_change<W: Site>(
    alloc: Global,
    site: &mut W,
    window: &mut Window,
    restart: &Restart,
    place: u64,
    number: u64,
) -> Result<Option<(Change, u64)>, LogOpenError>
    requires { place ≤ 2 ^ 62 }
    ensures next { W.tells → Sees ((W.state site.old).content the_log) window.old
        → IfOk result (λ next. IfSome next (λ f. IsNext (drop place ((W.state site.old).content the_log)) number f.0 f.1)) }
    ensures held { IfOk result (λ next. IfSome next (λ f. may_hold restart.now.tables number restart.now.short f.0 ≡ true)) }
    ensures small { IfOk result (λ next. IfSome next (λ f. (number < 2 ^ 48) × (f.1 ≤ longest_frame))) }
    ensures stops { W.tells → Sees ((W.state site.old).content the_log) window.old
        → IfOk result (λ next. IfNone next (payload_at (drop place ((W.state site.old).content the_log)) number ≡ None)) }
    ensures sees { W.tells → Sees ((W.state site.old).content the_log) window.old
        → OnOk result (Sees ((W.state site.old).content the_log) window.new) }
    ensures same { W.tells → W.state site.new ≡ W.state site.old }
    ensures fault { IfErr result (CountsLogFault (W.counts site.old) (W.counts site.new)) }
    ensures own { IfErr result IsFileFault }
    ensures damage { W.tells → Sees ((W.state site.old).content the_log) window.old
        → IfErr result (FindsForeign (drop place ((W.state site.old).content the_log)) restart.now number place) }
    ensures none_fell { NoneFell (W.counts site.old) (W.counts site.new) }
{
    window.cover(site, place)?;
    let Some((payload, size)) = read_frame(window.from(place), number) else {
        return Ok(None);
    };
    let held = read_held(alloc, payload, restart, number)?;
    match held {
        Some(change) => Ok(Some((change, size as u64))),
        None => Err(LogOpenError::Damaged {
            file: log_file(),
            place,
        }),
    }
}

// The change of a payload. None exactly where it is none that the frame of this number may hold.
fn read_held(
    alloc: Global,
    payload: &[u8],
    restart: &Restart,
    number: u64,
) -> Result<Option<Change>, AllocError>
    requires { number < 2 ^ 48 }
    ensures some { IfOk result (λ held. IfSome held (λ change. (may_hold restart.now.tables number restart.now.short change ≡ true) × (payload.now ≡ change_text change))) }
    ensures none { IfOk result (λ held. IfNone held (IsForeign restart.now number payload.now)) }
{
    let read = decode(alloc, payload, restart.short)?;
    let Some(change) = read else {
        return Ok(None);
    };
    if may_stand(&change, restart.tables, number) {
        Ok(Some(change))
    } else {
        Ok(None)
    }
}
