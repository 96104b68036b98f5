ghost use Rattle.std.specs.Prelude.{◌≡◌, ◌^◌, ◌≤◌, length, take, IfOk, IfErr, OnOk};
ghost use Rattle.px_site.specs.Cause.{NoneFell};
ghost use Rattle.px_site.specs.Disk.{at_rest};
ghost use Rattle.px_site.specs.State.{EachMoment, OnFile, Stands};
ghost use Rattle.px_log.specs.Errors.{CountsLogFault, HasOpenCause, IsFileFault, IsOfSite, LeavesSite};
ghost use Rattle.px_log.specs.Log.{IsCutting, IsLogOf, OnlyGrew, ReadsAsBefore};
ghost use Rattle.px_log.specs.MayStand.{MayStand};
ghost use Rattle.px_log.specs.Contents.{Scans, log_text};
ghost use Rattle.px_xlog.specs.Contents.{the_log};
ghost use Rattle.px_log.specs.Scanned.{IsScan, log_of};
ghost use Rattle.px_log.specs.Scanning.{ScansTo};
ghost use Rattle.px_log.specs.Touching.{TouchesLog};

use crate::place::log_file;
use crate::reader::{LogScan, read_log};
use crate::{ChangeList, LogOpenError, Xlog};
use px_restart::Restart;
use px_site::Site;
use std::alloc::Global;

/// Reads the log from its first frame on, cuts what is torn behind its last frame, and makes the cut durable. Damaged
/// where the reading stops below the restart's `durable`, or where the payload of a frame is no change that it may hold;
/// OutOfMemory where the call or the site wants memory. Damaged leaves the site as it was, and so does want of the
/// call's own memory; another error may come behind the cut.
pub fn open_log<W: Site>(
    alloc: Global,
    site: &mut W,
    restart: &Restart,
) -> Result<(Xlog, ChangeList), LogOpenError>
    ensures read { W.tells → IfOk result (λ opened. Scans restart.now ((W.state site.old).content the_log) opened.1) }
    ensures held { IfOk result (λ opened. MayStand restart.now.tables 0 restart.now.short opened.1) }
    ensures count { IfOk result (λ opened. opened.0.frames ≡ length opened.1) }
    ensures below { IfOk result (λ opened. opened.0.frames ≤ 2 ^ 48) }
    ensures reached { IfOk result (λ opened. restart.now.durable ≤ opened.0.frames) }
    ensures marks { IfOk result (λ opened. (opened.0.tables ≡ restart.now.tables) × (opened.0.short ≡ restart.now.short) × (opened.0.durable ≡ opened.0.frames)) }
    ensures logged { W.tells → IfOk result (λ opened. IsLogOf opened.0 opened.1 (W.state site.new)) }
    ensures left { W.tells → IfOk result (λ opened.
        Stands the_log (W.state site.old) (at_rest (log_text opened.1)) (log_text opened.1) (W.state site.new)) }
    ensures untouched { W.tells → IfErr result (λ error. LeavesSite (W.state site.old) (W.state site.new) (W.counts site.old) (W.counts site.new) error) }
    ensures moments { W.tells → OnlyGrew ((W.state site.old).now.files the_log) ((W.state site.old).content the_log)
        → EachMoment (OnFile the_log (W.state site.old).now (ReadsAsBefore ((W.state site.old).now.files the_log))) (W.state site.old) (W.state site.new) }
    ensures touches { W.tells → TouchesLog 2 (W.state site.old) (W.state site.new) }
    ensures none_fell { NoneFell (W.counts site.old) (W.counts site.new) }
    ensures fault { IfErr result (CountsLogFault (W.counts site.old) (W.counts site.new)) }
    ensures own { IfErr result IsFileFault }
    ensures cause { W.tells → IfErr result (HasOpenCause restart.now ((W.state site.old).content the_log) (W.counts site.old) (W.counts site.new)) }
{
    let scan = scan_log(alloc, site, restart)?;
    scan.open(alloc, site, restart)
}

/// Reads the log from its first frame on, and changes nothing. Damaged where the reading stops below the restart's
/// `durable`, or where the payload of a frame is no change that it may hold.
pub fn scan_log<W: Site>(
    alloc: Global,
    site: &mut W,
    restart: &Restart,
) -> Result<LogScan, LogOpenError>
    ensures scan { W.tells → IfOk result (λ scan. ScansTo ((W.state site.old).content the_log) scan.changes scan.stop) }
    ensures read { W.tells → IfOk result (λ scan. Scans restart.now ((W.state site.old).content the_log) scan.changes) }
    ensures log { IfOk result (IsScan restart.now) }
    ensures same { W.tells → W.state site.new ≡ W.state site.old }
    ensures none_fell { NoneFell (W.counts site.old) (W.counts site.new) }
    ensures fault { IfErr result (CountsLogFault (W.counts site.old) (W.counts site.new)) }
    ensures own { IfErr result IsFileFault }
    ensures cause { W.tells → IfErr result (HasOpenCause restart.now ((W.state site.old).content the_log) (W.counts site.old) (W.counts site.new)) }
{
    let scan = read_log(alloc, site, restart)?;
    if scan.frames < restart.durable {
        return Err(LogOpenError::Damaged {
            file: log_file(),
            place: scan.stop,
        });
    }
    Ok(scan)
}

impl LogScan {
    /// Cuts what is torn behind what was read, makes the cut durable, and gives the log to which frames are appended.
    /// OutOfMemory where the site wants memory; an error may come behind the cut.
    pub fn open<W: Site>(
        self,
        alloc: Global,
        site: &mut W,
        restart: &Restart,
    ) -> Result<(Xlog, ChangeList), LogOpenError>
        requires log { IsScan restart.now self }
        requires scan { W.tells → ScansTo ((W.state site.old).content the_log) self.changes self.stop }
        ensures changes { IfOk result (λ opened. opened.1 ≡ self.changes) }
        ensures log { IfOk result (λ opened. opened.0 ≡ log_of restart.now self) }
        ensures logged { W.tells → IfOk result (λ opened. IsLogOf opened.0 self.changes (W.state site.new)) }
        ensures left { W.tells → OnOk result (Stands the_log (W.state site.old) (at_rest (log_text self.changes)) (log_text self.changes) (W.state site.new)) }
        ensures moments { W.tells → OnlyGrew ((W.state site.old).now.files the_log) ((W.state site.old).content the_log)
            → EachMoment (OnFile the_log (W.state site.old).now (ReadsAsBefore ((W.state site.old).now.files the_log))) (W.state site.old) (W.state site.new) }
        ensures touches { W.tells → TouchesLog 2 (W.state site.old) (W.state site.new) }
        ensures untouched { W.tells → IfErr result (λ error. LeavesSite (W.state site.old) (W.state site.new) (W.counts site.old) (W.counts site.new) error) }
        ensures none_fell { NoneFell (W.counts site.old) (W.counts site.new) }
        ensures cause { IfErr result (IsOfSite (W.counts site.old) (W.counts site.new)) }
        ensures own { IfErr result IsFileFault }
    {
        let LogScan {
            changes,
            frames,
            stop,
        } = self;
        cut_log(site, stop)?;
        Ok((Xlog::recovered(alloc, restart, frames, stop), changes))
    }
}

// What stands behind the scanned frames is cut, and the cut is synced before anything is written there. Else a whole
// frame behind a torn one might come back once a new frame stands in the torn one's place.
fn cut_log<W: Site>(site: &mut W, stop: u64) -> Result<(), LogOpenError>
    ensures left { W.tells → OnOk result (Stands the_log (W.state site.old)
        (at_rest (take stop ((W.state site.old).content the_log))) (take stop ((W.state site.old).content the_log)) (W.state site.new)) }
    ensures moments { W.tells → EachMoment (OnFile the_log (W.state site.old).now
        (IsCutting stop ((W.state site.old).now.files the_log) ((W.state site.old).content the_log))) (W.state site.old) (W.state site.new) }
    ensures touches { W.tells → TouchesLog 2 (W.state site.old) (W.state site.new) }
    ensures untouched { W.tells → IfErr result (λ error. LeavesSite (W.state site.old) (W.state site.new) (W.counts site.old) (W.counts site.new) error) }
    ensures none_fell { NoneFell (W.counts site.old) (W.counts site.new) }
    ensures cause { IfErr result (IsOfSite (W.counts site.old) (W.counts site.new)) }
    ensures own { IfErr result IsFileFault }
{
    let file = log_file();
    site.cut(file, stop)?;
    site.sync(file)?;
    Ok(())
}
