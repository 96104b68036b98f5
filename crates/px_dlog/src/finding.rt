// The data logs that lie on a site.
ghost use Rattle.std.specs.Prelude.{◌≡◌, ◌^◌, ◌<◌, IfErr, IfOk, IfSome, OnOk};
ghost use Rattle.px_site.specs.Cause.{Counted, NoneFell};
ghost use Rattle.px_site.specs.declared.error.Fault.{Fault};
ghost use Rattle.px_dlog.specs.Errors.{HasListCause};
ghost use Rattle.px_dlog.specs.Finding.{AreLogsOf, IsNextLog, with_log};
ghost use Rattle.px_dlog.specs.Inventory.{Rise};

use crate::LogError;
use crate::inventory::ClosedLog;
use px_site::{FileName, Site, SiteError};
use std::alloc::{AllocError, Global};

/// Each log that has a byte, in order.
pub(crate) fn find_logs<W: Site>(alloc: Global, site: &mut W) -> Result<Vec<ClosedLog>, LogError>
    ensures found { W.tells → IfOk result (λ logs. AreLogsOf (W.state site.old).content logs.items) }
    ensures order { IfOk result (λ logs. Rise 1 (2 ^ 32) logs.items) }
    ensures same { W.tells → W.state site.new ≡ W.state site.old }
    ensures none_fell { NoneFell (W.counts site.old) (W.counts site.new) }
    ensures cause { IfErr result (HasListCause (W.counts site.old) (W.counts site.new)) }
{
    let mut logs = Vec::new(alloc);
    let mut last = 0;
    while let Some(number) = next_number(site, last)? {
        let len = site.len(FileName::Dlog(number))?;
        add(&mut logs, ClosedLog { number, len })?;
        last = number;
    }
    Ok(logs)
}

/// Adds a log that has a byte. A file that others emptied since it was listed is none.
fn add(logs: &mut Vec<ClosedLog>, log: ClosedLog) -> Result<(), AllocError>
    ensures { OnOk result (logs.new.items ≡ with_log logs.old.items log) }
{
    if log.len > 0 {
        logs.push(log)?;
    }
    Ok(())
}

/// The number of the next log past this one that has a byte.
fn next_number<W: Site>(site: &mut W, after: u32) -> Result<Option<u32>, SiteError>
    ensures past { IfOk result (λ next. IfSome next (λ number. (after < number) × (number < 2 ^ 32))) }
    ensures next { W.tells → IfOk result (IsNextLog (W.state site.old).content after) }
    ensures same { W.tells → W.state site.new ≡ W.state site.old }
    ensures counted { Counted Fault.List (W.counts site.old) (W.counts site.new) result }
{
    match site.list(Some(FileName::Dlog(after)))? {
        Some(FileName::Dlog(number)) => Ok(Some(number)),
        _ => Ok(None),
    }
}
