use crate::files::{FIRST, LOG, MADE};
use px_memsite::MemSite;
use px_recovery::{OpenError, OpenReport, open_store};
use std::alloc::Global;
use std::process::Abort;
use std::test::Fail;

/// A store with this log, of whose site the calls with these numbers fail.
pub(crate) fn store(
    rt: &impl Abort,
    alloc: Global,
    calls: &[u64],
    log: &[u8],
) -> Result<MemSite, Fail> {
    assert!(rt; log.len() < 10_000);
    let mut site = MemSite::failing(alloc, calls)?;
    site.put_file(FIRST, MADE.as_slice())?;
    site.put_file(LOG, log)?;
    Ok(site)
}

/// Opens the store, and leaves the site behind.
pub(crate) fn opened(alloc: Global, site: &mut MemSite) -> Result<OpenReport, OpenError> {
    match open_store(alloc, site) {
        Ok(opened) => Ok(opened.report),
        Err(refused) => Err(refused.error),
    }
}

/// What an opening reports that finds so much.
pub(crate) fn found(commits: u64, rows: u64, redone: u64) -> Result<OpenReport, OpenError> {
    Ok(OpenReport {
        commits,
        rows,
        redone,
    })
}
