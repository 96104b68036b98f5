// The engine's public call.

use crate::watched::WatchedSite;
use anyhow::anyhow;
use px_calls::Status;
use px_memsite::MemSite;
use px_model::{Bytes, WordList};
use px_run::pbxt_run;
use px_source::MemSource;
use std::alloc::{AllocError, Global};

/// How many bytes of an input are given at once.
const PIECE: usize = 4096;

/// Calls the engine with the words of a command line, which spaces part, and this input.
pub(crate) fn call(
    alloc: Global,
    command: &str,
    input: &str,
    site: &mut WatchedSite,
) -> Result<Status, AllocError> {
    let mut words = Vec::new(alloc);
    for word in command.split(' ') {
        words.push(Bytes::from_slice(alloc, word.as_bytes())?)?;
    }
    let words = WordList::from_vec(words);
    let input = Bytes::from_slice(alloc, input.as_bytes())?;
    let mut source = MemSource::new(input, PIECE, Bytes::new(alloc));
    Ok(pbxt_run(alloc, &words, &mut source, site))
}

/// What a call without an input tells.
pub(crate) fn told_by(
    alloc: Global,
    command: &str,
    site: &mut WatchedSite,
) -> anyhow::Result<String> {
    let before = site.told().len();
    call(alloc, command, "", site)?;
    let told = site.told().get(before..).unwrap_or(&[]);
    Ok(String::from_str(alloc, str::from_utf8(told)?)?)
}

/// What an opening finds.
#[derive(Drop)]
pub(crate) struct Found {
    pub commits: u64,
    /// What `dump` tells.
    pub rows: String,
}

/// Opens what lies on a site, and again to tell its rows.
pub(crate) fn open(alloc: Global, site: MemSite) -> anyhow::Result<Found> {
    let mut site = WatchedSite::new(alloc, site);
    let line = told_by(alloc, "run", &mut site)?;
    let Some(rest) = line.as_str().strip_prefix("opened commits ") else {
        return Err(anyhow!("not opened: {}", line.as_str().trim_end()));
    };
    let commits = rest.split(' ').next().unwrap_or("").parse::<u64>()?;
    let rows = told_by(alloc, "dump", &mut site)?;
    Ok(Found { commits, rows })
}
