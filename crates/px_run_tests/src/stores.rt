use px_calls::Status;
use px_memsite::{MemSite, Pick};
use px_model::{Bytes, WordList};
use px_run::pbxt_run;
use px_source::MemSource;
use std::alloc::Global;
use std::test::Fail;

/// The words of a command line, which spaces part.
pub(crate) fn words_of(alloc: Global, line: &str) -> Result<WordList, Fail> {
    let mut words = Vec::new(alloc);
    if !line.is_empty() {
        for word in line.split(' ') {
            words.push(Bytes::from_slice(alloc, word.as_bytes())?)?;
        }
    }
    Ok(WordList::from_vec(words))
}

/// An input of these bytes, which come in pieces of seven.
pub(crate) fn source_of(alloc: Global, input: &str) -> Result<MemSource, Fail> {
    let bytes = Bytes::from_slice(alloc, input.as_bytes())?;
    Ok(MemSource::new(bytes, 7, Bytes::new(alloc)))
}

/// Calls the program with these words and this input.
pub(crate) fn call(
    alloc: Global,
    line: &str,
    input: &str,
    site: &mut MemSite,
) -> Result<Status, Fail> {
    let words = words_of(alloc, line)?;
    let mut source = source_of(alloc, input)?;
    Ok(pbxt_run(alloc, &words, &mut source, site))
}

/// A site with a store of one table and the short length 64, of which the calls with these numbers fail.
pub(crate) fn failing_store(alloc: Global, calls: &[u64]) -> Result<MemSite, Fail> {
    let mut site = MemSite::failing(alloc, calls)?;
    call(alloc, "make 1 64", "", &mut site)?;
    Ok(site)
}

/// A site with such a store.
pub(crate) fn store(alloc: Global) -> Result<MemSite, Fail> {
    failing_store(alloc, &[])
}

/// What a call tells, as text.
pub(crate) fn told_by(
    alloc: Global,
    line: &str,
    input: &str,
    site: &mut MemSite,
) -> Result<String, Fail> {
    let before = site.told().len();
    call(alloc, line, input, site)?;
    told_since(alloc, before, site)
}

/// What was told behind so many bytes.
pub(crate) fn told_since(alloc: Global, before: usize, site: &MemSite) -> Result<String, Fail> {
    let told = site.told().get(before..).ok_or("less was told")?;
    Ok(String::from_str(alloc, str::from_utf8(told)?)?)
}

/// What that crash leaves.
pub(crate) fn crash_at(site: MemSite, pick: Pick) -> Result<MemSite, Fail> {
    if pick.moment > site.moments() {
        return Err(Fail::new("no such moment"));
    }
    Ok(site.crash(pick)?)
}
