ghost use Rattle.px_script.specs.Grammar.{call_of, ending, number_then, place_of, row_of};
ghost use Rattle.px_script.specs.Reads.{Reads};

use crate::no_line::NoLine;
use crate::words::Words;
use px_calls::Call;
use std::alloc::Global;

/// The call with this word, and the words behind it.
pub(crate) fn call_of(alloc: Global, verb: &[u8], words: &mut Words) -> Result<Call, NoLine>
    ensures { Reads (call_of verb.now words.old) result }
{
    if verb == b"begin".as_slice() {
        words.end()?;
        Ok(Call::Begin)
    } else if verb == b"commit".as_slice() {
        words.end()?;
        Ok(Call::Commit)
    } else if verb == b"rollback".as_slice() {
        words.end()?;
        Ok(Call::Rollback)
    } else if verb == b"get".as_slice() {
        get(alloc, words)
    } else if verb == b"hold".as_slice() {
        hold(alloc, words)
    } else if verb == b"delete".as_slice() {
        delete(alloc, words)
    } else if verb == b"fetch".as_slice() {
        fetch(words)
    } else if verb == b"find".as_slice() {
        find(words)
    } else if verb == b"scan".as_slice() {
        scan(words)
    } else if verb == b"insert".as_slice() {
        insert(alloc, words)
    } else if verb == b"update".as_slice() {
        update(alloc, words)
    } else {
        Err(NoLine::Outside)
    }
}

fn get(alloc: Global, words: &mut Words) -> Result<Call, NoLine>
    ensures { Reads (place_of (λ table key. Call.Get table key) words.old) result }
{
    let table = words.number()?;
    let key = words.key(alloc)?;
    words.end()?;
    Ok(Call::Get { table, key })
}

fn hold(alloc: Global, words: &mut Words) -> Result<Call, NoLine>
    ensures { Reads (place_of (λ table key. Call.Hold table key) words.old) result }
{
    let table = words.number()?;
    let key = words.key(alloc)?;
    words.end()?;
    Ok(Call::Hold { table, key })
}

fn delete(alloc: Global, words: &mut Words) -> Result<Call, NoLine>
    ensures { Reads (place_of (λ table key. Call.Delete table key) words.old) result }
{
    let table = words.number()?;
    let key = words.key(alloc)?;
    words.end()?;
    Ok(Call::Delete { table, key })
}

fn fetch(words: &mut Words) -> Result<Call, NoLine>
    ensures { Reads (number_then (λ ticket. ending (Call.Fetch ticket)) words.old) result }
{
    let ticket = words.number()?;
    words.end()?;
    Ok(Call::Fetch { ticket })
}

fn find(words: &mut Words) -> Result<Call, NoLine>
    ensures { Reads (number_then (λ table. number_then (λ tag. ending (Call.Find table tag))) words.old) result }
{
    let table = words.number()?;
    let tag = words.number()?;
    words.end()?;
    Ok(Call::Find { table, tag })
}

fn scan(words: &mut Words) -> Result<Call, NoLine>
    ensures { Reads (number_then (λ table. ending (Call.Scan table)) words.old) result }
{
    let table = words.number()?;
    words.end()?;
    Ok(Call::Scan { table })
}

fn insert(alloc: Global, words: &mut Words) -> Result<Call, NoLine>
    ensures { Reads (row_of (λ table key tag body. Call.Insert table key tag body) words.old) result }
{
    let table = words.number()?;
    let key = words.key(alloc)?;
    let tag = words.number()?;
    let body = words.body(alloc)?;
    words.end()?;
    Ok(Call::Insert {
        table,
        key,
        tag,
        body,
    })
}

fn update(alloc: Global, words: &mut Words) -> Result<Call, NoLine>
    ensures { Reads (row_of (λ table key tag body. Call.Update table key tag body) words.old) result }
{
    let table = words.number()?;
    let key = words.key(alloc)?;
    let tag = words.number()?;
    let body = words.body(alloc)?;
    words.end()?;
    Ok(Call::Update {
        table,
        key,
        tag,
        body,
    })
}
