// The texts of replies and rows.
ghost use Rattle.std.specs.Prelude.{◌≡◌, ◌∷◌, ◌++◌, [], length, flat_map, codes, OnOk, OnErr};
ghost use Rattle.px_site.specs.declared.name.FileName.{FileName};
ghost use Rattle.px_site.specs.Names.{file_text};
ghost use Rattle.px_calls.specs.Texts.{BeginsWith, reply_text, row_line, found_line, tag_and_body, line, numbered};

use crate::text::{put_body, put_hex, put_number, put_words};
use crate::{Reply, ShortLine};
use px_model::{Row, RowList};
use px_site::FileName;
use std::alloc::AllocError;

/// Appends the reply's text (docs/FORMATS.md, 'Replies'). Without memory nothing is appended.
pub fn reply_text(reply: &Reply, out: &mut Vec<u8>) -> Result<(), AllocError>
    ensures text { OnOk result (out.new.items ≡ out.old.items ++ reply_text reply.now) }
    ensures as_before { OnErr result (out.new.items ≡ out.old.items) }
{
    let start = out.len();
    let done = put_reply(reply, out);
    if done.is_err() {
        out.truncate(start);
    }
    done
}

#[tactic(auto, unfolding(crate::specs::Texts::reply_text))]
fn put_reply(reply: &Reply, out: &mut Vec<u8>) -> Result<(), AllocError>
    ensures text { OnOk result (out.new.items ≡ out.old.items ++ reply_text reply.now) }
    ensures kept { OnErr result (BeginsWith out.new.items out.old.items) }
{
    match reply {
        Reply::Began(n) => put_numbered("began", *n, out),
        Reply::RowIs(row) => put_row(row, out),
        Reply::NoRow => put_line("none", out),
        Reply::Held(k) => put_numbered("held", *k as u64, out),
        Reply::Rows(rows) => put_rows(rows, out),
        Reply::Inserted => put_line("inserted", out),
        Reply::Updated => put_line("updated", out),
        Reply::Deleted => put_line("deleted", out),
        Reply::Committed(c) => put_numbered("committed", *c, out),
        Reply::EndedEmpty => put_line("ended", out),
        Reply::RolledBack => put_line("rolled back", out),
        Reply::NoTransaction => put_line("no transaction", out),
        Reply::OpenAlready => put_line("open already", out),
        Reply::LimitBegins => put_line("limit begins", out),
        Reply::NoTable => put_line("no table", out),
        Reply::LimitKey => put_line("limit key", out),
        Reply::LimitBody => put_line("limit body", out),
        Reply::LimitWrites => put_line("limit writes", out),
        Reply::LimitTickets => put_line("limit tickets", out),
        Reply::NoTicket => put_line("no ticket", out),
        Reply::Conflict(n) => put_numbered("conflict", *n, out),
        Reply::Duplicate => put_line("duplicate", out),
        Reply::Missing => put_line("missing", out),
        Reply::TableFull(n) => put_numbered("table full", *n as u64, out),
        Reply::Applied(n) => put_numbered("applied", *n, out),
        Reply::Swept(n) => put_numbered("swept", *n, out),
        Reply::Moved(k) => put_numbered("moved", *k as u64, out),
        Reply::Dropped(k) => put_numbered("dropped", *k as u64, out),
        Reply::Noted => put_line("noted", out),
        Reply::Synced(file) => put_synced(*file, out),
        Reply::Saved(s) => put_numbered("saved", *s, out),
        Reply::Trimmed(k) => put_numbered("trimmed", *k as u64, out),
        Reply::Idle => put_line("idle", out),
    }
}

/// Appends a row's line of `dump` (docs/FORMATS.md, 'Replies'). Without memory nothing is appended.
pub fn row_line(row: &Row, out: &mut Vec<u8>) -> Result<(), AllocError>
    ensures text { OnOk result (out.new.items ≡ out.old.items ++ row_line row.now) }
    ensures as_before { OnErr result (out.new.items ≡ out.old.items) }
{
    let start = out.len();
    let done = put_row_line(row, out);
    if done.is_err() {
        out.truncate(start);
    }
    done
}

#[tactic(auto, unfolding(crate::specs::Texts::row_line), using(crate::proofs::Begins::begins_shorter))]
fn put_row_line(row: &Row, out: &mut Vec<u8>) -> Result<(), AllocError>
    ensures text { OnOk result (out.new.items ≡ out.old.items ++ row_line row.now) }
    ensures kept { OnErr result (BeginsWith out.new.items out.old.items) }
{
    put_words("row ", out)?;
    put_number(row.table as u64, out)?;
    put_words(" ", out)?;
    put_hex(row.key.as_slice(), out)?;
    put_words(" ", out)?;
    put_tag_and_body(row, out)
}

/// The rows of `find` and `scan`: how many, and a line for each.
#[tactic(auto, using(crate::proofs::Begins::begins_shorter))]
fn put_rows(rows: &RowList, out: &mut Vec<u8>) -> Result<(), AllocError>
    ensures text { OnOk result (out.new.items ≡ out.old.items ++ line (numbered (codes "found") (length rows.now)) ++ flat_map found_line rows.now) }
    ensures kept { OnErr result (BeginsWith out.new.items out.old.items) }
{
    let rows = rows.as_slice();
    put_numbered("found", rows.len() as u64, out)?;
    for row in rows {
        put_found(row, out)?;
    }
    Ok(())
}

#[tactic(auto, using(crate::proofs::Begins::begins_shorter))]
fn put_found(row: &Row, out: &mut Vec<u8>) -> Result<(), AllocError>
    ensures text { OnOk result (out.new.items ≡ out.old.items ++ found_line row.now) }
    ensures kept { OnErr result (BeginsWith out.new.items out.old.items) }
{
    put_words("at ", out)?;
    put_hex(row.key.as_slice(), out)?;
    put_words(" ", out)?;
    put_tag_and_body(row, out)
}

fn put_row(row: &Row, out: &mut Vec<u8>) -> Result<(), AllocError>
    ensures text { OnOk result (out.new.items ≡ out.old.items ++ codes "row " ++ tag_and_body row.now) }
    ensures kept { OnErr result (BeginsWith out.new.items out.old.items) }
{
    put_words("row ", out)?;
    put_tag_and_body(row, out)
}

fn put_tag_and_body(row: &Row, out: &mut Vec<u8>) -> Result<(), AllocError>
    ensures text { OnOk result (out.new.items ≡ out.old.items ++ tag_and_body row.now) }
    ensures kept { OnErr result (BeginsWith out.new.items out.old.items) }
{
    put_number(row.tag as u64, out)?;
    put_words(" ", out)?;
    put_body(row.body.as_slice(), out)?;
    put_words("\n", out)
}

/// A word, a space and a number are the line.
fn put_numbered(word: &str, number: u64, out: &mut Vec<u8>) -> Result<(), AllocError>
    ensures text { OnOk result (out.new.items ≡ out.old.items ++ line (numbered word.now number)) }
    ensures kept { OnErr result (BeginsWith out.new.items out.old.items) }
{
    put_words(word, out)?;
    put_words(" ", out)?;
    put_number(number, out)?;
    put_words("\n", out)
}

/// These words are the line.
fn put_line(words: &str, out: &mut Vec<u8>) -> Result<(), AllocError>
    ensures text { OnOk result (out.new.items ≡ out.old.items ++ line words.now) }
    ensures kept { OnErr result (BeginsWith out.new.items out.old.items) }
{
    put_words(words, out)?;
    put_words("\n", out)
}

fn put_synced(file: FileName, out: &mut Vec<u8>) -> Result<(), AllocError>
    ensures text { OnOk result (out.new.items ≡ out.old.items ++ line (codes "synced " ++ file_text file)) }
    ensures kept { OnErr result (BeginsWith out.new.items out.old.items) }
{
    let line = ShortLine::empty().words("synced ").file(file).words("\n");
    out.extend_from_slice(line.as_slice())
}
