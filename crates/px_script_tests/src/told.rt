use px_calls::{Call, Event};
use px_model::Bytes;
use px_script::Line;
use std::alloc::Global;
use std::fmt::Write;
use std::test::Fail;

/// A line's value: words, decimal numbers, and bytes as decimal numbers behind dots.
pub(crate) fn told(alloc: Global, line: &Line) -> Result<String, Fail> {
    let mut text = String::new(alloc);
    match line {
        Line::Step(Event::Session(session, call)) => {
            write!(text, "{} ", session.index())?;
            tell_call(&mut text, call)?;
        }
        Line::Step(Event::Activity(activity)) => write!(text, "{activity:?}")?,
        Line::Peek {
            session,
            table,
            key,
        } => {
            write!(text, "{} peek {table} ", session.index())?;
            tell_bytes(&mut text, key)?;
        }
        Line::Drain => text.push_str("drain")?,
        Line::Stat => text.push_str("stat")?,
    }
    Ok(text)
}

fn tell_call(text: &mut String, call: &Call) -> Result<(), Fail> {
    match call {
        Call::Begin => text.push_str("begin")?,
        Call::Commit => text.push_str("commit")?,
        Call::Rollback => text.push_str("rollback")?,
        Call::Get { table, key } => tell_place(text, "get", *table, key)?,
        Call::Hold { table, key } => tell_place(text, "hold", *table, key)?,
        Call::Delete { table, key } => tell_place(text, "delete", *table, key)?,
        Call::Fetch { ticket } => write!(text, "fetch {ticket}")?,
        Call::Find { table, tag } => write!(text, "find {table} {tag}")?,
        Call::Scan { table } => write!(text, "scan {table}")?,
        Call::Insert {
            table,
            key,
            tag,
            body,
        } => {
            tell_place(text, "insert", *table, key)?;
            write!(text, " {tag} ")?;
            tell_bytes(text, body)?;
        }
        Call::Update {
            table,
            key,
            tag,
            body,
        } => {
            tell_place(text, "update", *table, key)?;
            write!(text, " {tag} ")?;
            tell_bytes(text, body)?;
        }
    }
    Ok(())
}

fn tell_place(text: &mut String, verb: &str, table: u32, key: &Bytes) -> Result<(), Fail> {
    write!(text, "{verb} {table} ")?;
    tell_bytes(text, key)
}

fn tell_bytes(text: &mut String, bytes: &Bytes) -> Result<(), Fail> {
    if bytes.as_slice().is_empty() {
        text.push_str("none")?;
    }
    for byte in bytes.as_slice() {
        write!(text, ".{byte}")?;
    }
    Ok(())
}
