use px_calls::{
    Reply, Status, closing_line, count_line, made_line, opened_line, reply_text, row_line,
};
use px_model::{Bytes, Row, RowList};
use px_site::{Fault, FileName};
use std::alloc::{AllocError, Global};
use std::test::Fail;

const PRINTED_REPLIES: &str = "began 1\nrow 7 616263\nrow 0 -\nnone\nheld 4\nfound 0\n\
    found 2\nat 01 5 aa\nat 6b31 4294967295 -\ninserted\nupdated\ndeleted\n\
    committed 10\nended\nrolled back\nno transaction\nopen already\nlimit begins\nno table\n\
    limit key\nlimit body\nlimit writes\nlimit tickets\nno ticket\nconflict 3\nduplicate\n\
    missing\ntable full 4294967295\napplied 0\nswept 18446744073709551615\nmoved 1\ndropped 2\n\
    noted\nsynced rec-1\nsynced row-8\nsynced index\nsaved 2\ntrimmed 1\nidle\n";

const PRINTED_ENDS: &str = "usage: pbxt make N S, run, dump\nline 3: not a command\nno store\n\
    not empty\ndamaged xlog-1 at 0\ndamaged dlog-4294967295 at 18446744073709551615\n\
    damaged restart-1 at 80\ndisk fault: read\ndisk fault: write\ndisk fault: sync\n\
    disk fault: remove\ndisk fault: list\nsource fault\nout of memory\n\
    log full at 281474976710656\ntoo long\n";

const PRINTED_RUN: &str = "made 1 64\nopened commits 1 rows 1 redone 2\n\
    opened commits 18446744073709551615 rows 18446744073709551615 redone 18446744073709551615\n\
    rows 1\nrow 1 6b31 7 616263\n";

fn row(alloc: Global, key: &[u8], tag: u32, body: &[u8]) -> Result<Row, AllocError> {
    let key = Bytes::from_slice(alloc, key)?;
    let body = Bytes::from_slice(alloc, body)?;
    Ok(Row {
        table: 1,
        key,
        tag,
        body,
    })
}

#[test]
fn each_reply_is_printed(rt: HostRuntime) -> Result<(), Fail> {
    let alloc = rt.alloc();
    let mut found = RowList::new(alloc);
    found.push(row(alloc, b"\x01", 5, b"\xaa")?)?;
    found.push(row(alloc, b"k1", u32::MAX, b"")?)?;
    let replies = vec![in alloc;
        Reply::Began(1),
        Reply::RowIs(row(alloc, b"k1", 7, b"abc")?),
        Reply::RowIs(row(alloc, b"\x01", 0, b"")?),
        Reply::NoRow,
        Reply::Held(4),
        Reply::Rows(RowList::new(alloc)),
        Reply::Rows(found),
        Reply::Inserted,
        Reply::Updated,
        Reply::Deleted,
        Reply::Committed(10),
        Reply::EndedEmpty,
        Reply::RolledBack,
        Reply::NoTransaction,
        Reply::OpenAlready,
        Reply::LimitBegins,
        Reply::NoTable,
        Reply::LimitKey,
        Reply::LimitBody,
        Reply::LimitWrites,
        Reply::LimitTickets,
        Reply::NoTicket,
        Reply::Conflict(3),
        Reply::Duplicate,
        Reply::Missing,
        Reply::TableFull(u32::MAX),
        Reply::Applied(0),
        Reply::Swept(u64::MAX),
        Reply::Moved(1),
        Reply::Dropped(2),
        Reply::Noted,
        Reply::Synced(FileName::Rec(1)),
        Reply::Synced(FileName::Row(8)),
        Reply::Synced(FileName::Index),
        Reply::Saved(2),
        Reply::Trimmed(1),
        Reply::Idle,
    ]?;
    let mut out = Vec::new(alloc);
    for reply in &replies {
        reply_text(&reply.copy()?, &mut out)?;
    }
    assert_eq!(rt; out.as_slice(), PRINTED_REPLIES.as_bytes());
    Ok(())
}

#[test]
fn each_end_of_a_run_is_printed(rt: HostRuntime) -> Result<(), Fail> {
    let ends = [
        Status::Done,
        Status::Usage,
        Status::BadLine(3),
        Status::NoStore,
        Status::NotEmpty,
        damaged(FileName::Xlog(1), 0),
        damaged(FileName::Dlog(u32::MAX), u64::MAX),
        damaged(FileName::Restart(1), 80),
        Status::DiskFault(Fault::Read),
        Status::DiskFault(Fault::Write),
        Status::DiskFault(Fault::Sync),
        Status::DiskFault(Fault::Remove),
        Status::DiskFault(Fault::List),
        Status::SourceFault,
        Status::OutputFault,
        Status::OutOfMemory,
        Status::LogFull(281_474_976_710_656),
        Status::TooLong,
    ];
    let mut out = Vec::new(rt.alloc());
    for end in &ends {
        out.extend_from_slice(closing_line(end).as_slice())?;
    }
    assert_eq!(rt; out.as_slice(), PRINTED_ENDS.as_bytes());
    Ok(())
}

fn damaged(file: FileName, place: u64) -> Status {
    Status::Damaged { file, place }
}

#[test]
fn the_lines_of_a_run_are_printed(rt: HostRuntime) -> Result<(), Fail> {
    let alloc = rt.alloc();
    let mut out = Vec::new(alloc);
    out.extend_from_slice(made_line(1, 64).as_slice())?;
    out.extend_from_slice(opened_line(1, 1, 2).as_slice())?;
    out.extend_from_slice(opened_line(u64::MAX, u64::MAX, u64::MAX).as_slice())?;
    out.extend_from_slice(count_line(1).as_slice())?;
    row_line(&row(alloc, b"k1", 7, b"abc")?, &mut out)?;
    assert_eq!(rt; out.as_slice(), PRINTED_RUN.as_bytes());
    Ok(())
}
