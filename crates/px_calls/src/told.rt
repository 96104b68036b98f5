// What a run tells besides replies and rows.
#![tactic(auto, unfolding(crate::specs::Texts::opened_line, crate::specs::Texts::made_line, crate::specs::Texts::count_line, crate::specs::Closing::closing_line))]

ghost use Rattle.std.specs.Prelude.{◌≡◌, ◌≤◌, length};
ghost use Rattle.px_calls.specs.Texts.{opened_line, made_line, count_line};
ghost use Rattle.px_calls.specs.declared.told.TheConstants.{LONGEST_FAULT_WORD};
ghost use Rattle.px_calls.specs.Closing.{closing_line, fault_text};

use crate::{ShortLine, Status};
use px_site::Fault;

/// The first line of `run`: the store's commits and rows, and how many frames its opening read again
/// (docs/FORMATS.md, 'Replies').
pub fn opened_line(commits: u64, rows: u64, redone: u64) -> ShortLine
    ensures { result ≡ opened_line commits rows redone }
{
    ShortLine::empty()
        .words("opened commits ")
        .number(commits)
        .words(" rows ")
        .number(rows)
        .words(" redone ")
        .number(redone)
        .words("\n")
}

/// The line of `make`: how many tables, and the short length.
pub fn made_line(tables: u32, short: u32) -> ShortLine
    ensures { result ≡ made_line tables short }
{
    ShortLine::empty()
        .words("made ")
        .number(tables as u64)
        .words(" ")
        .number(short as u64)
        .words("\n")
}

/// The first line of `dump`: how many rows follow.
pub fn count_line(rows: u64) -> ShortLine
    ensures { result ≡ count_line rows }
{
    ShortLine::empty().words("rows ").number(rows).words("\n")
}

/// The line that a run ends with (docs/FORMATS.md, 'Closing lines'); empty after `Done` and `OutputFault`, which tell
/// none.
pub fn closing_line(status: &Status) -> ShortLine
    ensures { result ≡ closing_line status.now }
{
    let line = ShortLine::empty();
    match status {
        Status::Done => line,
        Status::Usage => line.words("usage: pbxt make N S, run, dump\n"),
        Status::BadLine(k) => line
            .words("line ")
            .number(*k)
            .words(": not a command")
            .words("\n"),
        Status::NoStore => line.words("no store\n"),
        Status::NotEmpty => line.words("not empty\n"),
        Status::Damaged { file, place } => line
            .words("damaged ")
            .file(*file)
            .words(" at ")
            .number(*place)
            .words("\n"),
        Status::DiskFault(fault) => line
            .words("disk fault: ")
            .words(fault_word(*fault))
            .words("\n"),
        Status::SourceFault => line.words("source fault\n"),
        Status::OutputFault => line,
        Status::OutOfMemory => line.words("out of memory\n"),
        Status::LogFull(n) => line.words("log full at ").number(*n).words("\n"),
        Status::TooLong => line.words("too long\n"),
    }
}

/// The longest word of a fault.
const LONGEST_FAULT_WORD: usize = 6;

fn fault_word(fault: Fault) -> &'static str
    ensures text { result.now ≡ fault_text fault }
    ensures short { length result.now ≤ LONGEST_FAULT_WORD }
{
    match fault {
        Fault::Read => "read",
        Fault::Write => "write",
        Fault::Sync => "sync",
        Fault::Remove => "remove",
        Fault::List => "list",
        Fault::Tell => "tell",
    }
}
