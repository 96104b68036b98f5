// The names of a store's files: their texts and their order.
ghost use Rattle.std.specs.Prelude.{◌≡◌, ◌≢◌, ◌^◌, ◌<◌, ◌≤◌, ◌++◌, ℕ, decimal, IfSome, IfNone, OnOk, OnErr, IsTrue, ◌↔◌};
ghost use Rattle.px_site.specs.Names.{same_file, is_before, file_text, IsOurs, IsPlain};
ghost use Rattle.px_site.specs.declared.name.FileName.{FileName};

use std::alloc::AllocError;
use std::str;

/// The name of a file. Names are in order of their kind as it stands here, and then of their number.
///
/// A store has the table files `Rec` and `Row` of its tables 1 to 8, data logs `Dlog` and log segments `Xlog` from 1 on,
/// the restart files 0 and 1, and the index with its log.
#[derive(Clone, Copy, Debug, PartialEq, Eq, PartialOrd, Ord)]
pub enum FileName {
    /// A table's slots.
    Rec(u8),
    /// A table's row pointers.
    Row(u8),
    /// A data log.
    Dlog(u32),
    /// A segment of the transaction log.
    Xlog(u32),
    /// One of the two restart files.
    Restart(u8),
    /// The pages of the index.
    Index,
    /// The log of the index.
    Ilog,
}

/// The greatest number of a table.
const LAST_TABLE: u32 = 8;

impl FileName {
    /// Whether both are the name of one file.
    pub fn is_same(self, other: FileName) -> bool
        ensures { result ≡ same_file self other }
    {
        self == other
    }

    /// Whether this name comes before the other in the order of names.
    pub fn is_before(self, other: FileName) -> bool
        ensures { result ≡ is_before self other }
    {
        self < other
    }

    /// Appends the name's text (docs/FORMATS.md, 'File names'), as `xlog-1`. Without memory nothing is appended.
    pub fn put_text(self, out: &mut Vec<u8>) -> Result<(), AllocError>
        ensures text { OnOk result (out.new.items ≡ out.old.items ++ file_text self) }
        ensures as_before { OnErr result (out.new.items ≡ out.old.items) }
    {
        let alloc = *out.allocator();
        let text = match self {
            FileName::Rec(table) => format!(in alloc; "rec-{table}")?,
            FileName::Row(table) => format!(in alloc; "row-{table}")?,
            FileName::Dlog(number) => format!(in alloc; "dlog-{number}")?,
            FileName::Xlog(number) => format!(in alloc; "xlog-{number}")?,
            FileName::Restart(number) => format!(in alloc; "restart-{number}")?,
            FileName::Index => format!(in alloc; "index")?,
            FileName::Ilog => format!(in alloc; "ilog")?,
        };
        out.extend_from_slice(text.as_bytes())
    }

    /// The name that a store has whose text this is. Other files in its folder have none (docs/FORMATS.md, 'File names').
    pub fn of_text(text: &[u8]) -> Option<FileName>
        ensures ours { IfSome result (λ name. IsOurs name × (text.now ≡ file_text name)) }
        ensures foreign { IfNone result ((name : FileName) → IsOurs name → text.now ≢ file_text name) }
    {
        if text == b"index".as_slice() {
            return Some(FileName::Index);
        }
        if text == b"ilog".as_slice() {
            return Some(FileName::Ilog);
        }
        match number_after(b"rec-", 1, LAST_TABLE, text) {
            Some(table) => return Some(FileName::Rec(table as u8)),
            None => {}
        }
        match number_after(b"row-", 1, LAST_TABLE, text) {
            Some(table) => return Some(FileName::Row(table as u8)),
            None => {}
        }
        match number_after(b"dlog-", 1, u32::MAX, text) {
            Some(number) => return Some(FileName::Dlog(number)),
            None => {}
        }
        match number_after(b"xlog-", 1, u32::MAX, text) {
            Some(number) => return Some(FileName::Xlog(number)),
            None => {}
        }
        match number_after(b"restart-", 0, 1, text) {
            Some(number) => Some(FileName::Restart(number as u8)),
            None => None,
        }
    }
}

/// The number from `least` to `most` whose decimal text follows this word.
fn number_after(word: &[u8], least: u32, most: u32, text: &[u8]) -> Option<u32>
    ensures found { IfSome result (λ n. (least ≤ n) × (n ≤ most) × (text.now ≡ word.now ++ decimal n)) }
    ensures absent { IfNone result ((n : ℕ) → least ≤ n → n ≤ most → text.now ≢ word.now ++ decimal n) }
{
    match text.strip_prefix(word) {
        Some(digits) => number_within(least, most, digits),
        None => None,
    }
}

/// The number from `least` to `most` whose decimal text this is.
fn number_within(least: u32, most: u32, digits: &[u8]) -> Option<u32>
    ensures found { IfSome result (λ n. (least ≤ n) × (n ≤ most) × (digits.now ≡ decimal n)) }
    ensures absent { IfNone result ((n : ℕ) → least ≤ n → n ≤ most → digits.now ≢ decimal n) }
{
    match number_of(digits) {
        Some(number) if least <= number && number <= most => Some(number),
        _ => None,
    }
}

/// The number whose decimal text this is.
fn number_of(digits: &[u8]) -> Option<u32>
    ensures found { IfSome result (λ n. digits.now ≡ decimal n) }
    ensures absent { IfNone result ((n : ℕ) → n < 2 ^ 32 → digits.now ≢ decimal n) }
{
    if !is_plain(digits) {
        return None;
    }
    match str::from_utf8(digits) {
        Ok(digits) => read_plain(digits),
        Err(_) => None,
    }
}

/// What std reads, which takes neither a sign nor a leading zero here.
fn read_plain(digits: &str) -> Option<u32>
    requires { IsPlain digits.now }
    ensures found { IfSome result (λ n. digits.now ≡ decimal n) }
    ensures absent { IfNone result ((n : ℕ) → n < 2 ^ 32 → digits.now ≢ decimal n) }
{
    match digits.parse::<u32>() {
        Ok(number) => Some(number),
        Err(_) => None,
    }
}

/// Whether it begins with neither a plus nor a zero that other digits follow.
fn is_plain(digits: &[u8]) -> bool
    ensures { IsTrue result ↔ IsPlain digits.now }
{
    match digits.first() {
        Some(b'+') => false,
        Some(b'0') => digits.len() == 1,
        _ => true,
    }
}
