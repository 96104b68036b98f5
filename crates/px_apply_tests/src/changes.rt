// Changes and contents, for tables.
use px_apply::write_cells;
use px_cells::{Cell, CellKind, CellList};
use px_change::{Change, ChangeKind, is_in_grammar};
use px_memsite::MemSite;
use px_model::Bytes;
use px_site::SiteError;
use std::alloc::{AllocError, Global};
use std::process::Abort;
use std::test::Fail;

/// A cell whose bytes are all the same.
pub struct Given {
    pub what: CellKind,
    pub number: u32,
    pub size: usize,
    pub fill: u8,
}

/// A change in a store with that short length.
pub struct GivenChange {
    pub kind: ChangeKind,
    pub short: u32,
    pub table: u8,
    pub cells: &'static [Given],
}

/// How many bytes, and which.
pub type Run = (usize, u8);

pub fn bytes_of(alloc: Global, runs: &[Run]) -> Result<Vec<u8>, AllocError> {
    let mut bytes = Vec::new(alloc);
    for (count, fill) in runs {
        let run = vec![in alloc; *fill; *count]?;
        bytes.extend_from_slice(&run)?;
    }
    Ok(bytes)
}

fn change_of(alloc: Global, given: &GivenChange) -> Result<Change, AllocError> {
    let mut cells = CellList::new(alloc);
    let all = given.cells;
    for one in all {
        let bytes = vec![in alloc; one.fill; one.size]?;
        cells.push(Cell {
            what: one.what,
            table: given.table,
            number: one.number,
            bytes: Bytes::from_vec(bytes),
        })?;
    }
    let commit = if given.kind == ChangeKind::Commit {
        1
    } else {
        0
    };
    Ok(Change {
        kind: given.kind,
        xn: 1,
        commit,
        cells,
    })
}

/// Writes the change, and answers what `write_cells` does.
pub fn write(
    rt: &impl Abort,
    alloc: Global,
    site: &mut MemSite,
    given: &GivenChange,
) -> Result<Result<(), SiteError>, Fail> {
    let change = change_of(alloc, given)?;
    let short = given.short;
    assert!(rt; 16 <= short && short <= 1024);
    assert!(rt; is_in_grammar(&change, short));
    Ok(write_cells(site, &change, short))
}
