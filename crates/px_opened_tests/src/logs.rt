// Logs of a store whose short length is 16, for tables.
use px_cells::{Cell, CellKind, CellList};
use px_change::{Change, ChangeKind};
use px_model::Bytes;
use std::alloc::{AllocError, Global};

/// The store's short length.
pub const SHORT: u32 = 16;

/// A cell whose bytes begin with these, and else are zero.
pub struct Given {
    pub what: CellKind,
    pub table: u8,
    pub number: u32,
    pub bytes: &'static [u8],
}

/// The cells of a change.
pub type GivenChange = &'static [Given];

fn bytes_of(alloc: Global, given: &Given) -> Result<Bytes, AllocError> {
    let size = match given.what {
        CellKind::Header => 16,
        CellKind::Slot => 116,
        CellKind::Pointer => 8,
    };
    let mut bytes = Vec::new(alloc);
    bytes.extend_from_slice(given.bytes)?;
    bytes.resize(size, 0)?;
    Ok(Bytes::from_vec(bytes))
}

fn change_of(alloc: Global, given: GivenChange) -> Result<Change, AllocError> {
    let mut cells = CellList::new(alloc);
    for one in given {
        let bytes = bytes_of(alloc, one)?;
        cells.push(Cell {
            what: one.what,
            table: one.table,
            number: one.number,
            bytes,
        })?;
    }
    Ok(Change {
        kind: ChangeKind::Put,
        xn: 1,
        commit: 0,
        cells,
    })
}

pub fn changes_of(alloc: Global, given: &[GivenChange]) -> Result<Vec<Change>, AllocError> {
    let mut changes = Vec::new(alloc);
    for one in given {
        changes.push(change_of(alloc, one)?)?;
    }
    Ok(changes)
}
