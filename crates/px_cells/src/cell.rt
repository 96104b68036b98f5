ghost use Rattle.std.specs.Prelude.{◌≡◌, [], ◌∷◌, ◌++◌, IfOk, OnOk, OnErr};

use px_model::Bytes;
use smallvec::SmallVec;
use std::alloc::{AllocError, Global};
use std::default::MadeWith;
use std::marker::Model;

/// How many cells a list holds in itself: a change has no more.
const CELLS_IN_PLACE: usize = 4;

/// The kinds of cell, in the order in which a change has them.
#[derive(Clone, Copy, Debug, PartialEq, Eq)]
pub enum CellKind {
    Header,
    Slot,
    Pointer,
}

/// A cell's whole bytes, and which cell it is.
#[derive(Debug, Drop)]
pub struct Cell {
    pub what: CellKind,
    pub table: u8,
    /// The number of the slot or of the row pointer, from 1; 0 for a header.
    pub number: u32,
    pub bytes: Bytes,
}

// What stands in the places of a list that have no cell yet.
impl MadeWith<Global> for Cell {
    fn made_with(alloc: Global) -> Cell {
        Cell {
            what: CellKind::Header,
            table: 0,
            number: 0,
            bytes: Bytes::new(alloc),
        }
    }
}

/// A list of cells. Contracts see it as that. Up to four of them take no memory but that of their bytes.
#[derive(Debug, Drop)]
pub struct CellList {
    cells: SmallVec<Cell, CELLS_IN_PLACE>,
}

impl Model for CellList {
    ghost use Rattle.std.specs.Prelude.{List};
    ghost use Rattle.px_cells.specs.declared.cell.Cell.{Cell};

    ghost Value = { List Cell };

    ghost view = { λ it. it.cells.items };
}

impl CellList {
    /// No cells.
    pub fn new(alloc: Global) -> CellList
        ensures { result ≡ [] }
    {
        CellList {
            cells: SmallVec::new(alloc),
        }
    }

    pub fn as_slice(&self) -> &[Cell]
        ensures { result.now ≡ self.now }
    {
        self.cells.as_slice()
    }

    /// Appends a cell. Without memory the list stays as it was.
    pub fn push(&mut self, cell: Cell) -> Result<(), AllocError>
        ensures ok { OnOk result (self.new ≡ self.old ++ cell ∷ []) }
        ensures err { OnErr result (self.new ≡ self.old) }
    {
        self.cells.push(cell)?;
        Ok(())
    }
}
