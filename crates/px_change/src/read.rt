ghost use Rattle.std.specs.Prelude.{◌≡◌, ℕ, ◌<◌, List, ◌++◌, length, IfSome, IfNone, IfOk};
ghost use Rattle.px_cells.specs.declared.cell.Cell.{Cell};
ghost use Rattle.px_change.specs.Reading.{AreCells, HoldsChange, IsCellHead, IsCellThen, IsHead};
ghost use Rattle.px_change.specs.declared.change.Change.{Change};
ghost use Rattle.px_change.specs.declared.limits.TheConstants.{CELL_HEAD_SIZE, END_SIZE};

use crate::Change;
use crate::codes::{cell_of_code, kind_of_code};
use crate::grammar::is_in_grammar;
use px_bytes::Fields;
use px_cells::{Cell, CellList};
use px_model::Bytes;
use std::alloc::{AllocError, Global};

/// The change that the bytes hold, in a store with that short length. None where they are outside of docs/FORMATS.md,
/// 'Change'; fails only for want of memory.
pub fn decode(alloc: Global, bytes: &[u8], short: u32) -> Result<Option<Change>, AllocError>
    ensures some { IfOk result (λ read. IfSome read (HoldsChange short bytes.now)) }
    ensures none { IfOk result (λ read. IfNone read ((change : Change) → HoldsChange short bytes.now change → ⊥)) }
{
    let Some(head) = read_head(bytes) else {
        return Ok(None);
    };
    let Some(kind) = kind_of_code(head.kind) else {
        return Ok(None);
    };
    let read = read_cells(alloc, head.rest, head.count)?;
    let Some(cells) = read else {
        return Ok(None);
    };
    let change = Change {
        kind,
        xn: head.xn,
        commit: head.commit,
        cells,
    };
    if !is_in_grammar(&change, short) {
        return Ok(None);
    }
    Ok(Some(change))
}

// What stands before the cells, whatever it is, and the bytes behind it.
#[derive(Drop)]
struct Head<'a> {
    kind: u8,
    xn: u64,
    commit: u64,
    count: u8,
    rest: &'a [u8],
}

#[tactic(auto, unfolding(crate::specs::Text::head))]
fn read_head(bytes: &[u8]) -> Option<Head<'_>>
    ensures some { IfSome result (λ h. IsHead bytes.now h.kind h.xn h.commit h.count h.rest.now) }
    ensures none { IfNone result (length bytes.now < END_SIZE) }
{
    let mut fields = Fields::new(bytes);
    let kind = fields.take_u8()?;
    let xn = fields.take_u64()?;
    let commit = fields.take_u64()?;
    let count = fields.take_u8()?;
    let left = fields.left();
    let rest = fields.take_slice(left)?;
    Some(Head {
        kind,
        xn,
        commit,
        count,
        rest,
    })
}

// So many cells. None where the bytes are no or other cells, or more follows.
fn read_cells(alloc: Global, bytes: &[u8], count: u8) -> Result<Option<CellList>, AllocError>
    ensures some { IfOk result (λ read. IfSome read (AreCells bytes.now count)) }
    ensures none { IfOk result (λ read. IfNone read ((cells : List Cell) → AreCells bytes.now count cells → ⊥)) }
{
    let mut fields = Fields::new(bytes);
    let mut cells = CellList::new(alloc);
    for _ in 0..count {
        let read = take_cell(alloc, &mut fields)?;
        let Some(cell) = read else {
            return Ok(None);
        };
        cells.push(cell)?;
    }
    if fields.left() != 0 {
        return Ok(None);
    }
    Ok(Some(cells))
}

fn take_cell(alloc: Global, fields: &mut Fields<'_>) -> Result<Option<Cell>, AllocError>
    ensures some { IfOk result (λ read. IfSome read (λ cell. IsCellThen fields.old cell fields.new)) }
    ensures none { IfOk result (λ read. IfNone read ((cell : Cell) (rest : List ℕ) → IsCellThen fields.old cell rest → ⊥)) }
{
    let Some(head) = take_cell_head(fields) else {
        return Ok(None);
    };
    let Some(what) = cell_of_code(head.what) else {
        return Ok(None);
    };
    let Some(bytes) = fields.take_slice(usize::from(head.size)) else {
        return Ok(None);
    };
    let bytes = Bytes::from_slice(alloc, bytes)?;
    Ok(Some(Cell {
        what,
        table: head.table,
        number: head.number,
        bytes,
    }))
}

// What stands before the bytes of a cell, whatever it is.
#[derive(Clone, Copy)]
struct CellHead {
    what: u8,
    table: u8,
    number: u32,
    size: u16,
}

#[tactic(auto, unfolding(crate::specs::Text::cell_head))]
fn take_cell_head(fields: &mut Fields<'_>) -> Option<CellHead>
    ensures some { IfSome result (λ h. IsCellHead fields.old h.what h.table h.number h.size fields.new) }
    ensures none { IfNone result (length fields.old < CELL_HEAD_SIZE) }
{
    let what = fields.take_u8()?;
    let table = fields.take_u8()?;
    let number = fields.take_u32()?;
    let size = fields.take_u16()?;
    Some(CellHead {
        what,
        table,
        number,
        size,
    })
}
