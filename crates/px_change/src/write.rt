ghost use Rattle.std.specs.Prelude.{◌≡◌, ◌^◌, ◌<◌, [], ◌∷◌, ◌++◌, length, take, OnOk, OnErr};
ghost use Rattle.std.specs.List.{AllByRecursion, flat_map};
ghost use Rattle.px_change.specs.Reading.{Fits};
ghost use Rattle.px_change.specs.Text.{cell_head, cell_text, change_text, head};

use crate::Change;
use crate::codes::{code_of_cell, code_of_kind};
use crate::limits::{CELL_HEAD_SIZE, END_SIZE};
use px_bytes::{put_u8, put_u16, put_u32, put_u64};
use px_cells::Cell;
use std::alloc::AllocError;

/// Appends the bytes of a change. Without memory for them a part of them may stay.
#[tactic(auto, unfolding(crate::specs::Text::change_text))]
pub(crate) fn append_change(change: &Change, out: &mut Vec<u8>) -> Result<(), AllocError>
    requires count { length change.now.cells < 256 }
    requires fit { AllByRecursion Fits change.now.cells }
    ensures ok { OnOk result (out.new.items ≡ out.old.items ++ change_text change.now) }
    ensures err { OnErr result (take (length out.old.items) out.new.items ≡ out.old.items) }
{
    let cells = change.cells.as_slice();
    append_head(
        out,
        code_of_kind(change.kind),
        change.xn,
        change.commit,
        cells.len() as u8,
    )?;
    append_cells(out, cells)
}

#[tactic(auto, unfolding(crate::specs::Text::head))]
pub(crate) fn append_head(
    out: &mut Vec<u8>,
    kind: u8,
    xn: u64,
    commit: u64,
    count: u8,
) -> Result<(), AllocError>
    ensures ok { OnOk result (out.new.items ≡ out.old.items ++ head kind xn commit count) }
    ensures err { OnErr result (take (length out.old.items) out.new.items ≡ out.old.items) }
{
    put_u8(out, kind)?;
    put_u64(out, xn)?;
    put_u64(out, commit)?;
    put_u8(out, count)
}

fn append_cells(out: &mut Vec<u8>, cells: &[Cell]) -> Result<(), AllocError>
    requires { AllByRecursion Fits cells.now }
    ensures ok { OnOk result (out.new.items ≡ out.old.items ++ flat_map cell_text cells.now) }
    ensures err { OnErr result (take (length out.old.items) out.new.items ≡ out.old.items) }
{
    for cell in cells {
        append_cell(out, cell)?;
    }
    Ok(())
}

#[tactic(auto, unfolding(crate::specs::Text::cell_text))]
fn append_cell(out: &mut Vec<u8>, cell: &Cell) -> Result<(), AllocError>
    requires { Fits cell.now }
    ensures ok { OnOk result (out.new.items ≡ out.old.items ++ cell_text cell.now) }
    ensures err { OnErr result (take (length out.old.items) out.new.items ≡ out.old.items) }
{
    let bytes = cell.bytes.as_slice();
    append_cell_head(
        out,
        code_of_cell(cell.what),
        cell.table,
        cell.number,
        bytes.len() as u16,
    )?;
    out.extend_from_slice(bytes)
}

#[tactic(auto, unfolding(crate::specs::Text::cell_head))]
pub(crate) fn append_cell_head(
    out: &mut Vec<u8>,
    what: u8,
    table: u8,
    number: u32,
    size: u16,
) -> Result<(), AllocError>
    ensures ok { OnOk result (out.new.items ≡ out.old.items ++ cell_head what table number size) }
    ensures err { OnErr result (take (length out.old.items) out.new.items ≡ out.old.items) }
{
    put_u8(out, what)?;
    put_u8(out, table)?;
    put_u32(out, number)?;
    put_u16(out, size)
}

/// The bytes of a change without cells. It takes no memory.
#[tactic(auto, unfolding(crate::specs::Text::head, crate::specs::Text::change_text))]
pub(crate) fn end_bytes(change: &Change) -> [u8; END_SIZE]
    requires { change.now.cells ≡ [] }
    ensures { result ≡ change_text change.now }
{
    let x = change.xn.to_be_bytes();
    let c = change.commit.to_be_bytes();
    [
        code_of_kind(change.kind),
        x[0],
        x[1],
        x[2],
        x[3],
        x[4],
        x[5],
        x[6],
        x[7],
        c[0],
        c[1],
        c[2],
        c[3],
        c[4],
        c[5],
        c[6],
        c[7],
        0,
    ]
}

/// How many bytes a change has.
pub fn text_size(change: &Change) -> usize
    requires { length (change_text change.now) < 2 ^ 64 }
    ensures { result ≡ length (change_text change.now) }
{
    let mut size = END_SIZE;
    for cell in change.cells.as_slice() {
        size += CELL_HEAD_SIZE + cell.bytes.as_slice().len();
    }
    size
}
