// The bytes that stand for kinds.
ghost use Rattle.std.specs.Prelude.{◌≡◌, IfSome, IfNone};
ghost use Rattle.px_cells.specs.declared.cell.CellKind.{CellKind};
ghost use Rattle.px_change.specs.Text.{cell_code, kind_code};
ghost use Rattle.px_change.specs.declared.change.ChangeKind.{ChangeKind};

use crate::ChangeKind;
use px_cells::CellKind;

pub fn code_of_kind(kind: ChangeKind) -> u8
    ensures { result ≡ kind_code kind }
{
    match kind {
        ChangeKind::Put => 1,
        ChangeKind::Commit => 2,
        ChangeKind::Rollback => 3,
        ChangeKind::Sweep => 4,
        ChangeKind::Move => 5,
        ChangeKind::Tidy => 6,
    }
}

pub fn kind_of_code(code: u8) -> Option<ChangeKind>
    ensures some { IfSome result (λ kind. kind_code kind ≡ code) }
    ensures none { IfNone result ((kind : ChangeKind) → kind_code kind ≡ code → ⊥) }
{
    match code {
        1 => Some(ChangeKind::Put),
        2 => Some(ChangeKind::Commit),
        3 => Some(ChangeKind::Rollback),
        4 => Some(ChangeKind::Sweep),
        5 => Some(ChangeKind::Move),
        6 => Some(ChangeKind::Tidy),
        _ => None,
    }
}

pub fn code_of_cell(what: CellKind) -> u8
    ensures { result ≡ cell_code what }
{
    match what {
        CellKind::Header => 1,
        CellKind::Slot => 2,
        CellKind::Pointer => 3,
    }
}

pub fn cell_of_code(code: u8) -> Option<CellKind>
    ensures some { IfSome result (λ what. cell_code what ≡ code) }
    ensures none { IfNone result ((what : CellKind) → cell_code what ≡ code → ⊥) }
{
    match code {
        1 => Some(CellKind::Header),
        2 => Some(CellKind::Slot),
        3 => Some(CellKind::Pointer),
        _ => None,
    }
}
