use px_cells::CellKind;
use px_recs::{cell_place, cell_size};

#[test]
fn cells_stand_one_after_the_other(rt: HostRuntime) {
    assert_eq!(rt; cell_place(CellKind::Header, 0, 64), 0);
    assert_eq!(rt; cell_place(CellKind::Slot, 1, 64), 16);
    assert_eq!(rt; cell_place(CellKind::Slot, 2, 64), 180);
    assert_eq!(rt;
        cell_place(CellKind::Slot, 4_294_967_295, 1024),
        4_827_543_238_472
    );
    assert_eq!(rt; cell_place(CellKind::Pointer, 1, 64), 0);
    assert_eq!(rt; cell_place(CellKind::Pointer, 3, 64), 16);
    assert_eq!(rt; cell_size(CellKind::Header, 64), 16);
    assert_eq!(rt; cell_size(CellKind::Slot, 64), 164);
    assert_eq!(rt; cell_size(CellKind::Pointer, 64), 8);
}
