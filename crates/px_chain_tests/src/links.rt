ghost use Rattle.std.specs.Prelude.{IfOk, IfSome};
ghost use Rattle.std.specs.Option.{option_copied};
ghost use Rattle.px_chain.specs.Links.{IsStored};
ghost use Rattle.px_chain_tests.specs.declared.links.TheConstants.{SHORT};

use px_cells::{Cell, CellList, Header, Slot, SlotState};
use px_chain::{Cut, Linked, link, unlink};
use px_model::Bytes;
use std::alloc::{AllocError, Global};
use std::test::Fail;

const TABLE: u8 = 1;

const SHORT: u32 = 64;

/// The cells as text: of each the kind, the number and the size, and its bytes that aren't zero with their places.
fn text_of(alloc: Global, cells: &CellList) -> Result<String, Fail> {
    let mut text = String::new(alloc);
    for cell in cells.as_slice() {
        text.push_str(cell_text(alloc, cell)?.as_str())?;
    }
    Ok(text)
}

fn cell_text(alloc: Global, cell: &Cell) -> Result<String, Fail> {
    let bytes = cell.bytes.as_slice();
    let mut text = format!(in alloc;
        "{:?} {} of table {}, {}:",
        cell.what,
        cell.number,
        cell.table,
        bytes.len()
    )?;
    for (place, byte) in bytes.iter().enumerate() {
        if *byte != 0 {
            text.push_str(format!(in alloc; " {place}={byte}")?.as_str())?;
        }
    }
    text.push_str("; ")?;
    Ok(text)
}

/// A row with key `k1`, tag 7 and body `abc`.
#[tactic(auto, unfolding(px_cells::specs::Form::is_slot))]
fn row(alloc: Global, xn: u64, next: u32) -> Result<Slot, AllocError>
    ensures { IfOk result (IsStored SHORT) }
{
    Ok(Slot {
        state: SlotState::Row,
        xn,
        next,
        row: 1,
        tag: 7,
        total: 3,
        log: 0,
        place: 0,
        key: Bytes::from_slice(alloc, b"k1")?,
        short: Bytes::from_slice(alloc, b"abc")?,
    })
}

/// The deletion of that row.
#[tactic(auto, unfolding(px_cells::specs::Form::is_slot))]
fn deletion(alloc: Global, xn: u64, next: u32) -> Result<Slot, AllocError>
    ensures { IfOk result (IsStored SHORT) }
{
    Ok(Slot {
        state: SlotState::Deletion,
        xn,
        next,
        row: 1,
        tag: 0,
        total: 0,
        log: 0,
        place: 0,
        key: Bytes::from_slice(alloc, b"k1")?,
        short: Bytes::new(alloc),
    })
}

/// The row in slot 7, in front of the deletion.
fn newest(alloc: Global) -> Result<Linked, AllocError>
    ensures { IfOk result (λ linked. IsStored SHORT linked.slot) }
{
    Ok(Linked {
        number: 7,
        slot: row(alloc, 12, 3)?,
    })
}

/// The deletion in slot 3, in front of the row in slot 5.
fn middle(alloc: Global) -> Result<Linked, AllocError>
    ensures { IfOk result (λ linked. IsStored SHORT linked.slot) }
{
    Ok(Linked {
        number: 3,
        slot: deletion(alloc, 11, 5)?,
    })
}

/// The row in slot 5, behind which there is none.
fn oldest(alloc: Global) -> Result<Linked, AllocError>
    ensures { IfOk result (λ linked. IsStored SHORT linked.slot) }
{
    Ok(Linked {
        number: 5,
        slot: row(alloc, 10, 0)?,
    })
}

/// A row in slot 1, alone.
fn only(alloc: Global) -> Result<Linked, AllocError>
    ensures { IfOk result (λ linked. IsStored SHORT linked.slot) }
{
    Ok(Linked {
        number: 1,
        slot: row(alloc, 1, 0)?,
    })
}

const NEW: Header = Header {
    slots: 1,
    free_slot: 0,
    rows: 1,
    free_row: 0,
};

/// Slots 4 and 2 may be on a free list that slot 4 heads, and row pointer 2 on the other one.
const OLD: Header = Header {
    slots: 9,
    free_slot: 4,
    rows: 3,
    free_row: 2,
};

/// The cells that unlink one slot.
fn one_unlinked(
    alloc: Global,
    header: &Header,
    newer: Option<&Linked>,
    gone: Linked,
    older: Option<u32>,
) -> Result<String, Fail>
    requires newer { IfSome (option_copied newer) (λ linked. IsStored SHORT linked.slot) }
    requires gone { IsStored SHORT gone.slot }
{
    let gone = [gone];
    let cut = Cut::new(newer, &gone, older);
    let cells = unlink(alloc, TABLE, header, &cut, SHORT)?;
    text_of(alloc, &cells)
}

/// The cells that unlink two slots.
fn two_unlinked(
    alloc: Global,
    newer: Option<&Linked>,
    first: Linked,
    second: Linked,
    older: Option<u32>,
) -> Result<String, Fail>
    requires newer { IfSome (option_copied newer) (λ linked. IsStored SHORT linked.slot) }
    requires first { IsStored SHORT first.slot }
    requires second { IsStored SHORT second.slot }
{
    let gone = [first, second];
    let cut = Cut::new(newer, &gone, older);
    let cells = unlink(alloc, TABLE, &OLD, &cut, SHORT)?;
    text_of(alloc, &cells)
}

#[test]
fn a_first_variation_is_linked(rt: HostRuntime) -> Result<(), Fail> {
    let alloc = rt.alloc();
    let cells = link(alloc, TABLE, &NEW, 1, &row(alloc, 1, 0)?, SHORT)?;
    assert_eq!(rt;
        text_of(alloc, &cells)?.as_str(),
        "Header 0 of table 1, 16: 3=1 11=1; \
        Slot 1 of table 1, 164: 0=1 1=2 11=1 19=1 23=7 27=3 36=107 37=49 100=97 101=98 102=99; \
        Pointer 1 of table 1, 8: 0=1 7=1; "
    );
    Ok(())
}

#[test]
fn an_only_variation_is_unlinked(rt: HostRuntime) -> Result<(), Fail> {
    let alloc = rt.alloc();
    assert_eq!(rt;
        one_unlinked(alloc, &NEW, None, only(alloc)?, None)?.as_str(),
        "Header 0 of table 1, 16: 3=1 7=1 11=1 15=1; \
        Slot 1 of table 1, 164: 1=2 23=7 36=107 37=49; Pointer 1 of table 1, 8:; "
    );
    assert_eq!(rt;
        one_unlinked(alloc, &OLD, None, only(alloc)?, None)?.as_str(),
        "Header 0 of table 1, 16: 3=9 7=1 11=3 15=1; \
        Slot 1 of table 1, 164: 1=2 15=4 23=7 36=107 37=49; Pointer 1 of table 1, 8: 7=2; "
    );
    Ok(())
}

#[test]
fn variations_of_three_are_unlinked(rt: HostRuntime) -> Result<(), Fail> {
    let alloc = rt.alloc();
    let newest_7 = newest(alloc)?;
    assert_eq!(rt;
        one_unlinked(alloc, &OLD, Some(&newest_7), middle(alloc)?, Some(5))?.as_str(),
        "Header 0 of table 1, 16: 3=9 7=3 11=3 15=2; Slot 3 of table 1, 164: 1=2 15=4 36=107 37=49; \
        Slot 7 of table 1, 164: 0=1 1=2 11=12 15=5 19=1 23=7 27=3 36=107 37=49 100=97 101=98 102=99; "
    );
    assert_eq!(rt;
        two_unlinked(alloc, None, newest(alloc)?, middle(alloc)?, Some(5))?.as_str(),
        "Header 0 of table 1, 16: 3=9 7=7 11=3 15=2; Slot 3 of table 1, 164: 1=2 15=4 36=107 37=49; \
        Slot 7 of table 1, 164: 1=2 15=3 23=7 36=107 37=49; Pointer 1 of table 1, 8: 0=1 7=5; "
    );
    assert_eq!(rt;
        two_unlinked(alloc, Some(&newest_7), middle(alloc)?, oldest(alloc)?, None)?.as_str(),
        "Header 0 of table 1, 16: 3=9 7=3 11=3 15=2; Slot 3 of table 1, 164: 1=2 15=5 36=107 37=49; \
        Slot 5 of table 1, 164: 1=2 15=4 23=7 36=107 37=49; \
        Slot 7 of table 1, 164: 0=1 1=2 11=12 19=1 23=7 27=3 36=107 37=49 100=97 101=98 102=99; "
    );
    Ok(())
}
