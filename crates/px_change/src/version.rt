ghost use Rattle.std.specs.Prelude.{◌≡◌, ◌++◌, IsTrue, OnErr, OnOk, length, take};
ghost use Rattle.px_cells.specs.Form.{is_short, is_slot};
ghost use Rattle.px_change.specs.Text.{cell_text, change_text};
ghost use Rattle.px_change.specs.Version.{header_cell, pointer_cell, slot_cell, version_change};

use crate::codes::{code_of_cell, code_of_kind};
use crate::limits::END_SIZE;
use crate::write::{append_cell_head, append_head};
use crate::{ChangeKind, Payload};
use px_cells::{CellKind, HEADER_SIZE, Header, POINTER_SIZE, Pointer, SLOT_HEAD_SIZE, Slot};
use px_recs::{write_header, write_pointer, write_slot};
use std::alloc::AllocError;
use std::marker::Model;

/// How many cells a Put has.
const VERSION_CELLS: u8 = 3;

/// A Put whose cells are written from where they stand: the table's header, the version's slot, and the row pointer that heads
/// its chain. Contracts see the change.
#[derive(Drop)]
pub struct Version<'a> {
    short: u32,
    table: u8,
    header: Header,
    /// The number of the slot.
    number: u32,
    slot: &'a Slot,
}

impl<'a> Model for Version<'a> {
    ghost use Rattle.std.specs.Prelude.{IsTrue};
    ghost use Rattle.px_cells.specs.Form.{is_short, is_slot};
    ghost use Rattle.px_change.specs.declared.change.Change.{Change};
    ghost use Rattle.px_change.specs.Version.{version_change};

    ghost Value = { Change };

    ghost view = { λ v. version_change v.short v.table v.header v.number v.slot.now };

    ghost invariant = { λ v. IsTrue (is_short v.short) × IsTrue (is_slot v.short v.slot.now) };
}

impl<'a> Version<'a> {
    /// The version in slot `number` of a table, once the header is this one, in a store with that short length.
    pub fn new(short: u32, table: u8, header: Header, number: u32, slot: &'a Slot) -> Version<'a>
        requires short { IsTrue (is_short short) }
        requires form { IsTrue (is_slot short slot.now) }
        ensures { result ≡ version_change short table header number slot.now }
    {
        Version {
            short,
            table,
            header,
            number,
            slot,
        }
    }

    // Without memory a part of the bytes may stay.
    #[tactic(auto, unfolding(crate::specs::Text::change_text))]
    fn append(&self, out: &mut Vec<u8>) -> Result<(), AllocError>
        ensures ok { OnOk result (out.new.items ≡ out.old.items ++ change_text self.now) }
        ensures err { OnErr result (take (length out.old.items) out.new.items ≡ out.old.items) }
    {
        let kind = code_of_kind(ChangeKind::Put);
        append_head(out, kind, self.slot.xn, 0, VERSION_CELLS)?;
        append_header(out, self.table, &self.header)?;
        append_slot(out, self.table, self.short, self.number, self.slot)?;
        append_pointer(out, self.table, self.slot.row, self.number)
    }
}

impl<'a> Payload for Version<'a> {
    ghost change = { λ version. version };

    fn end(&self) -> Option<[u8; END_SIZE]> {
        let _header = self.header;
        None
    }

    fn encode(&self, short: u32, out: &mut Vec<u8>) -> Result<(), AllocError> {
        let _short = short;
        let before = out.len();
        let appended = self.append(out);
        if appended.is_err() {
            out.truncate(before);
        }
        appended
    }
}

#[tactic(auto, unfolding(crate::specs::Text::cell_text))]
fn append_header(out: &mut Vec<u8>, table: u8, header: &Header) -> Result<(), AllocError>
    ensures ok { OnOk result (out.new.items ≡ out.old.items ++ cell_text (header_cell table header.now)) }
    ensures err { OnErr result (take (length out.old.items) out.new.items ≡ out.old.items) }
{
    let what = code_of_cell(CellKind::Header);
    append_cell_head(out, what, table, 0, HEADER_SIZE as u16)?;
    write_header(header, out)
}

#[tactic(auto, unfolding(crate::specs::Text::cell_text))]
fn append_slot(
    out: &mut Vec<u8>,
    table: u8,
    short: u32,
    number: u32,
    slot: &Slot,
) -> Result<(), AllocError>
    requires short { IsTrue (is_short short) }
    requires form { IsTrue (is_slot short slot.now) }
    ensures ok { OnOk result (out.new.items ≡ out.old.items ++ cell_text (slot_cell table short number slot.now)) }
    ensures err { OnErr result (take (length out.old.items) out.new.items ≡ out.old.items) }
{
    let what = code_of_cell(CellKind::Slot);
    let size = SLOT_HEAD_SIZE as u16 + short as u16;
    append_cell_head(out, what, table, number, size)?;
    write_slot(slot, short, out)
}

// The row pointer of a row whose newest version stands in the slot of that number.
#[tactic(auto, unfolding(crate::specs::Text::cell_text))]
fn append_pointer(out: &mut Vec<u8>, table: u8, row: u32, head: u32) -> Result<(), AllocError>
    ensures ok { OnOk result (out.new.items ≡ out.old.items ++ cell_text (pointer_cell table row head)) }
    ensures err { OnErr result (take (length out.old.items) out.new.items ≡ out.old.items) }
{
    let what = code_of_cell(CellKind::Pointer);
    append_cell_head(out, what, table, row, POINTER_SIZE as u16)?;
    let pointer = Pointer { used: true, head };
    write_pointer(&pointer, out)
}
