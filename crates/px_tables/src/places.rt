ghost use Rattle.std.specs.Prelude.{◌≡◌, ◌<◌, ◌≤◌, All, IfSome, length, vec_len};
ghost use Rattle.std.specs.Vec.{vec_capacity};
ghost use Rattle.px_tables.specs.Held.{placed};
ghost use Rattle.px_tables.specs.Unlinking.{with_pointer, with_slots};

use px_cells::{Pointer, Slot};
use px_chain::Linked;

/// Puts an item at a number: in the place of the one that is there, or behind the last. It takes no memory.
pub(crate) fn put_at<T: Drop>(items: &mut Vec<T>, number: u32, item: T)
    requires within { number ≤ length items.old.items }
    requires room { number < vec_capacity items.old }
    ensures { items.new.items ≡ placed items.old.items number item }
{
    let at = number as usize;
    if at < items.len() {
        items[at] = item;
    } else {
        let _pushed = items.push(item);
    }
}

/// Puts slots at their numbers, each in the place of the one that is there.
pub(crate) fn put_slots(slots: &mut Vec<Slot>, changed: Vec<Linked>)
    requires { All (λ linked. linked.number < length slots.old.items) changed.items }
    ensures { slots.new.items ≡ with_slots slots.old.items changed.items }
{
    for linked in changed {
        slots[linked.number as usize] = linked.slot;
    }
}

/// Puts a row pointer at its number, if there is one to put, in the place of the one that is there.
pub(crate) fn put_pointer(pointers: &mut Vec<Pointer>, changed: Option<(u32, Pointer)>)
    requires { IfSome changed (λ named. named.0 < length pointers.old.items) }
    ensures { pointers.new.items ≡ with_pointer pointers.old.items changed }
{
    if let Some((row, pointer)) = changed {
        pointers[row as usize] = pointer;
    }
}
