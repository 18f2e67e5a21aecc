//! The search for the next slot that is large enough. Functions with a `requires` serve our own
//! crates and are no part of the interface.
ghost use Rattle.std.specs.Prelude.{◌≡◌, ◌≤◌, IfSome};
ghost use Rattle.table.specs.Table.{fixed};
ghost use Rattle.planner.specs.Steps.{open_at};
ghost use Rattle.planner.specs.Requires.{InHeap};

use table::slot_places::locate;
use table::{MAX_DIRECT_BLOCK_SIZE, MAX_HEAP_SPACE, Slot};

/// The first slot from the heap offset `cursor` on, where a slot begins, that has `need` bytes;
/// `None` where the heap space has none.
//
// A slot begins at a multiple of its size, so no slot that is large enough begins between two
// multiples of `span`, the least power of two that holds `need`: from a slot that is too small the
// search goes on at the next one. The definition tries slot after slot; `jump` in
// proofs/Jumping.antt proves that both find the same. The mask is the next multiple without a
// division.
pub fn find_slot(cursor: u64, need: u64) -> Option<Slot>
    requires cursor_in_heap { cursor ≤ MAX_HEAP_SPACE }
    requires need_in_block { need ≤ MAX_DIRECT_BLOCK_SIZE }
    ensures first_large_enough { result ≡ open_at fixed need cursor }
    ensures in_heap { IfSome result InHeap }
{
    let span = need.next_power_of_two();
    let mut from = cursor;
    while from < MAX_HEAP_SPACE {
        let slot = locate(from);
        if need <= slot.size {
            return Some(slot);
        }
        let end = slot.start + slot.size + (span - 1);
        from = end - (end & (span - 1));
    }
    None
}
