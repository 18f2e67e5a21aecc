//! The slots of the table: the one that holds an offset, and the indirect blocks that a direct
//! block opens. The functions have a `requires`; they serve our own crates and are no part of the
//! interface.
ghost use Rattle.std.specs.Prelude.{◌≡◌, ◌^◌, ◌<◌, ◌≤◌, nat_le, if◌then◌else◌};
ghost use Rattle.table.specs.Table.{fixed, row_of};
ghost use Rattle.table.specs.Sizes.{indirect_size};
ghost use Rattle.table.specs.Slots.{table_slot, slot_at, entered_bytes};

use crate::block_sizes::indirect_block_size;
use crate::row_counts::size_to_rows;
use crate::{MAX_HEAP_SPACE, Slot, TableSlot, is_direct, row_block_size, row_of};

/// The table's own slot that holds an offset, direct or indirect: what `locate` and
/// `entered_blocks` do at each level. A slot begins at a multiple of its size, so no column is
/// reckoned.
#[tactic(auto, using(crate::proofs::Locating::slot_of_row, crate::proofs::Locating::size_of_row))]
pub fn table_slot(offset: u64) -> TableSlot
    requires { offset < MAX_HEAP_SPACE }
    ensures slot { result ≡ table_slot fixed offset }
    ensures before { result.start ≤ offset }
    ensures size_in_heap { result.size ≤ MAX_HEAP_SPACE }
{
    let row = row_of(offset);
    let size = row_block_size(row);
    TableSlot {
        row,
        start: offset - offset % size,
        size,
    }
}

/// The direct slot that holds an offset. It goes down through indirect slots, so that planning can
/// go through the direct ones in order although the table is a tree. The offset lies `past` bytes
/// behind the start of the slot that was gone into last.
pub fn locate(offset: u64) -> Slot
    requires { offset < MAX_HEAP_SPACE }
    ensures { result ≡ slot_at fixed offset }
{
    let mut past = offset;
    loop {
        let at = table_slot(past);
        past -= at.start;
        if is_direct(at.row) {
            return Slot {
                start: offset - past,
                size: at.size,
            };
        }
    }
}

// The bytes of an indirect block in a slot of `size` bytes that begins at `start`, or 0 where the
// block before, which ended at `end`, lies in it too.
fn entered_here(end: u64, start: u64, size: u64, offset_size: u8) -> u64
    requires { size ≤ MAX_HEAP_SPACE }
    ensures { result
        ≡ if nat_le end start then indirect_size fixed offset_size (row_of fixed size) else 0 }
{
    if end <= start {
        indirect_block_size(size_to_rows(size), offset_size)
    } else {
        0
    }
}

/// The bytes of the indirect blocks that a direct block at `start` opens, where the one before
/// ended at `end`: of those in whose slots it lies, but not the one before.
pub fn entered_blocks(end: u64, start: u64, offset_size: u8) -> u64
    requires { start < MAX_HEAP_SPACE }
    ensures { result ≡ entered_bytes fixed offset_size end start }
{
    let mut total = 0;
    let mut base = 0;
    let mut local = start;
    loop {
        let at = table_slot(local);
        if is_direct(at.row) {
            return total;
        }
        base += at.start;
        local -= at.start;
        total += entered_here(end, base, at.size, offset_size);
    }
}
