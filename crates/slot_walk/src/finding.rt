//! The slot of a heap offset. Functions with a `requires` serve our own crates and are no part of the interface.
ghost use Rattle.std.specs.Prelude.{◌≡◌, ◌+◌, ◌*◌, ◌^◌, ◌<◌, [], ◌∷◌, IfOk};
ghost use Rattle.table.specs.Table.{fixed, max_rows};
ghost use Rattle.slot_walk.specs.Geometry.{table_of, IsPermitted};
ghost use Rattle.slot_walk.specs.HeapOrder.{copies, slots_from};
ghost use Rattle.slot_walk.specs.Blocks.{IsNested, Block};
ghost use Rattle.slot_walk.specs.Search.{first_past, counted_slot, Holds, BlockSearched};

use crate::MAX_LEVELS;
use crate::geometry::Geometry;
use refusals::FormatError;
use table::Slot;

// Where a row of direct slots of one size ends that begins at `at`: the sizes are added up.
fn end_of_row(geometry: &Geometry, at: u64, size: u64) -> u64
    requires { at + geometry.now.width * size < 2 ^ 64 }
    ensures { result ≡ at + geometry.now.width * size }
{
    let mut end = at;
    let mut left = geometry.width;
    while left > 0 {
        end += size;
        left -= 1;
    }
    end
}

// The first slot that ends past the offset, in a row of direct slots of one size that begins at `at`, if one does.
fn slot_in_row(geometry: &Geometry, at: u64, size: u64, offset: u64) -> Option<Slot>
    requires { at + geometry.now.width * size < 2 ^ 64 }
    ensures { result ≡ first_past offset (slots_from at (copies geometry.now.width (size ∷ []))) }
{
    let mut start = at;
    let mut left = geometry.width;
    while left > 0 {
        if offset < start + size {
            return Some(Slot { start, size });
        }
        start += size;
        left -= 1;
    }
    None
}

// Walks the block from `at` to `end`: rows 0 and 1 are alike, each later one has slots twice as large, and rows come
// until they fill the block. So a block is told by its end, and no number of rows is reckoned. The slots of a row are all
// indirect, and each is opened, with one level fewer left; or all are direct, and are passed up to the row's end, and gone
// through again where the offset lies before it. The slot that holds the offset is given, if one of the block does.
fn walk_block(geometry: &Geometry, levels: u64, at: u64, end: u64, offset: u64) -> Option<Slot>
    requires table { IsPermitted geometry.now }
    requires block { Block (table_of geometry.now) levels at end }
    ensures { BlockSearched (table_of geometry.now) offset at end result }
{
    let mut here = at;
    let mut size = geometry.starting_block;
    let mut next = size;
    'rows: while here < end {
        if size > geometry.largest_block {
            let mut left = geometry.width;
            'indirect: while left > 0 {
                if let Some(slot) = walk_block(geometry, levels - 1, here, here + size, offset) {
                    return Some(slot);
                }
                here += size;
                left -= 1;
            }
        } else {
            let row_end = end_of_row(geometry, here, size);
            if offset < row_end {
                return slot_in_row(geometry, here, size, offset);
            }
            here = row_end;
        }
        size = next;
        next += next;
    }
    None
}

/// The slot of a heap offset in a table of so many levels at most.
pub fn count_to_in(geometry: &Geometry, levels: u64, offset: u64) -> Result<Slot, FormatError>
    requires table { IsPermitted geometry.now }
    requires levels { IsNested (table_of geometry.now) levels (max_rows (table_of geometry.now)) }
    ensures slot { result ≡ counted_slot (table_of geometry.now) offset }
    ensures holds { IfOk result (λ slot. Holds (table_of geometry.now) offset slot) }
{
    let end = geometry.heap_end();
    if offset >= end {
        return Err(FormatError::OutsideHeap(offset));
    }
    walk_block(geometry, levels, 0, end, offset).ok_or(FormatError::OutsideHeap(offset))
}

/// The direct slot of a heap offset, counted out from 0: its heap offset and its bytes. An offset at or above 2^40 is
/// refused by `OutsideHeap`. It counts every slot before, so it takes the longer the farther the offset is; no more
/// indirect blocks are open at once than there are levels.
pub fn count_to(offset: u64) -> Result<Slot, FormatError>
    ensures slot { result ≡ counted_slot fixed offset }
    ensures holds { IfOk result (λ slot. Holds fixed offset slot) }
    ensures levels { IsNested fixed MAX_LEVELS (max_rows fixed) }
    ensures eight_levels { MAX_LEVELS ≡ 8 }
{
    count_to_in(&Geometry::fixed(), MAX_LEVELS, offset)
}
