//! How many slots there are of each size. Functions with a `requires` serve our own crates and are no part of the
//! interface.
ghost use Rattle.std.specs.Prelude.{◌≡◌, ◌-◌, ◌<◌, IfOk};
ghost use Rattle.table.specs.Table.{fixed, row_offset, max_rows};
ghost use Rattle.slot_walk.specs.Geometry.{table_of, IsPermitted};
ghost use Rattle.slot_walk.specs.HeapOrder.{bytes_of};
ghost use Rattle.slot_walk.specs.Laws.{FormatCounts};
ghost use Rattle.slot_walk.specs.Blocks.{IsNested};
ghost use Rattle.slot_walk.specs.Counting.{slot_counts, heap_rows_end, CountBlock, BlockCounted};

use crate::MAX_LEVELS;
use crate::geometry::Geometry;
use refusals::FormatError;

/// The sizes of direct slots in the fixed table: 1,024 bytes, doubled six times, are 65,536.
pub const SIZES: usize = 7;

// Walks the block from `at` to `end` and counts each direct slot, at the place of its size. The slots of a row are all
// indirect, and each is opened, with one level fewer left; or all are direct.
fn count_block(geometry: &Geometry, levels: u64, at: u64, end: u64, counts: &mut [u64])
    requires table { IsPermitted geometry.now }
    requires block { CountBlock (table_of geometry.now) levels at end counts.old }
    ensures { BlockCounted (table_of geometry.now) at end counts.old counts.new }
{
    let mut here = at;
    let mut size = geometry.starting_block;
    let mut next = size;
    let mut place: usize = 0;
    let mut next_place: usize = 0;
    'rows: while here < end {
        let mut left = geometry.width;
        if size > geometry.largest_block {
            'indirect: while left > 0 {
                count_block(geometry, levels - 1, here, here + size, counts);
                here += size;
                left -= 1;
            }
        } else {
            let mut slots = 0;
            'direct: while left > 0 {
                slots += 1;
                here += size;
                left -= 1;
            }
            counts[place] += slots;
        }
        size = next;
        next += next;
        place = next_place;
        next_place += 1;
    }
}

// What so many rows span, row by row, if a heap has as many.
fn heap_rows_end(geometry: &Geometry, rows: u64) -> Option<u64>
    requires { IsPermitted geometry.now }
    ensures { result ≡ heap_rows_end (table_of geometry.now) rows }
{
    if rows == 0 {
        return None;
    }
    let heap_end = geometry.heap_end();
    let mut end = 0;
    let mut size = geometry.starting_block;
    let mut next = size;
    for _row in 0..rows {
        end += geometry.width * size;
        if end > heap_end {
            return None;
        }
        size = next;
        next = next + next;
    }
    Some(end)
}

/// How many direct slots there are in so many rows of a table of so many levels at most: of each of N sizes, smallest
/// first, which reach the largest direct block's.
pub fn count_slots_in<const N: usize>(
    geometry: &Geometry,
    levels: u64,
    rows: u64,
) -> Result<[u64; N], FormatError>
    requires table { IsPermitted geometry.now }
    requires levels { IsNested (table_of geometry.now) levels (max_rows (table_of geometry.now)) }
    requires places { (table_of geometry.now).direct_bits - (table_of geometry.now).start_bits < N }
    ensures counts { result ≡ slot_counts (table_of geometry.now) N rows }
    ensures formats { IfOk result (λ counts. FormatCounts (table_of geometry.now) N rows counts) }
    ensures fill { IfOk result (λ counts. bytes_of (table_of geometry.now).start_bits counts
        ≡ row_offset (table_of geometry.now) rows) }
{
    let Some(end) = heap_rows_end(geometry, rows) else {
        return Err(FormatError::OutsideHeap(rows));
    };
    let mut counts = [0; N];
    count_block(geometry, levels, 0, end, &mut counts);
    Ok(counts)
}

/// How many direct slots a heap of so many rows has of each size, smallest first, counted out. 0 rows, and more than
/// a root has, are refused by `OutsideHeap`. Each count is the number of the format's slots of its size, and together
/// they fill the managed space; no more indirect blocks are open at once than there are levels.
pub fn count_slots(rows: u64) -> Result<[u64; SIZES], FormatError>
    ensures counts { result ≡ slot_counts fixed SIZES rows }
    ensures formats { IfOk result (λ counts. FormatCounts fixed SIZES rows counts) }
    ensures fill { IfOk result (λ counts. bytes_of fixed.start_bits counts ≡ row_offset fixed rows) }
    ensures levels { IsNested fixed MAX_LEVELS (max_rows fixed) }
    ensures eight_levels { MAX_LEVELS ≡ 8 }
{
    count_slots_in(&Geometry::fixed(), MAX_LEVELS, rows)
}
