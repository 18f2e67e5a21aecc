//! How many object bytes the rows of the table hold. Functions with a `requires` serve our own
//! crates and are no part of the interface.
ghost use Rattle.std.specs.Prelude.{◌≡◌, ◌-◌, ◌*◌, ◌^◌, ◌<◌, ◌≤◌, nat_le, if◌then◌else◌, take};
ghost use Rattle.table.specs.Table.{fixed, row_bits};
ghost use Rattle.table.specs.Sizes.{direct_header};
ghost use Rattle.numbers.specs.Sums.{sum};
ghost use Rattle.table.specs.Capacity.{capacities};

use crate::block_sizes::direct_block_header;
use crate::{
    MAX_HEAP_SPACE, MAX_ROOT_ROWS, STARTING_BLOCK_SIZE, TABLE_WIDTH, is_direct, row_block_size,
};

// What a block of a row holds, `below` being what the blocks of the rows that fill an indirect one
// hold, one of each row.
#[tactic(auto, using(crate::proofs::Capacity::row_size_ge))]
fn block_capacity(row: u64, below: u64, header: u64) -> u64
    requires row_of_root { row < MAX_ROOT_ROWS }
    requires below_in_heap { below ≤ MAX_HEAP_SPACE }
    requires header_in_block { header ≤ STARTING_BLOCK_SIZE }
    ensures { result
        ≡ if nat_le (row_bits fixed row) fixed.direct_bits then 2 ^ row_bits fixed row - header
        else TABLE_WIDTH * below }
{
    if is_direct(row) {
        row_block_size(row) - header
    } else {
        TABLE_WIDTH * below
    }
}

/// The object bytes that a block of each row holds, upward: an indirect row's blocks hold what the
/// rows below that fill them hold, and `below` is the sum of these, one block of each. Rows 0 and 1
/// are alike, so the array is made with their number in every place and filled from row 2 on. It
/// holds all rows: one call serves any number of them.
pub fn rows_capacity(offset_size: u8) -> [u64; MAX_ROOT_ROWS]
    ensures { result ≡ capacities fixed (direct_header fixed offset_size) MAX_ROOT_ROWS }
{
    let header = direct_block_header(offset_size);
    let mut per_block = [STARTING_BLOCK_SIZE - header; MAX_ROOT_ROWS];
    let mut below = 0;
    for row in 2..MAX_ROOT_ROWS {
        per_block[row] = block_capacity(row as u64, below, header);
        below += per_block[row - 2];
    }
    per_block
}

/// The object bytes that `nrows` rows hold, allocated or not, from the capacities of their blocks
/// (HDF5's `row_tot_dblock_free`, summed).
pub fn capacity_sum(per_block: [u64; MAX_ROOT_ROWS], nrows: usize) -> u64
    requires rows_of_root { nrows ≤ MAX_ROOT_ROWS }
    requires sum_in_heap { TABLE_WIDTH * sum (take nrows per_block) ≤ MAX_HEAP_SPACE }
    ensures { result ≡ TABLE_WIDTH * sum (take nrows per_block) }
{
    let mut total = 0;
    for row in 0..nrows {
        total += per_block[row];
    }
    TABLE_WIDTH * total
}
