//! The doubling table of a fractal heap at the fixed geometry: width 4, starting block 1,024,
//! largest direct block 65,536, heap space 2^40. The definitions in specs/ have the table as a
//! parameter. Functions with a `requires` serve our own crates and are no part of the interface.
#![tactic(auto)]

pub mod block_sizes;
pub mod capacities;
pub mod row_counts;
pub mod slot_places;

ghost use Rattle.std.specs.Prelude.{◌≡◌, ◌^◌, ◌<◌, ◌≤◌, nat_le};
ghost use Rattle.table.specs.Table.{fixed, row_bits, row_offset, row_of, place_of};

/// Slots of a row (`H5O_FHEAP_MAN_WIDTH`). This and the next three numbers are those of every heap
/// that HDF5 writes for attributes; two of those for links differ. All others here follow from
/// them.
//
// The original's `START_ROOT_ROWS` is not here: it is the header's Starting # of Rows in Root
// Indirect Block, which no reader goes by, and no block of ours depends on.
pub const TABLE_WIDTH: u64 = 4;

/// Bytes of a block of the first two rows (`H5O_FHEAP_MAN_START_BLOCK_SIZE`).
pub const STARTING_BLOCK_SIZE: u64 = 1024;

/// Bytes of the largest direct block (`H5O_FHEAP_MAN_MAX_DIRECT_SIZE`). Rows whose blocks would be
/// larger hold indirect blocks: so from there on a heap grows by levels, and not by larger blocks.
pub const MAX_DIRECT_BLOCK_SIZE: u64 = 65_536;

/// Bits of a heap offset (`H5O_FHEAP_MAN_MAX_INDEX`), the header's Maximum Heap Size.
pub const MAX_HEAP_SIZE_BITS: u32 = 40;

/// Bytes that a heap offset takes in blocks and IDs: as many as its bits need.
pub const BLOCK_OFFSET_BYTES: u64 = (MAX_HEAP_SIZE_BITS as u64 + 7) / 8;

/// The logarithm of `STARTING_BLOCK_SIZE`. Rows are told by logarithms, since each is twice the one
/// before.
const START_BITS: u32 = 10;

/// The logarithm of `TABLE_WIDTH`.
const WIDTH_BITS: u32 = 2;

/// The logarithm of `MAX_DIRECT_BLOCK_SIZE`.
const MAX_DIRECT_BITS: u32 = 16;

const _: () = prove!(1u64 << START_BITS == STARTING_BLOCK_SIZE);

const _: () = prove!(1u64 << WIDTH_BITS == TABLE_WIDTH);

const _: () = prove!(1u64 << MAX_DIRECT_BITS == MAX_DIRECT_BLOCK_SIZE);

/// The logarithm of the bytes that the first row spans (`H5HF_dtable_t::first_row_bits`).
const FIRST_ROW_BITS: u32 = START_BITS + WIDTH_BITS;

/// Bytes that the first row spans: where the second begins.
const FIRST_ROW_SIZE: u64 = STARTING_BLOCK_SIZE * TABLE_WIDTH;

/// The rows before this one hold direct blocks, it and all behind it indirect ones: the first two
/// have the starting size, and each later one doubles it (`H5HF__dtable_init`).
pub const MAX_DIRECT_ROWS: u64 = (MAX_DIRECT_BITS - START_BITS + 2) as u64;

/// As many rows span the heap space, so no root has more (`H5HF_dtable_t::max_root_rows`).
pub const MAX_ROOT_ROWS: usize = (MAX_HEAP_SIZE_BITS - FIRST_ROW_BITS + 1) as usize;

/// Bytes of the heap space: all heap offsets lie below it.
pub const MAX_HEAP_SPACE: u64 = 1u64 << MAX_HEAP_SIZE_BITS;

/// Row and column of a slot. Rows are `u64` here, not `usize`: they are shifted by and compared,
/// and index an array only where capacities are reckoned.
#[derive(Clone, Copy)]
pub struct RowCol {
    pub row: u64,
    pub col: u64,
}

/// A direct slot of the heap: the heap offset at which it begins, and its bytes.
#[derive(Clone, Copy)]
pub struct Slot {
    pub start: u64,
    pub size: u64,
}

/// A slot of one indirect block's table: its row, where it begins, in bytes from the block's own
/// offset on, and its bytes.
#[derive(Clone, Copy)]
pub struct TableSlot {
    pub row: u64,
    pub start: u64,
    pub size: u64,
}

/// The size of a block of a row, in bytes: it doubles from row 2 on.
#[tactic(auto, using(crate::proofs::Rows::size_of_later_row))]
pub fn row_block_size(row: u64) -> u64
    requires { row ≤ MAX_ROOT_ROWS }
    ensures { result ≡ 2 ^ row_bits fixed row }
{
    if row <= 1 {
        STARTING_BLOCK_SIZE
    } else {
        STARTING_BLOCK_SIZE << (row - 1)
    }
}

/// Whether a row's slots are direct blocks; those of later rows are indirect. It is the one place
/// where the direct rows end.
pub fn is_direct(row: u64) -> bool
    ensures { result ≡ nat_le (row_bits fixed row) fixed.direct_bits }
{
    row < MAX_DIRECT_ROWS
}

/// Where a row begins, in bytes from its indirect block's own offset on
/// (`H5HF_dtable_t::row_block_off`); which is what the rows before it span.
#[tactic(auto, using(crate::proofs::Rows::start_of_later_row))]
pub fn row_offset(row: u64) -> u64
    requires { row ≤ MAX_ROOT_ROWS }
    ensures { result ≡ row_offset fixed row }
{
    if row == 0 {
        0
    } else {
        FIRST_ROW_SIZE << (row - 1)
    }
}

/// The row of an offset. At the end of the heap space it is the number of all rows.
#[tactic(auto, using(crate::proofs::Rows::row_low))]
pub fn row_of(offset: u64) -> u64
    requires { offset ≤ MAX_HEAP_SPACE }
    ensures row { result ≡ row_of fixed offset }
    ensures of_root { result ≤ MAX_ROOT_ROWS }
{
    if offset < FIRST_ROW_SIZE {
        return 0;
    }
    u64::from(offset.ilog2() - FIRST_ROW_BITS + 1)
}

/// Row and column of an offset within an indirect block (`H5HF__dtable_lookup`).
pub fn lookup(offset: u64) -> RowCol
    requires { offset < MAX_HEAP_SPACE }
    ensures place { result ≡ place_of fixed offset }
    ensures of_root { result.row < MAX_ROOT_ROWS }
{
    let row = row_of(offset);
    RowCol {
        row,
        col: (offset - row_offset(row)) / row_block_size(row),
    }
}
