//! The doubling table as the header of a heap gives it, whatever its numbers are: the sizes of its rows,
//! where the direct rows end, and what a nested block has and spans. A size that would pass 2^64 - 1
//! counts as that number.
ghost use Rattle.std.specs.Prelude.{◌≡◌, ◌≤◌, ◌<◌};
ghost use Rattle.reading.specs.Rows.{block_size, direct_rows, size_to_rows, heap_size, slot_size};
ghost use Rattle.reading.specs.Rows.{SpansDouble};

use numbers::{log2_floor, saturating_mul, saturating_shl};

/// The header's fields that shape the heap, with the format's name after each.
#[derive(Clone, Copy, Debug, Default, PartialEq, Eq)]
pub struct DoublingTable {
    /// How many slots a row has: Table Width. The format asks for a power of two; reading takes any number.
    pub table_width: u16,
    /// How many bytes a block of row 0 or of row 1 has, from where each row has blocks twice as large: Starting Block
    /// Size. A power of two in the format, any number in reading.
    pub starting_block_size: u64,
    /// The most bytes of a direct block; a row of larger blocks has indirect ones: Maximum Direct Block Size. A power
    /// of two in the format, any number in reading.
    pub max_direct_block_size: u64,
    /// How many bits a heap offset has, which says where a block's entries and an ID's length begin: Maximum Heap Size.
    pub max_heap_size: u16,
}

impl DoublingTable {
    /// The size of a block in a row: the starting block's in rows 0 and 1, then twice the row before.
    pub fn block_size_for_row(self, row: u64) -> u64
        ensures { result ≡ block_size self row }
    {
        let doublings = row.saturating_sub(1);
        if doublings < 64 {
            saturating_shl(self.starting_block_size, doublings)
        } else {
            u64::MAX
        }
    }

    /// How many rows hold direct blocks. The field `start_root_rows` says nothing about it.
    pub fn max_direct_rows(self) -> u64
        ensures { result ≡ direct_rows self }
    {
        let start = log2_floor(self.starting_block_size);
        let largest = log2_floor(self.max_direct_block_size);
        largest.saturating_sub(start) + 2
    }

    /// How many rows a nested block has that spans `size` bytes.
    pub fn size_to_rows(self, size: u64) -> u64
        ensures { result ≡ size_to_rows self size }
    {
        let start = log2_floor(self.starting_block_size);
        let width = log2_floor(self.table_width as u64);
        let bits = log2_floor(size);
        bits.saturating_sub(start + width) + 1
    }

    /// What a block of `nrows` rows spans: row 0, doubled by each row after it, in one product. The definition adds up
    /// the rows, as the original does.
    #[tactic(auto, using(crate::proofs::RowSizes::span))]
    fn indirect_block_heap_size(self, nrows: u64) -> u64
        requires { (0 < nrows) × (nrows ≤ 64) }
        ensures { result ≡ heap_size self nrows }
    {
        let first = saturating_mul(self.starting_block_size, self.table_width);
        saturating_shl(first, nrows - 1)
    }

    /// What a slot of a row spans: a direct block, or the nested block there.
    #[tactic(auto, using(crate::proofs::RowSizes::rows_le))]
    pub fn slot_size(self, row: u64) -> u64
        ensures { result ≡ slot_size self row }
    {
        let size = self.block_size_for_row(row);
        if row < self.max_direct_rows() {
            size
        } else {
            self.indirect_block_heap_size(self.size_to_rows(size))
        }
    }
}

/// A law, for every header: what a nested block spans is its first row, doubled by each row after it.
pub fn rows_double_what_is_spanned()
    ensures { SpansDouble }
{}
