//! The child of an indirect block that holds a heap offset, sought row by row.
ghost use Rattle.std.specs.Prelude.{◌≡◌, ◌<◌, ◌^◌};
ghost use Rattle.reading.specs.Blocks.{holds_offset, child_of, slot_rows, child_in_slots, child_in};
ghost use Rattle.reading.specs.Blocks.{block_offset_size, entries_place, child_at};

use crate::Search;
use crate::rows::DoublingTable;
use fields::convert::{is_undefined_addr, to_usize};
use fields::signature::has_signature;
use fields::{ensure_len, is_width, read_offset};
use numbers::saturating_mul;
use refusals::FormatError;

/// A child of an indirect block: its address, the size of a direct one or the rows of an indirect one, and the heap
/// offset that it begins at. `nrows`, at most 64, is what the original cuts to 16 bits.
#[derive(Clone, Copy, Debug, PartialEq, Eq)]
pub enum HeapChild {
    Direct {
        addr: u64,
        block_size: u64,
        heap_offset: u64,
    },
    Indirect {
        addr: u64,
        nrows: u64,
        heap_offset: u64,
    },
}

// The child in a slot of a row.
fn child_of(table: &DoublingTable, row: u64, addr: u64, heap_offset: u64) -> HeapChild
    ensures { result ≡ child_of table.now row addr heap_offset }
{
    let block_size = table.block_size_for_row(row);
    if row < table.max_direct_rows() {
        HeapChild::Direct {
            addr,
            block_size,
            heap_offset,
        }
    } else {
        let nrows = table.size_to_rows(block_size);
        HeapChild::Indirect {
            addr,
            nrows,
            heap_offset,
        }
    }
}

// Whether a block at `addr` that spans the offsets from `start` to `end` is there and holds the target.
fn holds(addr: u64, offset_size: u8, start: u64, end: u64, target: u64) -> bool
    ensures { result ≡ holds_offset addr offset_size start end target }
{
    start <= target && target < end && !is_undefined_addr(addr, offset_size)
}

impl DoublingTable {
    /// How many bytes the heap offset that a block stores has: the heap's bits divided by 8 and rounded up.
    #[inline(always)]
    pub fn block_offset_size(self) -> usize
        ensures bytes { result ≡ block_offset_size self }
        ensures bound { result < 2 ^ 14 }
    {
        (usize::from(self.max_heap_size) + 7) / 8
    }

    /// Where the entries of an indirect block begin, and in a direct block the checksum, if it has one: in bytes from
    /// the block's start.
    #[inline(always)]
    pub fn entries_place(self, offset_size: u8) -> usize
        ensures place { result ≡ entries_place self offset_size }
        ensures bound { result < 2 ^ 15 }
    {
        5 + usize::from(offset_size) + self.block_offset_size()
    }
}

impl Search<'_> {
    // The child that holds the target, of the rows whose entries begin at `at` of a block. A row that ends at or before
    // the target is passed at once, where all its entries are there; the definition, as the original, goes slot by
    // slot.
    #[inline(always)]
    #[tactic(auto, using(crate::proofs::Scanning::scanning))]
    fn find_child_in_rows(
        &self,
        block: &[u8],
        at: usize,
        nrows: u64,
        start: u64,
    ) -> Result<Option<HeapChild>, FormatError>
        ensures { result ≡ child_in_slots self.now.table block.now self.now.offset_size
            self.now.target (slot_rows self.now.table nrows 0) at start }
    {
        let width = self.table.table_width;
        let entries = usize::from(width) * usize::from(self.offset_size);
        let mut pos = at;
        let mut heap_offset = start;
        for row in 0..nrows {
            let size = self.table.slot_size(row);
            let row_end = heap_offset.saturating_add(saturating_mul(size, width));
            let are_there = pos <= block.len() && entries <= block.len() - pos;
            if row_end <= self.target && is_width(self.offset_size) && are_there {
                pos += entries;
                heap_offset = row_end;
                continue;
            }
            for column in 0..width {
                let addr = read_offset(block, pos, self.offset_size)?;
                let end = heap_offset.saturating_add(size);
                if holds(addr, self.offset_size, heap_offset, end, self.target) {
                    return Ok(Some(child_of(&self.table, row, addr, heap_offset)));
                }
                pos += usize::from(self.offset_size);
                heap_offset = end;
            }
        }
        Ok(None)
    }

    /// The child that holds the target, of the block whose bytes these begin with: `nrows` rows, the first slot at the
    /// heap offset `start`. Filtered heaps, whose entries are longer, were refused before, and are not tested for
    /// again.
    // Inlined, as the other two here: with more than one kind of walk they would else be called, block by block.
    #[inline(always)]
    pub fn find_child_for_offset(
        &self,
        block: &[u8],
        nrows: u64,
        start: u64,
    ) -> Result<Option<HeapChild>, FormatError>
        ensures { result
            ≡ child_in self.now.table block.now nrows start self.now.target self.now.offset_size }
    {
        ensure_len(block, 0, 4)?;
        if !has_signature(block, 0, b"FHIB") {
            return Err(FormatError::InvalidFractalHeapSignature);
        }
        let at = self.table.entries_place(self.offset_size);
        self.find_child_in_rows(block, at, nrows, start)
    }

    /// The same of the block at `addr` of the file.
    #[inline(always)]
    #[tactic(auto, using(crate::proofs::Scanning::part_all))]
    pub fn find_child_at(
        &self,
        addr: u64,
        nrows: u64,
        start: u64,
    ) -> Result<Option<HeapChild>, FormatError>
        ensures { result ≡ child_at self.now.table self.now.file.now addr nrows start
            self.now.target self.now.offset_size }
    {
        let at = to_usize(addr);
        ensure_len(self.file, at, 4)?;
        self.find_child_for_offset(&self.file[at..], nrows, start)
    }
}
