//! The header's fields, and parsing them from a file.
ghost use Rattle.std.specs.Prelude.{◌≡◌, ◌≤◌, length, IfOk};
ghost use Rattle.fields.specs.LittleEndian.{put};
ghost use Rattle.fractal_heap.specs.Header.{header_at};

use crate::frame::{check_start, check_sum};
use crate::header_fields::reader::Reader;
use reading::DoublingTable;
use refusals::FormatError;

/// How many fields every header has between version and checksum.
pub const FIELD_COUNT: usize = 23;

/// How many numbers a header has that was parsed: its fields, and the three that are kept of its filters.
pub const NUMBER_COUNT: usize = 26;

/// The header of a fractal heap: every field between version and checksum of one without filters, in header order, then
/// what is kept of its filters. Of the Rust crate's fields and those that it steps over each has the name that its
/// source gives it; after each is the format's name. What is called undefined has all bits set.
#[derive(Clone, Copy, Debug, Default, PartialEq, Eq)]
pub struct FractalHeapHeader {
    /// How many bytes an ID of this heap has: Heap ID Length.
    pub heap_id_length: u16,
    /// How many bytes the filter information takes that a header with filters has before its checksum; 0 where the heap
    /// has no filters: I/O Filters' Encoded Length.
    pub io_filter_encoded_length: u16,
    /// Bits: that of value 1 is set where the IDs of huge objects have wrapped round, that of value 2 where direct
    /// blocks have a checksum; the others are reserved: Flags.
    pub flags: u8,
    /// The most bytes that a managed object may have, a longer one being huge: Maximum Size of Managed Objects.
    pub max_managed_object_size: u32,
    /// The number that the next huge object is found by: Next Huge Object ID.
    pub next_huge_object_id: u64,
    /// The address of the tree by which huge objects are found, in bytes from the file's base, undefined where there is
    /// none: v2 B-tree Address of Huge Objects.
    pub btree_huge_objects_address: u64,
    /// How many bytes of the managed blocks are free: Amount of Free Space in Managed Blocks.
    pub free_space_managed_blocks: u64,
    /// The address of what keeps account of the free space, in bytes from the file's base, undefined where there is
    /// nothing: Address of Managed Block Free Space Manager.
    pub managed_block_free_space_manager_address: u64,
    /// How many bytes of the heap space the root's rows span: Amount of Managed Space in Heap.
    pub managed_space_in_heap: u64,
    /// How many bytes of it have blocks in the file: Amount of Allocated Managed Space in Heap.
    pub allocated_managed_space_in_heap: u64,
    /// The heap offset, in bytes, at which the next direct block is to be placed: Offset of Direct Block Allocation
    /// Iterator in Managed Space.
    pub direct_block_allocation_iterator_offset: u64,
    /// How many managed objects the heap holds: Number of Managed Objects in Heap.
    pub managed_objects_count: u64,
    /// How many bytes the huge objects have together: Size of Huge Objects in Heap.
    pub huge_objects_size: u64,
    /// How many huge objects the heap holds: Number of Huge Objects in Heap.
    pub huge_objects_count: u64,
    /// How many bytes the tiny objects have together: Size of Tiny Objects in Heap.
    pub tiny_objects_size: u64,
    /// How many tiny objects the heap holds: Number of Tiny Objects in Heap.
    pub tiny_objects_count: u64,
    /// The numbers that say how large each block is, and where in the heap space: Table Width to Maximum Heap Size.
    /// They are one value, and four fields in the Rust crate, since what reads blocks needs these and nothing else of a
    /// header.
    pub table: DoublingTable,
    /// With how many rows the root indirect block began; nothing is read by it: Starting # of Rows in Root Indirect
    /// Block.
    pub start_root_rows: u16,
    /// The address of the block that reading begins at, in bytes from the file's base; all bits are set where there is
    /// none: Address of Root Block.
    pub root_block_address: u64,
    /// How many rows the root block has now, 0 where it is a direct block: Current # of Rows in Root Indirect Block.
    pub current_rows_in_root_indirect_block: u16,
    /// Where the filter information begins, in bytes from the start of `file`, as the header's own place is counted;
    /// its length is `io_filter_encoded_length`. The information itself, a Filter Pipeline message, is not read.
    /// Without filters 0: I/O Filter Information.
    pub io_filter_information_position: u64,
    /// How many bytes the root block has after filtering, where it is a direct block. Without filters 0: Size of
    /// Filtered Root Direct Block.
    pub filtered_root_direct_block_size: u64,
    /// Which filters the root block was not put through, where it is a direct block: each set bit stands for a filter,
    /// the lowest for the first. Without filters 0: I/O Filter Mask.
    pub io_filter_mask: u32,
}

// Puts numbers into the first places of a list.
#[inline(always)]
#[tactic(auto, unfolding(fields::specs::LittleEndian::put))]
fn put_front(list: &mut [u64], numbers: &[u64])
    requires { length numbers.now ≤ length list.old }
    ensures { list.new ≡ put list.old 0 numbers.now }
{
    list[..numbers.len()].copy_from_slice(numbers);
}

impl FractalHeapHeader {
    ghost use Rattle.fractal_heap.specs.Header.{parsed_numbers, number_count};
    ghost use Rattle.fractal_heap.specs.Listed.{listed};
    ghost use Rattle.fractal_heap.specs.ReadLaws.{HeaderFits, FiltersFit};

    /// The header at `offset` of the file, whose addresses have `offset_size` bytes and whose lengths `length_size`.
    // Inlined, so that a caller reads no field that it does not use.
    #[inline(always)]
    #[tactic(auto, using(crate::proofs::Reading::filters_fit))]
    pub fn parse(
        file: &[u8],
        offset: usize,
        offset_size: u8,
        length_size: u8,
    ) -> Result<FractalHeapHeader, FormatError>
        ensures parsed { result ≡ header_at file.now offset offset_size length_size }
        ensures in_file { IfOk result (HeaderFits file.now offset offset_size length_size) }
        ensures filters { IfOk result (FiltersFit offset offset_size length_size) }
    {
        let reader = Reader {
            file,
            offset_size,
            length_size,
        };
        let pos = check_start(file, offset)?;
        let (header, pos) = reader.fields(pos)?;
        let (header, pos) = reader.filters(header, pos)?;
        check_sum(file, offset, pos)?;
        Ok(header)
    }

    /// The fields as numbers, in header order, then what is kept of the filters.
    #[inline(always)]
    pub fn numbers(self) -> [u64; NUMBER_COUNT]
        ensures { result ≡ parsed_numbers self }
    {
        [
            u64::from(self.heap_id_length),
            u64::from(self.io_filter_encoded_length),
            u64::from(self.flags),
            u64::from(self.max_managed_object_size),
            self.next_huge_object_id,
            self.btree_huge_objects_address,
            self.free_space_managed_blocks,
            self.managed_block_free_space_manager_address,
            self.managed_space_in_heap,
            self.allocated_managed_space_in_heap,
            self.direct_block_allocation_iterator_offset,
            self.managed_objects_count,
            self.huge_objects_size,
            self.huge_objects_count,
            self.tiny_objects_size,
            self.tiny_objects_count,
            u64::from(self.table.table_width),
            self.table.starting_block_size,
            self.table.max_direct_block_size,
            u64::from(self.table.max_heap_size),
            u64::from(self.start_root_rows),
            self.root_block_address,
            u64::from(self.current_rows_in_root_indirect_block),
            self.io_filter_information_position,
            self.filtered_root_direct_block_size,
            u64::from(self.io_filter_mask),
        ]
    }

    /// Puts these numbers into the first places of a list.
    #[inline(always)]
    pub fn put_numbers(self, list: &mut [u64])
        requires { number_count ≤ length list.old }
        ensures { list.new ≡ listed list.old self }
    {
        put_front(list, &self.numbers());
    }
}
