//! The whole way from bytes: a heap's header and its region are written into a file, each at its place, and an object
//! is fetched from the file, by the header's place and the object's ID alone, every block on the way tested.
ghost use Rattle.std.specs.Prelude.{◌≡◌, ◌+◌, ◌^◌, ◌<◌, ◌≤◌, ◌++◌, true, length, drop, slice_index};
ghost use Rattle.std.specs.Prelude.{IfOk, OnOk, OnErr};
ghost use Rattle.fields.specs.LittleEndian.{put};
ghost use Rattle.fields.specs.Widths.{legal};
ghost use Rattle.fractal_heap.specs.Spelling.{header_spelled};
ghost use Rattle.fractal_heap.specs.Writing.{header_length, header_written};
ghost use Rattle.heap_kept.specs.HeapKept.{part_of};
ghost use Rattle.heap_kept.specs.OwnHeader.{planned_header};
ghost use Rattle.round_trip.specs.FromBytes.{file_with_both};
ghost use Rattle.round_trip.specs.InFile.{serialized_in, ListsHavePlan};
ghost use Rattle.round_trip.specs.RoundTrip.{came_back};

use crate::by_id::early_id;
use crate::region::serialize_at;
use fields::Width;
use fields::convert::undefined_address;
use fractal_heap::{FractalHeapHeader, WrittenHeader};
use heap_kept::object_bytes::fetch_at;
use plan::ManagedPlan;
use reading::DoublingTable;
use refusals::FormatError;
use region_blocks::Site;
use table::block_sizes::max_managed_object;
use table::{MAX_DIRECT_BLOCK_SIZE, MAX_HEAP_SIZE_BITS, STARTING_BLOCK_SIZE, TABLE_WIDTH};

/// The file's Size of Lengths, in bytes: in eight every number of a header has room.
pub const LENGTH_SIZE: u8 = 8;

/// The header of a plan itself, at a site, with so many objects and nothing else.
pub fn planned_header(site: Site, plan: ManagedPlan, objects: u64) -> FractalHeapHeader
    requires width { legal site.offset_size ≡ true }
    requires root_fits { site.region_address + plan.root_place < 2 ^ 64 }
    requires rows_fit { plan.root_rows < 2 ^ 16 }
    ensures { result ≡ planned_header site plan objects }
{
    let undefined = undefined_address(Width::new(site.offset_size).unwrap());
    FractalHeapHeader {
        heap_id_length: 8,
        io_filter_encoded_length: 0,
        flags: 2, // the direct blocks have checksums
        max_managed_object_size: max_managed_object(site.offset_size) as u32,
        next_huge_object_id: 0,
        btree_huge_objects_address: undefined,
        free_space_managed_blocks: plan.free_space,
        managed_block_free_space_manager_address: undefined,
        managed_space_in_heap: plan.managed_space,
        allocated_managed_space_in_heap: plan.allocated_space,
        direct_block_allocation_iterator_offset: plan.allocation_iterator,
        managed_objects_count: objects,
        huge_objects_size: 0,
        huge_objects_count: 0,
        tiny_objects_size: 0,
        tiny_objects_count: 0,
        table: DoublingTable {
            table_width: TABLE_WIDTH as u16,
            starting_block_size: STARTING_BLOCK_SIZE,
            max_direct_block_size: MAX_DIRECT_BLOCK_SIZE,
            max_heap_size: MAX_HEAP_SIZE_BITS as u16,
        },
        start_root_rows: 1, // no reader heeds it
        root_block_address: site.region_address + plan.root_place,
        current_rows_in_root_indirect_block: plan.root_rows as u16,
        io_filter_information_position: 0,
        filtered_root_direct_block_size: 0,
        io_filter_mask: 0,
    }
}

// Writes a header into the file at its address.
fn write_header_at(
    header: FractalHeapHeader,
    site: Site,
    file: &mut [u8],
) -> Result<WrittenHeader, FormatError>
    requires { site.heap_header_address ≤ length file.old }
    ensures answered { result ≡ header_written header site.offset_size LENGTH_SIZE
        (length (drop site.heap_header_address file.old)) }
    ensures written { OnOk result (file.new ≡ put file.old site.heap_header_address
        (header_spelled header site.offset_size LENGTH_SIZE)) }
{
    header.write(
        site.offset_size,
        LENGTH_SIZE,
        &mut file[site.heap_header_address as usize..],
    )
}

/// Writes the region of the objects and the header of their plan into `file`, and fetches the `i`-th object from the
/// file, by the header's address and the ID that it was given when there were the first `early` objects alone. The
/// answer is the number of its bytes. Only the writer of the region refuses, and then all that is lent stays as it is:
/// what was written is found, with all its bytes.
pub fn write_and_fetch_at(
    sizes: &[u64],
    objects: &[u8],
    site: Site,
    offsets: &mut [u64],
    blocks: &mut [u64],
    file: &mut [u8],
    early: usize,
    i: usize,
    found: &mut [u8],
) -> Result<usize, FormatError>
    requires among_early { i < early }
    requires early_in_list { early ≤ length sizes.now }
    requires not_empty { 0 < slice_index sizes.now i }
    requires room { slice_index sizes.now i ≤ length found.old }
    requires header_in_file { site.heap_header_address + header_length site.offset_size LENGTH_SIZE
        ≤ length file.old }
    requires header_before { site.heap_header_address + header_length site.offset_size LENGTH_SIZE
        ≤ site.region_address }
    ensures answer { result ≡ came_back
        (serialized_in site sizes.now offsets.old blocks.old objects.now file.old)
        (slice_index sizes.now i) }
    ensures comes_back { OnOk result (found.new
        ≡ part_of sizes.now objects.now i ++ drop (slice_index sizes.now i) found.old) }
    ensures both_in_file { IfOk
        (serialized_in site sizes.now offsets.old blocks.old objects.now file.old)
        (λ plan. file.new ≡ file_with_both site plan sizes.now objects.now file.old) }
    ensures lists { OnOk result (ListsHavePlan site.offset_size sizes.now
        offsets.old offsets.new blocks.old blocks.new) }
    ensures untouched { OnErr result ((offsets.new ≡ offsets.old) × (blocks.new ≡ blocks.old)
        × (file.new ≡ file.old) × (found.new ≡ found.old)) }
{
    let plan = serialize_at(sizes, objects, site, offsets, blocks, file)?;
    let header = planned_header(site, plan, sizes.len() as u64);
    write_header_at(header, site, file)?;
    let id = early_id(&sizes[..early], i, site.offset_size, offsets, blocks)?;
    let at = site.heap_header_address as usize;
    fetch_at(
        file,
        at,
        site.offset_size,
        LENGTH_SIZE,
        site.heap_header_address,
        &id,
        found,
    )
}
