//! The ID of an object of a list, and the object read by it.
ghost use Rattle.std.specs.Prelude.{◌≡◌, ◌+◌, ◌^◌, ◌<◌, ◌≤◌, length, IfOk};
ghost use Rattle.table.specs.Table.{fixed};
ghost use Rattle.planner.specs.Steps.{plan_offsets, plan_starts};
ghost use Rattle.plan.specs.Answer.{planned_for, list_after};
ghost use Rattle.round_trip.specs.Objects.{fixed_header, root_header, object_at};
ghost use Rattle.round_trip.specs.Early.{early_id};

use fields::Place;
use fractal_heap::FractalHeapHeader;
use ids::write_managed_id;
use plan::ManagedPlan;
use reading::DoublingTable;
use refusals::FormatError;
use region_blocks::Site;
use table::block_sizes::max_managed_object;
use table::{MAX_DIRECT_BLOCK_SIZE, MAX_HEAP_SIZE_BITS, STARTING_BLOCK_SIZE, TABLE_WIDTH};

/// The header of a heap with the fixed geometry, for tests and as an example: a reader heeds the root, its rows, the
/// geometry, the largest managed object and the length of the filters, and not the other numbers.
pub fn fixed_header(offset_size: u8, root: u64, rows: u16) -> FractalHeapHeader
    ensures { result ≡ fixed_header offset_size root rows }
{
    FractalHeapHeader {
        heap_id_length: 4_097,
        io_filter_encoded_length: 0,
        flags: 253,
        max_managed_object_size: max_managed_object(offset_size) as u32,
        next_huge_object_id: 11_111,
        btree_huge_objects_address: 0x0123_4567_89AB_CDEF,
        free_space_managed_blocks: 22_222,
        managed_block_free_space_manager_address: 0xFEDC_BA98_7654_3210,
        managed_space_in_heap: 33_333,
        allocated_managed_space_in_heap: 44_444,
        direct_block_allocation_iterator_offset: 55_555,
        managed_objects_count: 77_777,
        huge_objects_size: 88_888,
        huge_objects_count: 99_999,
        tiny_objects_size: 111_111,
        tiny_objects_count: 222_222,
        table: DoublingTable {
            table_width: TABLE_WIDTH as u16,
            starting_block_size: STARTING_BLOCK_SIZE,
            max_direct_block_size: MAX_DIRECT_BLOCK_SIZE,
            max_heap_size: MAX_HEAP_SIZE_BITS as u16,
        },
        start_root_rows: 999,
        root_block_address: root,
        current_rows_in_root_indirect_block: rows,
        io_filter_information_position: 333_333,
        filtered_root_direct_block_size: 444_444,
        io_filter_mask: 555_555,
    }
}

/// The header of the heap of a plan.
pub fn root_header(site: Site, plan: ManagedPlan) -> FractalHeapHeader
    requires root_fits { site.region_address + plan.root_place < 2 ^ 64 }
    requires rows_fit { plan.root_rows < 2 ^ 16 }
    ensures { result ≡ root_header site plan }
{
    fixed_header(
        site.offset_size,
        site.region_address + plan.root_place,
        plan.root_rows as u16,
    )
}

/// The ID of the `i`-th object while there are these sizes and no more: from their plan alone, which goes into the
/// lists. Refused as planning refuses, and by 16 where the object has no ID.
pub fn early_id(
    sizes: &[u64],
    i: usize,
    offset_size: u8,
    offsets: &mut [u64],
    blocks: &mut [u64],
) -> Result<[u8; 8], FormatError>
    requires { i < length sizes.now }
    ensures answer { result
        ≡ early_id sizes.now i (length offsets.old) (length blocks.old) offset_size }
    ensures offsets_after { offsets.new
        ≡ list_after (planned_for sizes.now (length offsets.old) (length blocks.old) offset_size)
        (plan_offsets fixed offset_size sizes.now) offsets.old }
    ensures blocks_after { blocks.new
        ≡ list_after (planned_for sizes.now (length offsets.old) (length blocks.old) offset_size)
        (plan_starts fixed offset_size sizes.now) blocks.old }
{
    ManagedPlan::new(sizes, offsets, blocks, offset_size)?;
    let mut id = [0u8; 8];
    write_managed_id(offsets[i], sizes[i], &mut id)?;
    Ok(id)
}

/// Writes the ID of the object of `size` bytes at the heap offset `offset`, and reads by it, no block tested.
pub fn read_object(
    file: &[u8],
    header: &FractalHeapHeader,
    offset: u64,
    size: u64,
    offset_size: u8,
) -> Result<Place, FormatError>
    ensures found { result ≡ object_at header.now file.now offset_size offset size }
    ensures in_file { IfOk result (λ place. place.position + place.length ≤ length file.now) }
{
    let mut id = [0u8; 8];
    write_managed_id(offset, size, &mut id)?;
    header.read_managed_object_unchecked(file, &id, offset_size)
}
