//! Planning, writing a region and writing a managed ID. A refusal changes nothing but the list or the slot that takes
//! its two values.
ghost use Rattle.std.specs.Prelude.{◌≡◌, ◌<◌, ◌≤◌, Ok, IfOk, length};
ghost use Rattle.fields.specs.LittleEndian.{put};
ghost use Rattle.fields.specs.Slot.{slot_number, slot_bytes};
ghost use Rattle.table.specs.Table.{fixed};
ghost use Rattle.planner.specs.Steps.{plan_offsets, plan_starts};
ghost use Rattle.plan.specs.Plans.{PlanKept, RootFits, Tallied};
ghost use Rattle.plan.specs.Report.{plan_number, plan_totals};
ghost use Rattle.region_blocks.specs.Site.{site_of};
ghost use Rattle.region_write.specs.Region.{region as region_of};
ghost use Rattle.ids.specs.Checks.{written_id_report};
ghost use Rattle.ids.specs.Written.{managed_id, IdReadsBack};
ghost use Rattle.tools_c.specs.WriteTools.{plan_answer, write_answer};

use fields::slot::{SLOT_SIZE, put_answer};
use fractal_heap_write::serialize;
use ids::write_managed_id;
use plan::ManagedPlan;
use plan::report::put_planned;
use refusals::{Reported, SLICE_TOO_SHORT};
use region_blocks::Site;

/// Plans, and puts the plan's eight numbers, or a refusal's two values, into the first places of `totals`; a list
/// shorter than 8 places gives 13 before all else.
#[unsafe(no_mangle)]
pub extern "C" fn tools_plan(
    sizes: &[u64],
    offsets: &mut [u64],
    blocks: &mut [u64],
    offset_size: u8,
    totals: &mut [u64],
) -> u32
    ensures number { result
        ≡ plan_number totals.old (plan_answer sizes.now offsets.old blocks.old offset_size) }
    ensures totals_after { totals.new
        ≡ plan_totals totals.old (plan_answer sizes.now offsets.old blocks.old offset_size) }
    ensures offsets_listed { result ≡ 0 → offsets.new
        ≡ put offsets.old 0 (plan_offsets fixed offset_size sizes.now) }
    ensures blocks_listed { result ≡ 0 → blocks.new
        ≡ put blocks.old 0 (plan_starts fixed offset_size sizes.now) }
    ensures kept { result ≡ 0 → IfOk (plan_answer sizes.now offsets.old blocks.old offset_size)
        (λ plan. PlanKept sizes.now offset_size plan) }
    ensures root { result ≡ 0 → IfOk (plan_answer sizes.now offsets.old blocks.old offset_size)
        (λ plan. RootFits sizes.now offset_size plan) }
    ensures tallied { result ≡ 0 → IfOk (plan_answer sizes.now offsets.old blocks.old offset_size)
        (λ plan. Tallied sizes.now offset_size plan) }
    ensures untouched { 0 < result → (offsets.new ≡ offsets.old) × (blocks.new ≡ blocks.old) }
{
    if totals.len() < 8 {
        return SLICE_TOO_SHORT;
    }
    let planned = ManagedPlan::new(sizes, offsets, blocks, offset_size);
    put_planned(totals, planned)
}

/// Plans and writes, and puts the plan's eight numbers, or a refusal's two values, into the first places of `totals`; a
/// list shorter than 8 places gives 13 before all else.
#[unsafe(no_mangle)]
pub extern "C" fn tools_serialize(
    sizes: &[u64],
    offsets: &mut [u64],
    blocks: &mut [u64],
    objects: &[u8],
    region: &mut [u8],
    region_address: u64,
    heap_header_address: u64,
    offset_size: u8,
    totals: &mut [u64],
) -> u32
    ensures number { result ≡ plan_number totals.old
        (write_answer sizes.now objects.now offsets.old blocks.old region.old
        (site_of offset_size heap_header_address region_address)) }
    ensures totals_after { totals.new ≡ plan_totals totals.old
        (write_answer sizes.now objects.now offsets.old blocks.old region.old
        (site_of offset_size heap_header_address region_address)) }
    ensures offsets_listed { result ≡ 0 → offsets.new
        ≡ put offsets.old 0 (plan_offsets fixed offset_size sizes.now) }
    ensures blocks_listed { result ≡ 0 → blocks.new
        ≡ put blocks.old 0 (plan_starts fixed offset_size sizes.now) }
    ensures written { result ≡ 0 → IfOk
        (write_answer sizes.now objects.now offsets.old blocks.old region.old
        (site_of offset_size heap_header_address region_address))
        (λ plan. region.new ≡ put region.old 0
        (region_of (site_of offset_size heap_header_address region_address) plan.root_rows sizes.now
        objects.now)) }
    ensures kept { result ≡ 0 → IfOk
        (write_answer sizes.now objects.now offsets.old blocks.old region.old
        (site_of offset_size heap_header_address region_address))
        (λ plan. PlanKept sizes.now offset_size plan) }
    ensures root { result ≡ 0 → IfOk
        (write_answer sizes.now objects.now offsets.old blocks.old region.old
        (site_of offset_size heap_header_address region_address))
        (λ plan. RootFits sizes.now offset_size plan) }
    ensures tallied { result ≡ 0 → IfOk
        (write_answer sizes.now objects.now offsets.old blocks.old region.old
        (site_of offset_size heap_header_address region_address))
        (λ plan. Tallied sizes.now offset_size plan) }
    ensures untouched { 0 < result
        → (offsets.new ≡ offsets.old) × (blocks.new ≡ blocks.old) × (region.new ≡ region.old) }
{
    if totals.len() < 8 {
        return SLICE_TOO_SHORT;
    }
    let site = Site {
        offset_size,
        heap_header_address,
        region_address,
    };
    let written = serialize(sizes, objects, site, offsets, blocks, region);
    put_planned(totals, written)
}

/// Writes a managed ID, and puts a refusal's two values, or two zeros, into the first 16 bytes of `slot`; a shorter
/// slot gives 13 before all else.
#[unsafe(no_mangle)]
pub extern "C" fn tools_write_managed_id(
    offset: u64,
    size: u64,
    id: &mut [u8],
    slot: &mut [u8],
) -> u32
    ensures number { result ≡ slot_number slot.old (written_id_report offset size (length id.old)) }
    ensures slot_after { slot.new ≡ slot_bytes slot.old (written_id_report offset size (length id.old)) }
    ensures written { result ≡ 0 → id.new ≡ put id.old 0 (managed_id fixed offset size) }
    ensures reads_back { result ≡ 0 → IdReadsBack offset size }
    ensures untouched { 0 < result → id.new ≡ id.old }
{
    if slot.len() < SLOT_SIZE {
        return SLICE_TOO_SHORT;
    }
    let written = write_managed_id(offset, size, id);
    put_answer(slot, written.answer())
}
