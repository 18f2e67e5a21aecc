//! Writing the managed blocks of a fractal heap: `serialize` plans anew and writes the region of
//! the plan.
#![tactic(auto)]

pub mod checks;

ghost use Rattle.std.specs.Prelude.{◌≡◌, IfOk, OnOk, OnErr};
ghost use Rattle.fields.specs.LittleEndian.{put};
ghost use Rattle.table.specs.Table.{fixed};
ghost use Rattle.planner.specs.Steps.{plan_offsets, plan_starts};
ghost use Rattle.region_write.specs.Region.{region as region_of};
ghost use Rattle.plan.specs.Plans.{PlanKept, RootFits, Tallied};
ghost use Rattle.fractal_heap_write.specs.Answer.{serialized_for};
ghost use Rattle.fractal_heap_write.specs.Serialize.{lent_for};

use crate::checks::{Lent, serialized_for};
use plan::{ManagedPlan, write_lists};
use refusals::FormatError;
use region_blocks::Site;
use region_write::write_region;

/// Plans anew, and writes the region of the plan into the front of `region`; the objects' heap
/// offsets and the blocks' starts go into the front of the lent lists. `objects` are the objects'
/// bytes, joined in the order of their sizes. What is refused is refused by planning's tests (2,
/// 13, 13, 11, 12), then for the bytes of the objects (14), the room for the region (13) and the
/// two addresses of the site (15, 15); then nothing that is lent has changed. What is accepted
/// keeps its objects apart, so that each comes back.
// In the original a method of a plan that is kept. Here a plan lies in the lent lists, and is made
// anew: one pass over the sizes gives the answer, one the lists, one the direct blocks.
pub fn serialize(
    sizes: &[u64],
    objects: &[u8],
    site: Site,
    offsets: &mut [u64],
    blocks: &mut [u64],
    region: &mut [u8],
) -> Result<ManagedPlan, FormatError>
    ensures answer { result ≡ serialized_for sizes.now
        (lent_for offsets.old blocks.old objects.now region.old) site }
    ensures written { IfOk result (λ plan. region.new
        ≡ put region.old 0 (region_of site plan.root_rows sizes.now objects.now)) }
    ensures offsets_listed { OnOk result (offsets.new
        ≡ put offsets.old 0 (plan_offsets fixed site.offset_size sizes.now)) }
    ensures blocks_listed { OnOk result (blocks.new
        ≡ put blocks.old 0 (plan_starts fixed site.offset_size sizes.now)) }
    ensures kept { IfOk result (λ plan. PlanKept sizes.now site.offset_size plan) }
    ensures root { IfOk result (λ plan. RootFits sizes.now site.offset_size plan) }
    ensures tallied { IfOk result (λ plan. Tallied sizes.now site.offset_size plan) }
    ensures untouched { OnErr result
        ((offsets.new ≡ offsets.old) × (blocks.new ≡ blocks.old) × (region.new ≡ region.old)) }
{
    let lent = Lent {
        offset_places: offsets.len(),
        block_places: blocks.len(),
        object_bytes: objects.len(),
        region_bytes: region.len(),
    };
    let plan = serialized_for(sizes, lent, site)?;
    write_lists(sizes, offsets, blocks, site.offset_size);
    write_region(
        sizes,
        &blocks[..plan.block_count as usize],
        objects,
        &mut region[..plan.region_size as usize],
        site,
        plan.root_rows,
        plan.region_size - plan.allocated_space,
    );
    Ok(plan)
}
