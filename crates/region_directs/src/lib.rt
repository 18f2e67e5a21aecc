//! The direct blocks of a region, in heap order.
#![tactic(auto)]

ghost use Rattle.std.specs.Prelude.{◌≡◌, ◌+◌, ◌≤◌, length};
ghost use Rattle.fields.specs.LittleEndian.{put};
ghost use Rattle.table.specs.Table.{fixed};
ghost use Rattle.table.specs.Sizes.{max_managed, direct_header};
ghost use Rattle.region_blocks.specs.Blocks.{direct_block};
ghost use Rattle.numbers.specs.Sums.{sum};
ghost use Rattle.planner.specs.Requires.{Small, Runs};
ghost use Rattle.region_directs.specs.Directs.{directs_of, opened_of};

use planner::{Counted, Planner};
use region_blocks::Site;
use region_blocks::direct::write_direct_block;
use table::STARTING_BLOCK_SIZE;

// A direct block of `size` bytes at a place of the region.
#[tactic(auto, using(region_blocks::proofs::Parts::direct_put))]
fn write_at(region: &mut [u8], at: usize, offset: u64, size: usize, objects: &[u8], site: Site)
    requires narrow { site.offset_size ≤ 8 }
    requires block_in_region { at + size ≤ length region.old }
    requires objects_fit { direct_header fixed site.offset_size + length objects.now ≤ size }
    ensures { region.new ≡ put region.old at
        (direct_block fixed site.offset_size site.heap_header_address offset size objects.now) }
{
    write_direct_block(&mut region[at..at + size], offset, objects, site);
}

// The blocks of a list with objects: each object that finds no room opens a block, and those after
// it that fit go there too. They are taken at once, so that each block is one copy, one fill and
// one checksum. What the state has allocated and used says where a block and its objects stand.
fn write_placed(sizes: &[u64], objects: &[u8], region: &mut [u8], place: usize, site: Site)
    requires narrow { site.offset_size ≤ 8 }
    requires small { Small (max_managed fixed site.offset_size) sizes.now }
    requires runs { Runs site.offset_size sizes.now }
    requires objects_joined { length objects.now ≡ sum sizes.now }
    requires blocks_in_region { place + length
        (opened_of site sizes.now objects.now) ≤ length region.old }
    ensures { region.new ≡ put region.old place (opened_of site sizes.now objects.now) }
{
    let mut planner = Planner::new(site.offset_size);
    let mut next: usize = 0;
    while next < sizes.len() {
        let at = place + planner.state.allocated as usize;
        let from = planner.state.used as usize;
        let Some(_) = planner.open(sizes[next]) else {
            return;
        };
        next = planner.fill::<Counted>(sizes, next + 1, &mut []);
        let end = planner.state.used as usize;
        write_at(
            region,
            at,
            planner.state.start,
            planner.state.size as usize,
            &objects[from..end],
            site,
        );
    }
}

/// Writes the direct blocks of a plan of these sizes from `place` on; without objects there is one,
/// at the heap offset 0. An empty object has an offset in its block, and no byte there.
#[tactic(auto, using(crate::proofs::Lengths::one_or_all))]
pub fn write_directs(sizes: &[u64], objects: &[u8], region: &mut [u8], place: usize, site: Site)
    requires narrow { site.offset_size ≤ 8 }
    requires small { Small (max_managed fixed site.offset_size) sizes.now }
    requires runs { Runs site.offset_size sizes.now }
    requires objects_joined { length objects.now ≡ sum sizes.now }
    requires blocks_in_region { place + length
        (directs_of site sizes.now objects.now) ≤ length region.old }
    ensures { region.new ≡ put region.old place (directs_of site sizes.now objects.now) }
{
    if sizes.len() == 0 {
        write_at(
            region,
            place,
            0,
            STARTING_BLOCK_SIZE as usize,
            objects,
            site,
        );
        return;
    }
    write_placed(sizes, objects, region, place, site);
}
