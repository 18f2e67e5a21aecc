//! The writer's answer: planning's, then that of the tests between planning and writing. Nothing is
//! written here.
ghost use Rattle.std.specs.Prelude.{◌≡◌, ◌+◌, ◌≤◌, ◌^◌, ◌<◌, OnOk, IfOk};
ghost use Rattle.fields.specs.Undefined.{undefined_address};
ghost use Rattle.fields.specs.Widths.{byte_count};
ghost use Rattle.numbers.specs.Sums.{sum};
ghost use Rattle.fractal_heap_write.specs.Answer.{Accepted, serialized_for};
ghost use Rattle.fractal_heap_write.specs.Checks.{bytes_checked, header_address_checked};
ghost use Rattle.fractal_heap_write.specs.Checks.{region_address_checked};

use fields::convert::undefined_address;
use fields::{Width, has_room, offset_width};
use plan::checks::check_places;
use plan::{ManagedPlan, planned_for};
use refusals::FormatError;
use region_blocks::Site;

/// How much the writer is lent: the places of both lists, the bytes of the objects, the bytes for
/// the region.
#[derive(Clone, Copy, Debug, PartialEq, Eq)]
pub struct Lent {
    pub offset_places: usize,
    pub block_places: usize,
    pub object_bytes: usize,
    pub region_bytes: usize,
}

// The sum of sizes that a plan holds; so it does not wrap.
#[tactic(auto, using(crate::proofs::Summing::sum_std))]
fn sum_sizes(sizes: &[u64]) -> u64
    requires { sum sizes.now < 2 ^ 64 }
    ensures { result ≡ sum sizes.now }
{
    sizes.iter().copied().sum()
}

// Tests that as many bytes of objects are given as their sizes need: else 14.
fn check_bytes(needed: u64, given: u64) -> Result<(), FormatError>
    ensures tested { result ≡ bytes_checked needed given }
    ensures all_given { OnOk result (needed ≡ given) }
{
    if needed != given {
        return Err(FormatError::ObjectBytesMismatch { sum: needed, given });
    }
    Ok(())
}

// Tests that the heap's header stands below the undefined address: else 15.
fn check_header_address(address: u64, width: Width) -> Result<(), FormatError>
    ensures tested { result ≡ header_address_checked (byte_count width) address }
    ensures defined { OnOk result (address < undefined_address (byte_count width)) }
{
    if address >= undefined_address(width) {
        return Err(FormatError::HeaderAddressTooLarge(address));
    }
    Ok(())
}

// Tests that a region of `size` bytes ends at or before the undefined address: else 15. No sum is
// formed that could wrap.
fn check_region_address(address: u64, size: u64, width: Width) -> Result<(), FormatError>
    ensures tested { result ≡ region_address_checked (byte_count width) address size }
    ensures end_defined { OnOk result (address + size ≤ undefined_address (byte_count width)) }
{
    let undefined = undefined_address(width);
    if !has_room(undefined as usize, address as usize, size as usize) {
        return Err(FormatError::RegionAddressTooLarge { address, size });
    }
    Ok(())
}

/// The plan of objects of these sizes, if all tests pass for what is lent and the site of the
/// region: first those of planning (2, 13 for the offsets, 13 for the blocks, 11, 12), then 14, 13
/// for the region, 15 for the header, 15 for the region.
#[tactic(auto, using(crate::proofs::Answering::planning))]
pub fn serialized_for(sizes: &[u64], lent: Lent, site: Site) -> Result<ManagedPlan, FormatError>
    ensures answer { result ≡ serialized_for sizes.now lent site }
    ensures accepted { IfOk result (λ plan. Accepted sizes.now lent site plan) }
{
    let width = offset_width(site.offset_size)?;
    let plan = planned_for(sizes, lent.offset_places, lent.block_places, width)?;
    check_bytes(sum_sizes(sizes), lent.object_bytes as u64)?;
    check_places(plan.region_size as usize, lent.region_bytes)?;
    check_header_address(site.heap_header_address, width)?;
    check_region_address(site.region_address, plan.region_size, width)?;
    Ok(plan)
}
