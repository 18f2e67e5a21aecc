//! A region written into a part of a file: the part from the region's address on is lent to the writer.
ghost use Rattle.std.specs.Prelude.{◌≡◌, IfOk, OnOk, OnErr};
ghost use Rattle.round_trip.specs.InFile.{serialized_in, file_with, ListsHavePlan};

use fractal_heap_write::serialize;
use plan::ManagedPlan;
use refusals::FormatError;
use region_blocks::Site;

/// Writes the region of the objects into `file` from the region's address on, as `serialize` does. A refusal leaves all
/// that is lent as it was.
#[tactic(auto, unfolding(crate::specs::InFile::serialized_in))]
pub fn serialize_at(
    sizes: &[u64],
    objects: &[u8],
    site: Site,
    offsets: &mut [u64],
    blocks: &mut [u64],
    file: &mut [u8],
) -> Result<ManagedPlan, FormatError>
    ensures answer { result
        ≡ serialized_in site sizes.now offsets.old blocks.old objects.now file.old }
    ensures region_in_file { IfOk result
        (λ plan. file.new ≡ file_with site plan sizes.now objects.now file.old) }
    ensures lists { OnOk result (ListsHavePlan site.offset_size sizes.now
        offsets.old offsets.new blocks.old blocks.new) }
    ensures untouched { OnErr result ((offsets.new ≡ offsets.old) × (blocks.new ≡ blocks.old)
        × (file.new ≡ file.old)) }
{
    // at the file's end where the address lies past it
    let start = (site.region_address as usize).min(file.len());
    serialize(sizes, objects, site, offsets, blocks, &mut file[start..])
}
