//! The whole way of a list of objects: its region is written into a part of a file, every nonempty object gets its ID
//! and is read by it. `passing` lets anything happen to the file between writing and reading, so that what is read
//! has to come from the file. Where nothing happens to it, `round_trip` counts all objects, and `write_and_fetch`
//! hands out one whose bytes are the object's. `from_bytes` writes the header into the file, too, and fetches by its
//! place.
#![tactic(auto)]

pub mod by_id;
pub mod from_bytes;
pub mod objects;
pub mod passing;
pub mod region;

ghost use Rattle.std.specs.Prelude.{◌≡◌, ◌<◌, ◌≤◌, ◌++◌, length, drop, slice_index, IfOk, OnOk, OnErr};
ghost use Rattle.heap_kept.specs.HeapKept.{part_of};
ghost use Rattle.round_trip.specs.InFile.{serialized_in, file_with, ListsHavePlan};
ghost use Rattle.round_trip.specs.RoundTrip.{nonempty_count, came_back};

use crate::passing::{Untouched, count_after, fetch_after};
use refusals::FormatError;
use region_blocks::Site;

/// Writes the region of the objects into `file` from the region's address on, and then reads all nonempty objects back:
/// how many came back, which are all of them. Refused as `serialize` refuses; then all that is lent stays as it is.
pub fn round_trip(
    sizes: &[u64],
    objects: &[u8],
    site: Site,
    offsets: &mut [u64],
    blocks: &mut [u64],
    file: &mut [u8],
) -> Result<u64, FormatError>
    ensures answer { result ≡ came_back
        (serialized_in site sizes.now offsets.old blocks.old objects.now file.old)
        (nonempty_count sizes.now) }
    ensures region_in_file { IfOk
        (serialized_in site sizes.now offsets.old blocks.old objects.now file.old)
        (λ plan. file.new ≡ file_with site plan sizes.now objects.now file.old) }
    ensures lists { OnOk result (ListsHavePlan site.offset_size sizes.now
        offsets.old offsets.new blocks.old blocks.new) }
    ensures untouched { OnErr result ((offsets.new ≡ offsets.old) × (blocks.new ≡ blocks.old)
        × (file.new ≡ file.old)) }
{
    count_after::<Untouched>(sizes, objects, site, offsets, blocks, file)
}

/// Writes the region of the objects into `file`, and fetches the `i`-th object from the file, by the ID that it was
/// given when there were the first `early` objects alone. The answer is the number of its bytes. Only the writer
/// refuses, and then all that is lent stays as it is: what it has written is found, with all its bytes.
pub fn write_and_fetch(
    sizes: &[u64],
    objects: &[u8],
    site: Site,
    offsets: &mut [u64],
    blocks: &mut [u64],
    file: &mut [u8],
    early: usize,
    i: usize,
    found: &mut [u8],
) -> Result<usize, FormatError>
    requires among_early { i < early }
    requires early_in_list { early ≤ length sizes.now }
    requires not_empty { 0 < slice_index sizes.now i }
    requires room { slice_index sizes.now i ≤ length found.old }
    ensures answer { result ≡ came_back
        (serialized_in site sizes.now offsets.old blocks.old objects.now file.old)
        (slice_index sizes.now i) }
    ensures comes_back { OnOk result (found.new
        ≡ part_of sizes.now objects.now i ++ drop (slice_index sizes.now i) found.old) }
    ensures region_in_file { IfOk
        (serialized_in site sizes.now offsets.old blocks.old objects.now file.old)
        (λ plan. file.new ≡ file_with site plan sizes.now objects.now file.old) }
    ensures lists { OnOk result (ListsHavePlan site.offset_size sizes.now
        offsets.old offsets.new blocks.old blocks.new) }
    ensures untouched { OnErr result ((offsets.new ≡ offsets.old) × (blocks.new ≡ blocks.old)
        × (file.new ≡ file.old) × (found.new ≡ found.old)) }
{
    fetch_after::<Untouched>(sizes, objects, site, offsets, blocks, file, early, i, found)
}
