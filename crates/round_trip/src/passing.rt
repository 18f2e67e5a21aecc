//! Written, then anything may happen to the file, then read: what is read is what the file has then. As long as a
//! contract speaks of a file that was just written, the bytes of the objects and of the file are equal, and a body that
//! copies the objects, or only counts them, would meet it.
ghost use Rattle.std.specs.Prelude.{◌≡◌, ℕ, ◌<◌, ◌≤◌, ◌++◌, List, length, take, drop, slice_index};
ghost use Rattle.std.specs.Prelude.{IfOk, OnOk, OnErr};
ghost use Rattle.region_write.specs.Region.{region};
ghost use Rattle.heap_kept.specs.HeapKept.{part_of};
ghost use Rattle.heap_kept.specs.Kept.{IsFetched};
ghost use Rattle.round_trip.specs.InFile.{serialized_in, file_with, ListsHavePlan};
ghost use Rattle.round_trip.specs.Passed.{object_in, fetched_in, counted_in};

use crate::by_id::{early_id, root_header};
use crate::objects::read_back;
use crate::region::serialize_at;
use heap_kept::object_bytes::unchecked::fetch_unchecked;
use plan::ManagedPlan;
use refusals::FormatError;
use region_blocks::Site;

/// What becomes of a file between writing and reading: it has as many bytes as before, and they may be any.
pub trait Passing {
    // The file afterwards.
    ghost passed: { List ℕ → List ℕ };

    fn pass(file: &mut [u8])
        ensures { file.new ≡ passed file.old };
}

/// The passing by which nothing happens to the file: for callers that read at once what they wrote.
pub struct Untouched;

impl Passing for Untouched {
    ghost passed = { λ file. file };

    fn pass(_file: &mut [u8]) {}
}

// Writes the region of the objects into `file`, and lets the file pass.
fn serialize_and_pass<P: Passing>(
    sizes: &[u64],
    objects: &[u8],
    site: Site,
    offsets: &mut [u64],
    blocks: &mut [u64],
    file: &mut [u8],
) -> Result<ManagedPlan, FormatError>
    ensures answer { result
        ≡ serialized_in site sizes.now offsets.old blocks.old objects.now file.old }
    ensures passed { IfOk result
        (λ plan. file.new ≡ P.passed (file_with site plan sizes.now objects.now file.old)) }
    ensures lists { OnOk result (ListsHavePlan site.offset_size sizes.now
        offsets.old offsets.new blocks.old blocks.new) }
    ensures untouched { OnErr result ((offsets.new ≡ offsets.old) × (blocks.new ≡ blocks.old)
        × (file.new ≡ file.old)) }
{
    let plan = serialize_at(sizes, objects, site, offsets, blocks, file)?;
    P::pass(file);
    Ok(plan)
}

/// Writes the region of the objects into `file`, lets the file pass, and fetches the `i`-th object from what the file
/// has then, by the ID that it was given when there were the first `early` objects alone. Where the writer refuses all
/// that is lent stays as it is.
pub fn fetch_after<P: Passing>(
    sizes: &[u64],
    objects: &[u8],
    site: Site,
    offsets: &mut [u64],
    blocks: &mut [u64],
    file: &mut [u8],
    early: usize,
    i: usize,
    found: &mut [u8],
) -> Result<usize, FormatError>
    requires among_early { i < early }
    requires early_in_list { early ≤ length sizes.now }
    requires not_empty { 0 < slice_index sizes.now i }

    ensures answer { result
        ≡ fetched_in (serialized_in site sizes.now offsets.old blocks.old objects.now file.old)
        site sizes.now early i file.new (length found.old) }

    // What the file has at the object's place, and where that is still the region, the object.
    ensures copied { IfOk (serialized_in site sizes.now offsets.old blocks.old objects.now file.old)
        (λ plan. IfOk (object_in site plan sizes.now early i file.new)
        (λ place. OnOk result (found.new
        ≡ take place.length (drop place.position file.new) ++ drop place.length found.old))) }
    ensures kept { IfOk (serialized_in site sizes.now offsets.old blocks.old objects.now file.old)
        (λ plan. take plan.region_size (drop site.region_address file.new)
        ≡ region site plan.root_rows sizes.now objects.now
        → slice_index sizes.now i ≤ length found.old
        → IsFetched result found.old found.new (part_of sizes.now objects.now i)) }
    ensures not_found { OnErr result (found.new ≡ found.old) }

    ensures passed { IfOk (serialized_in site sizes.now offsets.old blocks.old objects.now file.old)
        (λ plan. file.new ≡ P.passed (file_with site plan sizes.now objects.now file.old)) }
    ensures lists { OnOk (serialized_in site sizes.now offsets.old blocks.old objects.now file.old)
        (ListsHavePlan site.offset_size sizes.now offsets.old offsets.new blocks.old blocks.new) }
    ensures untouched { OnErr
        (serialized_in site sizes.now offsets.old blocks.old objects.now file.old)
        ((offsets.new ≡ offsets.old) × (blocks.new ≡ blocks.old) × (file.new ≡ file.old)) }
{
    let plan = serialize_and_pass::<P>(sizes, objects, site, offsets, blocks, file)?;
    // The early objects are planned alone, as when there were no others. Their plan goes over the front of the whole's
    // in the lists, where it is the same.
    let id = early_id(&sizes[..early], i, site.offset_size, offsets, blocks)?;
    fetch_unchecked(&root_header(site, plan), file, &id, site.offset_size, found)
}

/// Writes the region of the objects into `file`, lets the file pass, and counts the nonempty objects that come back
/// from what the file has then. Where the writer refuses all that is lent stays as it is.
pub fn count_after<P: Passing>(
    sizes: &[u64],
    objects: &[u8],
    site: Site,
    offsets: &mut [u64],
    blocks: &mut [u64],
    file: &mut [u8],
) -> Result<u64, FormatError>
    ensures answer { result
        ≡ counted_in (serialized_in site sizes.now offsets.old blocks.old objects.now file.old)
        site sizes.now offsets.new objects.now file.new }

    ensures passed { IfOk (serialized_in site sizes.now offsets.old blocks.old objects.now file.old)
        (λ plan. file.new ≡ P.passed (file_with site plan sizes.now objects.now file.old)) }
    ensures lists { OnOk result (ListsHavePlan site.offset_size sizes.now
        offsets.old offsets.new blocks.old blocks.new) }
    ensures untouched { OnErr result ((offsets.new ≡ offsets.old) × (blocks.new ≡ blocks.old)
        × (file.new ≡ file.old)) }
{
    let plan = serialize_and_pass::<P>(sizes, objects, site, offsets, blocks, file)?;
    let header = root_header(site, plan);
    Ok(read_back(file, &header, sizes, offsets, objects, site.offset_size))
}
