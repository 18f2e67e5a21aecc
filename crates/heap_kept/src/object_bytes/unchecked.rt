//! The same without a test of the blocks on the way, as the original reads: for a file that is damaged, and whose
//! objects are wanted all the same.
ghost use Rattle.std.specs.Prelude.{◌≡◌, ◌+◌, ◌≤◌, ◌++◌, length, take, drop, Ok, IfOk, OnOk, OnErr};
ghost use Rattle.fields.specs.declared.place.Place.{Place};
ghost use Rattle.fractal_heap.specs.Read.{managed_unchecked, unchecked_by};
ghost use Rattle.heap_kept.specs.FromBytes.{ForWrittenUnchecked};
ghost use Rattle.heap_kept.specs.Kept.{ForKeptUnchecked, IsFetched, fetched};

use super::copy_object;
use fractal_heap::FractalHeapHeader;
use refusals::FormatError;

/// Copies the bytes of the managed object that an ID names into the front of `found`, and answers how many they are.
/// Refused as `read_managed_object_unchecked` refuses, and by 13 where they have no room; then `found` stays as it is.
///
/// Of a heap that our writer wrote, and by an ID that it gave, early or at the end, these are the object's bytes if the
/// object is no longer than the header's largest managed object. What was written is not at hand where something is
/// read, so the clause `kept` says so for every heap of ours that the file may hold, and for every such object of which
/// this is the ID.
pub fn fetch_unchecked(
    header: &FractalHeapHeader,
    file: &[u8],
    id: &[u8],
    offset_size: u8,
    found: &mut [u8],
) -> Result<usize, FormatError>
    ensures kept { ForKeptUnchecked header.now file.now offset_size id.now
        (λ bytes. length bytes ≤ length found.old → IsFetched result found.old found.new bytes) }

    ensures in_file { IfOk (managed_unchecked header.now file.now id.now offset_size)
        (λ place. place.position + place.length ≤ length file.now) }
    ensures answer { result
        ≡ fetched (managed_unchecked header.now file.now id.now offset_size) (length found.old) }
    ensures copied { (place : Place) → managed_unchecked header.now file.now id.now offset_size ≡ Ok place
        → OnOk result (found.new ≡ take place.length (drop place.position file.now)
        ++ drop place.length found.old) }
    ensures untouched { OnErr result (found.new ≡ found.old) }
{
    let place = header.read_managed_object_unchecked(file, id, offset_size)?;
    copy_object(place, file, found)
}

/// The same by the header at `at` of the file, whose addresses have `offset_size` bytes and whose lengths
/// `length_size`: it is parsed, and refused as `parse` refuses. What `fetch_unchecked` answers follows.
///
/// Of a file that holds a header and a region of ours, as they were written, and by an ID that was given, early or at
/// the end, these are the object's bytes if the object is no longer than the header's largest managed object: nothing
/// else of the heap is at hand, neither its header's fields nor its objects.
pub fn fetch_at_unchecked(
    file: &[u8],
    at: usize,
    offset_size: u8,
    length_size: u8,
    id: &[u8],
    found: &mut [u8],
) -> Result<usize, FormatError>
    ensures kept { ForWrittenUnchecked file.now at offset_size length_size id.now
        (λ bytes. length bytes ≤ length found.old → IsFetched result found.old found.new bytes) }

    ensures in_file { IfOk (unchecked_by file.now at offset_size length_size id.now offset_size)
        (λ place. place.position + place.length ≤ length file.now) }
    ensures answer { result
        ≡ fetched (unchecked_by file.now at offset_size length_size id.now offset_size) (length found.old) }
    ensures copied { (place : Place)
        → unchecked_by file.now at offset_size length_size id.now offset_size ≡ Ok place
        → OnOk result (found.new ≡ take place.length (drop place.position file.now)
        ++ drop place.length found.old) }
    ensures untouched { OnErr result (found.new ≡ found.old) }
{
    let header = FractalHeapHeader::parse(file, at, offset_size, length_size)?;
    fetch_unchecked(&header, file, id, offset_size, found)
}
