//! The bytes of an object, by the ID that it was given: `fetch` is lent the file, a header with its address and the
//! ID, and `fetch_at` the header's place in the file for the header; neither sees what was written. Every block on
//! the way is tested, but in `unchecked`.
pub mod unchecked;

ghost use Rattle.std.specs.Prelude.{◌≡◌, ◌+◌, ◌≤◌, ◌++◌, length, take, drop, Ok, IfOk, OnOk, OnErr};
ghost use Rattle.fields.specs.declared.place.Place.{Place};
ghost use Rattle.fractal_heap.specs.Read.{managed_checked, checked_by};
ghost use Rattle.heap_kept.specs.FromBytes.{ForWrittenChecked};
ghost use Rattle.heap_kept.specs.Kept.{ForKeptChecked, IsFetched, fetched};

use fields::Place;
use fractal_heap::FractalHeapHeader;
use refusals::FormatError;

// Copies the object at a place of the file into the front of `found`, or refuses by 13.
fn copy_object(place: Place, file: &[u8], found: &mut [u8]) -> Result<usize, FormatError>
    requires { place.position + place.length ≤ length file.now }
    ensures answer { result ≡ fetched (Ok place) (length found.old) }
    ensures copied { OnOk result (found.new ≡ take place.length (drop place.position file.now)
        ++ drop place.length found.old) }
    ensures untouched { OnErr result (found.new ≡ found.old) }
{
    let start = place.position as usize;
    let count = place.length as usize;
    if found.len() < count {
        return Err(FormatError::SliceTooShort {
            needed: place.length,
            lent: found.len() as u64,
        });
    }
    found[..count].copy_from_slice(&file[start..start + count]);
    Ok(count)
}

/// Copies the bytes of the managed object that an ID names into the front of `found`, and answers how many they are.
/// Refused as `read_managed_object` refuses, which tests every block on the way, and by 13 where they have no room;
/// then `found` stays as it is.
///
/// Of a heap that our writer wrote, given the header's address that it was written with, and by an ID that it gave,
/// early or at the end, these are the object's bytes if the header's flags say that direct blocks have a checksum,
/// and the object is no longer than the header's largest managed object. What was written is not at hand where
/// something is read, so the clause `kept` says so for every heap of ours that the file may hold, and for every such
/// object of which this is the ID.
pub fn fetch(
    header: &FractalHeapHeader,
    file: &[u8],
    heap_header_address: u64,
    id: &[u8],
    offset_size: u8,
    found: &mut [u8],
) -> Result<usize, FormatError>
    ensures kept { ForKeptChecked header.now heap_header_address file.now offset_size id.now
        (λ bytes. length bytes ≤ length found.old → IsFetched result found.old found.new bytes) }

    ensures in_file { IfOk
        (managed_checked header.now heap_header_address file.now id.now offset_size)
        (λ place. place.position + place.length ≤ length file.now) }
    ensures answer { result
        ≡ fetched (managed_checked header.now heap_header_address file.now id.now offset_size)
        (length found.old) }
    ensures copied { (place : Place)
        → managed_checked header.now heap_header_address file.now id.now offset_size ≡ Ok place
        → OnOk result (found.new ≡ take place.length (drop place.position file.now)
        ++ drop place.length found.old) }
    ensures untouched { OnErr result (found.new ≡ found.old) }
{
    let place = header.read_managed_object(file, heap_header_address, id, offset_size)?;
    copy_object(place, file, found)
}

/// The same by the header at `at` of the file, whose addresses have `offset_size` bytes and whose lengths
/// `length_size`: it is parsed, and refused as `parse` refuses. What `fetch` answers follows.
///
/// Of a file that holds a header and a region of ours, as they were written, given the header's address that the
/// region was written with, and by an ID that was given, early or at the end, these are the object's bytes if the
/// header's flags say that direct blocks have a checksum, and the object is no longer than the header's largest
/// managed object: nothing else of the heap is at hand, neither its header's fields nor its objects.
pub fn fetch_at(
    file: &[u8],
    at: usize,
    offset_size: u8,
    length_size: u8,
    heap_header_address: u64,
    id: &[u8],
    found: &mut [u8],
) -> Result<usize, FormatError>
    ensures kept { ForWrittenChecked file.now at offset_size length_size heap_header_address id.now
        (λ bytes. length bytes ≤ length found.old → IsFetched result found.old found.new bytes) }

    ensures in_file { IfOk
        (checked_by file.now at offset_size length_size heap_header_address id.now offset_size)
        (λ place. place.position + place.length ≤ length file.now) }
    ensures answer { result ≡ fetched
        (checked_by file.now at offset_size length_size heap_header_address id.now offset_size)
        (length found.old) }
    ensures copied { (place : Place)
        → checked_by file.now at offset_size length_size heap_header_address id.now offset_size
        ≡ Ok place
        → OnOk result (found.new ≡ take place.length (drop place.position file.now)
        ++ drop place.length found.old) }
    ensures untouched { OnErr result (found.new ≡ found.old) }
{
    let header = FractalHeapHeader::parse(file, at, offset_size, length_size)?;
    fetch(&header, file, heap_header_address, id, offset_size, found)
}
