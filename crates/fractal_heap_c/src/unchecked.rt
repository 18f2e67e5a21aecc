//! Reading without a test of the blocks on the way, as the original reads: for a file that is damaged, and whose objects
//! are wanted all the same.
ghost use Rattle.std.specs.Prelude.{◌≡◌, ◌≤◌, length, Ok, ◌+◌, IfOk};
ghost use Rattle.fields.specs.Slot.{slot_size, slot_number, slot_bytes};
ghost use Rattle.fields.specs.Places.{place_report};
ghost use Rattle.refusals.specs.Refusals.{report_of};
ghost use Rattle.fractal_heap.specs.declared.header.FractalHeapHeader.{FractalHeapHeader};
ghost use Rattle.fractal_heap.specs.Header.{header_at};
ghost use Rattle.fractal_heap.specs.Read.{unchecked_by};
ghost use Rattle.heap_kept.specs.FromBytes.{ForWrittenUnchecked};
ghost use Rattle.heap_kept.specs.Kept.{ForKeptUnchecked};
ghost use Rattle.fractal_heap_c.specs.InSlot.{NamesPlace};

use fields::Place;
use fields::convert::to_usize;
use fields::slot::put_answer;
use fractal_heap::FractalHeapHeader;
use refusals::{FormatError, Reported};

fn read(
    file: &[u8],
    at: u64,
    offset_size: u8,
    length_size: u8,
    id: &[u8],
) -> Result<Place, FormatError>
    ensures found { result ≡ unchecked_by file.now at offset_size length_size id.now offset_size }
    ensures in_file { IfOk result (λ place. place.position + place.length ≤ length file.now) }
{
    let header = FractalHeapHeader::parse(file, to_usize(at), offset_size, length_size)?;
    header.read_managed_object_unchecked(file, id, offset_size)
}

/// Position in the file and length of a managed object, no block on the way tested but for the signatures of indirect
/// ones.
///
/// Of a heap that our writer wrote, and by an ID that it gave, early or at the end, the file has the object's bytes
/// there, if the object is no longer than the header's largest managed object, whatever else the header says: `kept`
/// says so where the header parses, `from_bytes` where its bytes stand.
#[unsafe(no_mangle)]
pub extern "C" fn fractal_heap_read_managed_object_unchecked(
    file: &[u8],
    at: u64,
    offset_size: u8,
    length_size: u8,
    id: &[u8],
    slot: &mut [u8],
) -> u32
    ensures number { result ≡ slot_number slot.old
        (report_of place_report
        (unchecked_by file.now at offset_size length_size id.now offset_size)) }
    ensures slot_after { slot.new ≡ slot_bytes slot.old
        (report_of place_report
        (unchecked_by file.now at offset_size length_size id.now offset_size)) }
    ensures in_file { IfOk (unchecked_by file.now at offset_size length_size id.now offset_size)
        (λ place. place.position + place.length ≤ length file.now) }
    ensures kept { (header : FractalHeapHeader)
        → header_at file.now at offset_size length_size ≡ Ok header
        → ForKeptUnchecked header file.now offset_size id.now
        (λ bytes. slot_size ≤ length slot.old → NamesPlace result slot.new file.now bytes) }
    // The same where the file holds the header's bytes, as the header writer leaves them.
    ensures from_bytes { ForWrittenUnchecked file.now at offset_size length_size id.now
        (λ bytes. slot_size ≤ length slot.old → NamesPlace result slot.new file.now bytes) }
{
    put_answer(slot, read(file, at, offset_size, length_size, id).answer())
}
