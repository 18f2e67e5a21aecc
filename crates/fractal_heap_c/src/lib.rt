//! What the loader calls: the checksum, the decoding of a managed ID, and reading; in `headers` a header's fields, told and
//! written, in `open_plans` a plan that stays open, in `unchecked` reading without tests of the blocks, in `written_ids`
//! the ID of what was planned. Decoding and reading parse
//! the header at `at` first. Each returns the refusal's number, 0 where there is none, and puts the answer's two values into
//! the first 16 bytes of the slot; a shorter slot gives 13 before all else. In decoding and reading `put_answer` tests it,
//! after parsing and answering, so what is handed back for a short slot is 13 whatever the file is.
#![tactic(auto)]

pub mod headers;
pub mod open_plans;
pub mod unchecked;
pub mod written_ids;

ghost use Rattle.std.specs.Prelude.{◌≡◌, ◌≤◌, ℕ, length, Ok, Err, ◌+◌, IfOk};
ghost use Rattle.checksum.specs.Lookup3.{hashlittle};
ghost use Rattle.fields.specs.Slot.{slot_size, slot_number, slot_bytes};
ghost use Rattle.refusals.specs.Refusals.{report_of};
ghost use Rattle.refusals.specs.declared.FormatError.{FormatError};
ghost use Rattle.ids.specs.Decoded.{id_report};
ghost use Rattle.fields.specs.Places.{place_report};
ghost use Rattle.checked_reading.specs.Path.{site_report};
ghost use Rattle.fractal_heap.specs.declared.header.FractalHeapHeader.{FractalHeapHeader};
ghost use Rattle.fractal_heap.specs.Header.{header_at};
ghost use Rattle.fractal_heap.specs.Read.{id_by, unchecked_by, checked_by, stopped_by};
ghost use Rattle.heap_kept.specs.FromBytes.{ForWrittenChecked};
ghost use Rattle.heap_kept.specs.Kept.{ForKeptChecked};
ghost use Rattle.fractal_heap_c.specs.InSlot.{NamesPlace, NamesPair};
ghost use Rattle.ids.specs.Written.{HasTable, IsManaged};
ghost use Rattle.table.specs.Table.{fixed};
ghost use Rattle.fractal_heap_c.specs.WrittenIds.{IsWrittenId};

use checked_reading::BlockSite;
use checksum::jenkins_lookup3;
use fields::Place;
use fields::convert::to_usize;
use fields::slot::put_answer;
use fractal_heap::FractalHeapHeader;
use ids::ManagedId;
use refusals::{FormatError, Reported};

/// The checksum of HDF5's metadata: lookup3 of the bytes, with initial value 0.
#[unsafe(no_mangle)]
pub extern "C" fn fractal_heap_checksum(bytes: &[u8]) -> u32
    ensures { result ≡ hashlittle bytes.now }
{
    jenkins_lookup3(bytes)
}

fn decode(
    file: &[u8],
    at: u64,
    offset_size: u8,
    length_size: u8,
    id: &[u8],
) -> Result<ManagedId, FormatError>
    ensures { result ≡ id_by file.now at offset_size length_size id.now }
{
    FractalHeapHeader::parse(file, to_usize(at), offset_size, length_size)?.decode_managed_id(id)
}

fn read(
    file: &[u8],
    at: u64,
    offset_size: u8,
    length_size: u8,
    heap_header_address: u64,
    id: &[u8],
) -> Result<Place, FormatError>
    ensures found { result ≡ checked_by file.now at offset_size length_size heap_header_address
        id.now offset_size }
    ensures only_refuses { IfOk result (λ place.
        unchecked_by file.now at offset_size length_size id.now offset_size ≡ Ok place) }
    ensures in_file { IfOk result (λ place. place.position + place.length ≤ length file.now) }
{
    let header = FractalHeapHeader::parse(file, to_usize(at), offset_size, length_size)?;
    header.read_managed_object(file, heap_header_address, id, offset_size)
}

fn stopping_block(
    file: &[u8],
    at: u64,
    offset_size: u8,
    length_size: u8,
    heap_header_address: u64,
    id: &[u8],
) -> Result<BlockSite, FormatError>
    ensures stopping { result ≡ stopped_by file.now at offset_size length_size heap_header_address
        id.now }
    ensures refused { (refused : FormatError) → result ≡ Err refused
        → checked_by file.now at offset_size length_size heap_header_address id.now offset_size
        ≡ Err refused }
{
    let header = FractalHeapHeader::parse(file, to_usize(at), offset_size, length_size)?;
    header.stopping_block(file, heap_header_address, id, offset_size)
}

/// Heap offset and length of a managed ID.
///
/// By an ID that our writer wrote, and a header of the fixed geometry whose largest managed object has at least the
/// length, these are the offset and the length that it was written from.
#[unsafe(no_mangle)]
pub extern "C" fn fractal_heap_decode_managed_id(
    file: &[u8],
    at: u64,
    offset_size: u8,
    length_size: u8,
    id: &[u8],
    slot: &mut [u8],
) -> u32
    ensures number { result ≡ slot_number slot.old
        (report_of id_report (id_by file.now at offset_size length_size id.now)) }
    ensures slot_after { slot.new ≡ slot_bytes slot.old
        (report_of id_report (id_by file.now at offset_size length_size id.now)) }
    ensures kept { (header : FractalHeapHeader)
        → header_at file.now at offset_size length_size ≡ Ok header
        → HasTable header.table fixed
        → (offset len : ℕ) → IsWrittenId id.now offset len
        → IsManaged len header.max_managed_object_size
        → slot_size ≤ length slot.old → NamesPair result slot.new offset len }
{
    put_answer(
        slot,
        decode(file, at, offset_size, length_size, id).answer(),
    )
}

/// Position in the file and length of a managed object. Every block on the way is tested, and has to be one of the heap
/// whose header's address is `heap_header_address`, as its blocks say it: `at`, in a file that is lent from its
/// superblock on. What this finds `fractal_heap_read_managed_object_unchecked` finds, too.
///
/// Of a heap that our writer wrote with this address, and by an ID that it gave, early or at the end, the file has the
/// object's bytes there, if the header's flags say that direct blocks have a checksum, and the object is no longer than
/// the header's largest managed object, whatever else the header says: `kept` says so where the header parses,
/// `from_bytes` where its bytes stand.
#[unsafe(no_mangle)]
pub extern "C" fn fractal_heap_read_managed_object(
    file: &[u8],
    at: u64,
    offset_size: u8,
    length_size: u8,
    heap_header_address: u64,
    id: &[u8],
    slot: &mut [u8],
) -> u32
    ensures number { result ≡ slot_number slot.old
        (report_of place_report (checked_by file.now at offset_size length_size
        heap_header_address id.now offset_size)) }
    ensures slot_after { slot.new ≡ slot_bytes slot.old
        (report_of place_report (checked_by file.now at offset_size length_size
        heap_header_address id.now offset_size)) }
    ensures only_refuses { IfOk
        (checked_by file.now at offset_size length_size heap_header_address id.now offset_size)
        (λ place. unchecked_by file.now at offset_size length_size id.now offset_size ≡ Ok place) }
    ensures in_file { IfOk
        (checked_by file.now at offset_size length_size heap_header_address id.now offset_size)
        (λ place. place.position + place.length ≤ length file.now) }
    ensures kept { (header : FractalHeapHeader)
        → header_at file.now at offset_size length_size ≡ Ok header
        → ForKeptChecked header heap_header_address file.now offset_size id.now
        (λ bytes. slot_size ≤ length slot.old → NamesPlace result slot.new file.now bytes) }
    // The same where the file holds the header's bytes, as the header writer leaves them.
    ensures from_bytes { ForWrittenChecked file.now at offset_size length_size heap_header_address id.now
        (λ bytes. slot_size ≤ length slot.old → NamesPlace result slot.new file.now bytes) }
{
    let found = read(file, at, offset_size, length_size, heap_header_address, id);
    put_answer(slot, found.answer())
}

/// The block at which that read stops, by its address and its heap offset: the direct block that has the object, or the
/// block that is refused, or that has no child for the object. A read that comes to no block is refused here as there.
#[unsafe(no_mangle)]
pub extern "C" fn fractal_heap_stopping_block(
    file: &[u8],
    at: u64,
    offset_size: u8,
    length_size: u8,
    heap_header_address: u64,
    id: &[u8],
    slot: &mut [u8],
) -> u32
    ensures number { result ≡ slot_number slot.old
        (report_of site_report
        (stopped_by file.now at offset_size length_size heap_header_address id.now)) }
    ensures slot_after { slot.new ≡ slot_bytes slot.old
        (report_of site_report
        (stopped_by file.now at offset_size length_size heap_header_address id.now)) }
    ensures refused { (refused : FormatError)
        → stopped_by file.now at offset_size length_size heap_header_address id.now ≡ Err refused
        → checked_by file.now at offset_size length_size heap_header_address id.now offset_size
        ≡ Err refused }
{
    let block = stopping_block(file, at, offset_size, length_size, heap_header_address, id);
    put_answer(slot, block.answer())
}

#[cfg(test)]
mod tests;
