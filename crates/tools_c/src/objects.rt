//! IDs and objects.
mod id_lists;
pub mod unchecked;

ghost use Rattle.std.specs.Prelude.{◌≡◌, ◌+◌, ◌≤◌, length, IfOk};
ghost use Rattle.refusals.specs.Refusals.{report_of};
ghost use Rattle.fields.specs.Slot.{slot_number, slot_bytes};
ghost use Rattle.fields.specs.Places.{place_report};
ghost use Rattle.fractal_heap.specs.Header.{header_at};
ghost use Rattle.fractal_heap.specs.Read.{managed_checked, checked_by};
ghost use Rattle.ids.specs.IdTypes.{id_type, type_report};
ghost use Rattle.ids.specs.Tiny.{tiny_at};
ghost use Rattle.tools_c.specs.ObjectTools.{each_number, each_list};

use crate::objects::id_lists::{CheckedFile, read_list};
use fields::Place;
use fields::convert::to_usize;
use fields::slot::put_answer;
use fractal_heap::FractalHeapHeader;
use ids::tiny::read_tiny_object;
use refusals::{FormatError, Reported};

fn read(
    file: &[u8],
    at: u64,
    offset_size: u8,
    length_size: u8,
    read_size: u8,
    heap_header_address: u64,
    id: &[u8],
) -> Result<Place, FormatError>
    ensures object { result ≡ checked_by file.now at offset_size length_size heap_header_address
        id.now read_size }
    ensures in_file { IfOk result (λ place. place.position + place.length ≤ length file.now) }
{
    let header = FractalHeapHeader::parse(file, to_usize(at), offset_size, length_size)?;
    header.read_managed_object(file, heap_header_address, id, read_size)
}

/// Reading, every block on the way tested, with an offset size of its own, which may be any byte.
#[unsafe(no_mangle)]
pub extern "C" fn tools_read_managed_object(
    file: &[u8],
    at: u64,
    offset_size: u8,
    length_size: u8,
    read_size: u8,
    heap_header_address: u64,
    id: &[u8],
    slot: &mut [u8],
) -> u32
    ensures number { result ≡ slot_number slot.old
        (report_of place_report (checked_by file.now at offset_size length_size
        heap_header_address id.now read_size)) }
    ensures slot_after { slot.new ≡ slot_bytes slot.old
        (report_of place_report (checked_by file.now at offset_size length_size
        heap_header_address id.now read_size)) }
    ensures in_file { IfOk
        (checked_by file.now at offset_size length_size heap_header_address id.now read_size)
        (λ place. place.position + place.length ≤ length file.now) }
{
    let found = read(
        file,
        at,
        offset_size,
        length_size,
        read_size,
        heap_header_address,
        id,
    );
    put_answer(slot, found.answer())
}

/// Where a tiny object lies in its ID, and its length.
#[unsafe(no_mangle)]
pub extern "C" fn tools_read_tiny_object(heap_id_length: u16, id: &[u8], slot: &mut [u8]) -> u32
    ensures number { result
        ≡ slot_number slot.old (report_of place_report (tiny_at heap_id_length id.now)) }
    ensures slot_after { slot.new
        ≡ slot_bytes slot.old (report_of place_report (tiny_at heap_id_length id.now)) }
    ensures in_id { IfOk (tiny_at heap_id_length id.now)
        (λ place. place.position + place.length ≤ length id.now) }
{
    put_answer(slot, read_tiny_object(heap_id_length, id).answer())
}

/// The type's number is the first value.
#[unsafe(no_mangle)]
pub extern "C" fn tools_heap_id_type(id: &[u8], slot: &mut [u8]) -> u32
    ensures number { result ≡ slot_number slot.old (report_of type_report (id_type id.now)) }
    ensures slot_after { slot.new ≡ slot_bytes slot.old (report_of type_report (id_type id.now)) }
{
    put_answer(slot, FractalHeapHeader::heap_id_type(id).answer())
}

/// The header once, then every ID, every block on the way tested; 13 and nothing stored where the list is too short for
/// all.
#[unsafe(no_mangle)]
pub extern "C" fn tools_read_each(
    file: &[u8],
    at: u64,
    offset_size: u8,
    length_size: u8,
    heap_header_address: u64,
    ids: &[u8],
    found: &mut [u64],
) -> u32
    ensures number { result
        ≡ each_number found.old ids.now (header_at file.now at offset_size length_size) }
    ensures found_after { found.new ≡ each_list found.old ids.now
        (λ header id. managed_checked header heap_header_address file.now id offset_size)
        (header_at file.now at offset_size length_size) }
{
    let objects = CheckedFile {
        heap_header_address,
        file,
        offset_size,
    };
    read_list(&objects, file, at, offset_size, length_size, ids, found)
}
