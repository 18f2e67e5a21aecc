//! Objects by managed IDs, no block on the way tested, as the original reads.
ghost use Rattle.std.specs.Prelude.{◌≡◌, ◌+◌, ◌≤◌, length, IfOk};
ghost use Rattle.refusals.specs.Refusals.{report_of};
ghost use Rattle.fields.specs.Slot.{slot_number, slot_bytes};
ghost use Rattle.fields.specs.Places.{place_report};
ghost use Rattle.fractal_heap.specs.Header.{header_at};
ghost use Rattle.fractal_heap.specs.Read.{managed_unchecked, unchecked_by};
ghost use Rattle.tools_c.specs.ObjectTools.{each_number, each_list};

use super::id_lists::{UncheckedFile, read_list};
use fields::Place;
use fields::convert::to_usize;
use fields::slot::put_answer;
use fractal_heap::FractalHeapHeader;
use refusals::{FormatError, Reported};

fn read(
    file: &[u8],
    at: u64,
    offset_size: u8,
    length_size: u8,
    read_size: u8,
    id: &[u8],
) -> Result<Place, FormatError>
    ensures object { result ≡ unchecked_by file.now at offset_size length_size id.now read_size }
    ensures in_file { IfOk result (λ place. place.position + place.length ≤ length file.now) }
{
    let header = FractalHeapHeader::parse(file, to_usize(at), offset_size, length_size)?;
    header.read_managed_object_unchecked(file, id, read_size)
}

/// Reading with an offset size of its own, which may be any byte.
#[unsafe(no_mangle)]
pub extern "C" fn tools_read_managed_object_unchecked(
    file: &[u8],
    at: u64,
    offset_size: u8,
    length_size: u8,
    read_size: u8,
    id: &[u8],
    slot: &mut [u8],
) -> u32
    ensures number { result ≡ slot_number slot.old
        (report_of place_report
        (unchecked_by file.now at offset_size length_size id.now read_size)) }
    ensures slot_after { slot.new ≡ slot_bytes slot.old
        (report_of place_report
        (unchecked_by file.now at offset_size length_size id.now read_size)) }
    ensures in_file { IfOk (unchecked_by file.now at offset_size length_size id.now read_size)
        (λ place. place.position + place.length ≤ length file.now) }
{
    put_answer(
        slot,
        read(file, at, offset_size, length_size, read_size, id).answer(),
    )
}

/// The header once, then every ID; 13 and nothing stored where the list is too short for all.
#[unsafe(no_mangle)]
pub extern "C" fn tools_read_each_unchecked(
    file: &[u8],
    at: u64,
    offset_size: u8,
    length_size: u8,
    ids: &[u8],
    found: &mut [u64],
) -> u32
    ensures number { result
        ≡ each_number found.old ids.now (header_at file.now at offset_size length_size) }
    ensures found_after { found.new ≡ each_list found.old ids.now
        (λ header id. managed_unchecked header file.now id offset_size)
        (header_at file.now at offset_size length_size) }
{
    let objects = UncheckedFile { file, offset_size };
    read_list(&objects, file, at, offset_size, length_size, ids, found)
}
