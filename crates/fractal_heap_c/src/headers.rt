//! A header's fields: parsed, for a loader that tells of a heap, and written, for one that makes a file.
ghost use Rattle.std.specs.Prelude.{◌≡◌, ◌<◌, ◌≤◌, ◌||◌, length, nat_lt};
ghost use Rattle.fractal_heap.specs.Listed.{is_short};
ghost use Rattle.fields.specs.LittleEndian.{put};
ghost use Rattle.fields.specs.Slot.{slot_size};
ghost use Rattle.fractal_heap.specs.Header.{header_at, header_of, field_count};
ghost use Rattle.fractal_heap.specs.Spelling.{header_spelled};
ghost use Rattle.fractal_heap.specs.Writing.{header_written, ReadsBack, WrittenBack};
ghost use Rattle.fractal_heap_c.specs.Parsed.{parsed_number, parsed_slot, parsed_list};
ghost use Rattle.fractal_heap_c.specs.WrittenHeaders.{written_header_number, written_header_slot};

use fields::convert::to_usize;
use fields::slot::{SLOT_SIZE, put_answer};
use fractal_heap::write::write_numbers;
use fractal_heap::{FIELD_COUNT, FractalHeapHeader, NUMBER_COUNT};
use refusals::{Answer, FormatError, Reported, SLICE_TOO_SHORT};

// Whether the slot is too short for an answer, or the list for so many numbers.
fn lacks_room(slot: &[u8], fields: &[u64], count: usize) -> bool
    ensures { result ≡ (nat_lt (length slot.now) SLOT_SIZE || is_short count fields.now) }
{
    slot.len() < SLOT_SIZE || fields.len() < count
}

/// The header at `at`: 26 numbers in the first places of `fields`, and two zeros in the slot. The first 23 are its
/// fields, in header order, the others what is kept of its filters, all 0 where its filter length is 0: where the filter
/// information begins, in bytes from the start of `file`, the filtered root direct block's size in bytes, and the filter
/// mask. A refusal leaves the list as it was. A slot of fewer than 16 bytes gives 13 before all else, then a list of
/// fewer than 26 places; both are then left as they were.
#[unsafe(no_mangle)]
pub extern "C" fn fractal_heap_parse_header(
    file: &[u8],
    at: u64,
    offset_size: u8,
    length_size: u8,
    fields: &mut [u64],
    slot: &mut [u8],
) -> u32
    ensures number { result ≡ parsed_number slot.old fields.old
        (header_at file.now at offset_size length_size) }
    ensures slot_after { slot.new ≡ parsed_slot slot.old fields.old
        (header_at file.now at offset_size length_size) }
    ensures fields_after { fields.new ≡ parsed_list slot.old fields.old
        (header_at file.now at offset_size length_size) }
{
    if lacks_room(slot, fields, NUMBER_COUNT) {
        return SLICE_TOO_SHORT;
    }
    match FractalHeapHeader::parse(file, to_usize(at), offset_size, length_size) {
        Ok(header) => {
            header.put_numbers(fields);
            put_answer(slot, Answer::accepted(0, 0))
        }
        Err(refusal) => put_answer(slot, refusal.answer()),
    }
}

/// Writes a header without filters, of 23 fields in header order, into the first bytes of `bytes`, and its length and
/// its checksum into the slot. Refused are sizes that are not 2, 4 or 8 (2, 3), a filter length that is not 0 (8), the
/// first field, by its place, that is too large for its width (17), and fewer bytes than the header has (13), in this
/// order; then `bytes` stay as they are. Every number is tested as it is given. A slot of fewer than 16 bytes gives 13
/// before all else, then a list of fewer than 23 numbers. Of 13 the slot says nothing, and numbers behind the 23 are not
/// read.
///
/// Wherever a file holds the bytes, its header is these numbers, and what is kept of filters is 0; and the fields of a
/// header that was parsed give its bytes.
#[unsafe(no_mangle)]
pub extern "C" fn fractal_heap_write_header(
    fields: &[u64],
    offset_size: u8,
    length_size: u8,
    bytes: &mut [u8],
    slot: &mut [u8],
) -> u32
    ensures number { result ≡ written_header_number slot.old fields.now offset_size length_size
        (length bytes.old) }
    ensures slot_after { slot.new ≡ written_header_slot slot.old fields.now offset_size length_size
        (length bytes.old) }
    ensures written { result ≡ 0
        → bytes.new ≡ put bytes.old 0 (header_spelled (header_of fields.now) offset_size length_size) }
    ensures reads_back { result ≡ 0 → ReadsBack (header_of fields.now) offset_size length_size }
    ensures written_back { slot_size ≤ length slot.old → field_count ≤ length fields.now
        → WrittenBack (header_of fields.now) offset_size length_size
        (header_written (header_of fields.now) offset_size length_size (length bytes.old)) bytes.new }
    ensures untouched { 0 < result → bytes.new ≡ bytes.old }
{
    if lacks_room(slot, fields, FIELD_COUNT) {
        return SLICE_TOO_SHORT;
    }
    match write_numbers(fields, offset_size, length_size, bytes) {
        Err(FormatError::SliceTooShort { .. }) => SLICE_TOO_SHORT,
        written => put_answer(slot, written.answer()),
    }
}
