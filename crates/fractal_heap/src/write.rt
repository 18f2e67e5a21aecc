//! Writing a header without filters: every test comes first, then the fields and their checksum are stored.
ghost use Rattle.std.specs.Prelude.{◌≡◌, ◌+◌, ◌*◌, ◌^◌, ◌<◌, ◌≤◌, true, length, slice_index};
ghost use Rattle.std.specs.Prelude.{OnOk, OnErr};
ghost use Rattle.checksum.specs.Lookup3.{hashlittle};
ghost use Rattle.fields.specs.LittleEndian.{le, put};
ghost use Rattle.fields.specs.Widths.{legal};
ghost use Rattle.fields.specs.Writing.{Puts};
ghost use Rattle.fractal_heap.specs.Header.{fields_size, header_end, header_numbers, header_of};
ghost use Rattle.fractal_heap.specs.Spelling.{field_widths, spelled, unsummed, header_spelled};
ghost use Rattle.fractal_heap.specs.Writing.{header_length, field_width, field_checked};
ghost use Rattle.fractal_heap.specs.Writing.{widths_checked, four_from, four_size, AreWidths};
ghost use Rattle.fractal_heap.specs.Writing.{header_checked, header_written};
ghost use Rattle.fractal_heap.specs.Writing.{ReadsBack, ParsedReadsBack, WrittenBack};

use crate::header::{FIELD_COUNT, FractalHeapHeader};
use checksum::jenkins_lookup3;
use fields::{Writer, is_width};
use refusals::{Answer, FormatError, Reported};

// Places of fields among a header's numbers: of those from which on fields are tested and put by fours, of the last
// three, which go one by one, and of the length of the filter information.
const HEAP_ID_LENGTH_PLACE: usize = 0;

const FILTER_LENGTH_PLACE: usize = HEAP_ID_LENGTH_PLACE + 1;

const NEXT_HUGE_OBJECT_ID_PLACE: usize = HEAP_ID_LENGTH_PLACE + 4;

const MANAGED_SPACE_PLACE: usize = NEXT_HUGE_OBJECT_ID_PLACE + 4;

const HUGE_OBJECTS_SIZE_PLACE: usize = MANAGED_SPACE_PLACE + 4;

const TABLE_WIDTH_PLACE: usize = HUGE_OBJECTS_SIZE_PLACE + 4;

const START_ROOT_ROWS_PLACE: usize = TABLE_WIDTH_PLACE + 4;

const ROOT_BLOCK_ADDRESS_PLACE: usize = START_ROOT_ROWS_PLACE + 1;

const CURRENT_ROOT_ROWS_PLACE: usize = ROOT_BLOCK_ADDRESS_PLACE + 1;

/// A header that was written: how many bytes it has, and its checksum, which is their last four.
#[derive(Clone, Copy, Debug, PartialEq, Eq)]
pub struct WrittenHeader {
    pub length: u64,
    pub checksum: u32,
}

impl Reported for WrittenHeader {
    ghost use Rattle.fractal_heap.specs.Writing.{written_report};

    ghost report = { written_report };

    fn answer(self) -> Answer {
        Answer::accepted(self.length, u64::from(self.checksum))
    }
}

// How many bytes a header without filters has, with its checksum.
#[inline(always)]
fn header_length(offset_size: u8, length_size: u8) -> usize
    ensures { result ≡ header_length offset_size length_size }
{
    // Signature, version, eight fields of one, two or four bytes, and checksum; twelve lengths; three addresses.
    26 + 12 * usize::from(length_size) + 3 * usize::from(offset_size)
}

// How many bytes each field has, in header order.
#[inline(always)]
fn field_widths(offset_size: u8, length_size: u8) -> [u8; FIELD_COUNT]
    ensures { result ≡ field_widths offset_size length_size }
{
    let (o, l) = (offset_size, length_size);
    [
        2, 2, 1, 4, l, o, l, o, l, l, l, l, l, l, l, l, 2, l, l, 2, 2, o, 2,
    ]
}

// The largest number of so many bytes: all bits are set. Reckoned without a branch, and once for all fields of a width.
#[inline(always)]
fn largest_number(width: u8) -> u64
    requires { field_width width ≡ true }
    ensures { result + 1 ≡ 2 ^ (8 * width) }
{
    u64::MAX >> (64 - 8 * width)
}

// Tests that the number of the field at `place` is not too large for its width.
#[inline(always)]
fn check_field(place: usize, numbers: &[u64], widths: &[u8]) -> Result<(), FormatError>
    requires numbers { place < length numbers.now }
    requires widths { place < length widths.now }
    requires width { field_width (slice_index widths.now place) ≡ true }
    ensures { result ≡ field_checked place (slice_index widths.now place)
        (slice_index numbers.now place) }
{
    let number = numbers[place];
    if number > largest_number(widths[place]) {
        return Err(FormatError::HeaderFieldTooLarge {
            place: place as u64,
            value: number,
        });
    }
    Ok(())
}

// Puts the field at `place`, of a width that is known only when it is put: a store for each width, and no copy of so
// many bytes.
#[inline(always)]
fn put_field(writer: &mut Writer<'_>, place: usize, numbers: &[u64], widths: &[u8])
    requires numbers { place < length numbers.now }
    requires widths { place < length widths.now }
    requires width { field_width (slice_index widths.now place) ≡ true }
    requires room { writer.old.at + slice_index widths.now place ≤ length writer.old.bytes.now }
    ensures { Puts writer.old writer.new (slice_index widths.now place)
        (le (slice_index widths.now place) (slice_index numbers.now place)) }
{
    let number = numbers[place];
    match widths[place] {
        1 => writer.put_number(number, 1),
        2 => writer.put_number(number, 2),
        4 => writer.put_number(number, 4),
        _ => writer.put_number(number, 8),
    }
}

// Tests the four fields from `place` on: a loop is not unrolled, and a chain of all 23 is more than the prover
// searches.
#[inline(always)]
#[tactic(auto, unfolding(crate::specs::Writing::widths_checked))]
fn check_four(place: usize, numbers: &[u64], widths: &[u8]) -> Result<(), FormatError>
    requires numbers { place + 4 ≤ length numbers.now }
    requires widths { place + 4 ≤ length widths.now }
    requires fields { AreWidths place widths.now }
    ensures { result ≡ widths_checked place (four_from place widths.now)
        (four_from place numbers.now) }
{
    check_field(place, numbers, widths)?;
    check_field(place + 1, numbers, widths)?;
    check_field(place + 2, numbers, widths)?;
    check_field(place + 3, numbers, widths)
}

// Puts the four fields from `place` on.
#[inline(always)]
#[tactic(auto, unfolding(crate::specs::Spelling::spelled))]
fn put_four(writer: &mut Writer<'_>, place: usize, numbers: &[u64], widths: &[u8])
    requires numbers { place + 4 ≤ length numbers.now }
    requires widths { place + 4 ≤ length widths.now }
    requires fields { AreWidths place widths.now }
    requires room { writer.old.at + four_size place widths.now
        ≤ length writer.old.bytes.now }
    ensures { Puts writer.old writer.new (four_size place widths.now)
        (spelled (four_from place widths.now) (four_from place numbers.now)) }
{
    put_field(writer, place, numbers, widths);
    put_field(writer, place + 1, numbers, widths);
    put_field(writer, place + 2, numbers, widths);
    put_field(writer, place + 3, numbers, widths);
}

// Tests that each number fits its width.
#[inline(always)]
fn check_fields(numbers: &[u64], offset_size: u8, length_size: u8) -> Result<(), FormatError>
    requires numbers { FIELD_COUNT ≤ length numbers.now }
    requires offsets { legal offset_size ≡ true }
    requires lengths { legal length_size ≡ true }
    ensures { result ≡ widths_checked 0 (field_widths offset_size length_size)
        (header_numbers (header_of numbers.now)) }
{
    let widths = field_widths(offset_size, length_size);
    check_four(HEAP_ID_LENGTH_PLACE, numbers, &widths)?;
    check_four(NEXT_HUGE_OBJECT_ID_PLACE, numbers, &widths)?;
    check_four(MANAGED_SPACE_PLACE, numbers, &widths)?;
    check_four(HUGE_OBJECTS_SIZE_PLACE, numbers, &widths)?;
    check_four(TABLE_WIDTH_PLACE, numbers, &widths)?;
    check_field(START_ROOT_ROWS_PLACE, numbers, &widths)?;
    check_field(ROOT_BLOCK_ADDRESS_PLACE, numbers, &widths)?;
    check_field(CURRENT_ROOT_ROWS_PLACE, numbers, &widths)
}

// Puts all fields, one behind the other.
#[inline(always)]
#[tactic(auto, unfolding(crate::specs::Spelling::spelled))]
fn put_fields(writer: &mut Writer<'_>, numbers: &[u64], offset_size: u8, length_size: u8)
    requires numbers { FIELD_COUNT ≤ length numbers.now }
    requires offsets { legal offset_size ≡ true }
    requires lengths { legal length_size ≡ true }
    requires room { writer.old.at + fields_size offset_size length_size
        ≤ length writer.old.bytes.now }
    ensures { Puts writer.old writer.new (fields_size offset_size length_size)
        (spelled (field_widths offset_size length_size) (header_numbers (header_of numbers.now))) }
{
    let widths = field_widths(offset_size, length_size);
    put_four(writer, HEAP_ID_LENGTH_PLACE, numbers, &widths);
    put_four(writer, NEXT_HUGE_OBJECT_ID_PLACE, numbers, &widths);
    put_four(writer, MANAGED_SPACE_PLACE, numbers, &widths);
    put_four(writer, HUGE_OBJECTS_SIZE_PLACE, numbers, &widths);
    put_four(writer, TABLE_WIDTH_PLACE, numbers, &widths);
    put_field(writer, START_ROOT_ROWS_PLACE, numbers, &widths);
    put_field(writer, ROOT_BLOCK_ADDRESS_PLACE, numbers, &widths);
    put_field(writer, CURRENT_ROOT_ROWS_PLACE, numbers, &widths);
}

// All before the checksum: signature, version 0 and the fields.
fn put_unsummed(bytes: &mut [u8], numbers: &[u64], offset_size: u8, length_size: u8)
    requires numbers { FIELD_COUNT ≤ length numbers.now }
    requires offsets { legal offset_size ≡ true }
    requires lengths { legal length_size ≡ true }
    requires room { length bytes.old ≡ header_end offset_size length_size }
    ensures { bytes.new ≡ unsummed (header_of numbers.now) offset_size length_size }
{
    let mut writer = Writer::new(bytes);
    writer.put(b"FRHP");
    writer.put(&[0]);
    put_fields(&mut writer, numbers, offset_size, length_size);
}

// The whole header in front of `bytes`, whose other bytes stay as they are; its checksum.
fn put_header(bytes: &mut [u8], numbers: &[u64], offset_size: u8, length_size: u8) -> u32
    requires numbers { FIELD_COUNT ≤ length numbers.now }
    requires offsets { legal offset_size ≡ true }
    requires lengths { legal length_size ≡ true }
    requires room { header_length offset_size length_size ≤ length bytes.old }
    ensures checksum { result
        ≡ hashlittle (unsummed (header_of numbers.now) offset_size length_size) }
    ensures written { bytes.new ≡ put bytes.old 0
        (header_spelled (header_of numbers.now) offset_size length_size) }
{
    let (header, _) = bytes.split_at_mut(header_length(offset_size, length_size));
    let (summed, seal) = header.split_at_mut(header.len() - 4);
    put_unsummed(summed, numbers, offset_size, length_size);
    let checksum = jenkins_lookup3(summed);
    seal.copy_from_slice(&checksum.to_le_bytes());
    checksum
}

// The tests of a header of these numbers, into `lent` bytes, in their order.
#[inline(always)]
fn check_header(
    numbers: &[u64],
    offset_size: u8,
    length_size: u8,
    lent: usize,
) -> Result<(), FormatError>
    requires { FIELD_COUNT ≤ length numbers.now }
    ensures tested { result ≡ header_checked (header_numbers (header_of numbers.now))
        offset_size length_size lent }
    ensures offsets { OnOk result (legal offset_size ≡ true) }
    ensures lengths { OnOk result (legal length_size ≡ true) }
    ensures room { OnOk result (header_length offset_size length_size ≤ lent) }
{
    if !is_width(offset_size) {
        return Err(FormatError::InvalidOffsetSize(offset_size));
    }
    if !is_width(length_size) {
        return Err(FormatError::InvalidLengthSize(length_size));
    }
    if numbers[FILTER_LENGTH_PLACE] != 0 {
        return Err(FormatError::UnsupportedFilteredHeapObject);
    }
    check_fields(numbers, offset_size, length_size)?;
    let needed = header_length(offset_size, length_size);
    if lent < needed {
        return Err(FormatError::SliceTooShort {
            needed: needed as u64,
            lent: lent as u64,
        });
    }
    Ok(())
}

// The tests, then the stores.
#[inline(always)]
fn store_header(
    numbers: &[u64],
    offset_size: u8,
    length_size: u8,
    bytes: &mut [u8],
) -> Result<WrittenHeader, FormatError>
    requires { FIELD_COUNT ≤ length numbers.now }
    ensures answered { result ≡ header_written (header_of numbers.now) offset_size length_size
        (length bytes.old) }
    ensures written { OnOk result (bytes.new ≡ put bytes.old 0
        (header_spelled (header_of numbers.now) offset_size length_size)) }
    ensures untouched { OnErr result (bytes.new ≡ bytes.old) }
{
    check_header(numbers, offset_size, length_size, bytes.len())?;
    let checksum = put_header(bytes, numbers, offset_size, length_size);
    Ok(WrittenHeader {
        length: header_length(offset_size, length_size) as u64,
        checksum,
    })
}

/// Writes the header of these numbers, its fields in header order, as `FractalHeapHeader::write` does. Numbers behind
/// the first 23 are not read.
#[inline(always)]
pub fn write_numbers(
    numbers: &[u64],
    offset_size: u8,
    length_size: u8,
    bytes: &mut [u8],
) -> Result<WrittenHeader, FormatError>
    requires { FIELD_COUNT ≤ length numbers.now }
    ensures answered { result ≡ header_written (header_of numbers.now) offset_size length_size
        (length bytes.old) }
    ensures written { OnOk result (bytes.new ≡ put bytes.old 0
        (header_spelled (header_of numbers.now) offset_size length_size)) }
    ensures reads_back { OnOk result (ReadsBack (header_of numbers.now) offset_size length_size) }
    ensures written_back { WrittenBack (header_of numbers.now) offset_size length_size result
        bytes.new }
    ensures untouched { OnErr result (bytes.new ≡ bytes.old) }
{
    store_header(numbers, offset_size, length_size, bytes)
}

impl FractalHeapHeader {
    /// Writes the header to the front of `bytes`; addresses have `offset_size` bytes, lengths `length_size`. Refused
    /// are sizes that are not 2, 4 or 8 (2, 3), filters (8), the first field, by its place in header order, that is
    /// too large for its width (17), and fewer bytes than the header has (13), in this order; then `bytes` stay as
    /// they are. No exception is made for the undefined address, which is all ones in its width. What the header has
    /// of filters behind the root's rows is passed over, neither tested nor written: parsing the bytes gives the
    /// header with these three at 0, which is itself where it was parsed.
    pub fn write(
        self,
        offset_size: u8,
        length_size: u8,
        bytes: &mut [u8],
    ) -> Result<WrittenHeader, FormatError>
        ensures answered { result ≡ header_written self offset_size length_size (length bytes.old) }
        ensures written { OnOk result (bytes.new ≡ put bytes.old 0
            (header_spelled self offset_size length_size)) }
        ensures reads_back { OnOk result (ReadsBack self offset_size length_size) }
        ensures parsed_reads_back { OnOk result (ParsedReadsBack self offset_size length_size) }
        ensures written_back { WrittenBack self offset_size length_size result bytes.new }
        ensures untouched { OnErr result (bytes.new ≡ bytes.old) }
    {
        write_numbers(&self.numbers(), offset_size, length_size, bytes)
    }
}
