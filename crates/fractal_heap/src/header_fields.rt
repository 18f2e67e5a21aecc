//! The fields of a heap's header, in groups: its front, the numbers of objects, the doubling table, the root block, the
//! filters. Each reader begins at `pos`, and gives the header that it was given with its own fields read, and where the
//! next group begins. It refuses as its first field does that is not all there, that of the filters by the checksum's
//! end, whatever is missing of them and the checksum.

pub mod reader;

ghost use Rattle.std.specs.Prelude.{◌≡◌, ◌+◌, ◌<◌, ◌≤◌, length};

use crate::header::FractalHeapHeader;
use crate::header_fields::reader::Reader;
use fields::ensure_len;
use fields::little_endian::read_u32_le;
use refusals::FormatError;

impl Reader<'_> {
    ghost use Rattle.std.specs.Prelude.{true, OnOk, IfOk};
    ghost use Rattle.fields.specs.Widths.{legal};
    ghost use Rattle.fractal_heap.specs.Header.{fields_at, fields_size, sum_place};
    ghost use Rattle.fractal_heap.specs.Groups.{front_fields, front_size, object_fields};
    ghost use Rattle.fractal_heap.specs.Groups.{objects_size, table_fields};
    ghost use Rattle.fractal_heap.specs.Groups.{table_size, root_fields, root_size, filter_fields};
    ghost use Rattle.fractal_heap.specs.Groups.{filters_at, filters_size};

    /// The fields that every header has.
    #[inline(always)]
    pub fn fields(&self, pos: usize) -> Result<(FractalHeapHeader, usize), FormatError>
        ensures read { result ≡ fields_at self.now.file.now pos self.now.offset_size
            self.now.length_size }
        ensures size { IfOk result
            (λ fields. fields.1 ≡ pos + fields_size self.now.offset_size self.now.length_size) }
        ensures there { IfOk result (λ fields. fields.1 ≤ length self.now.file.now) }
        ensures offsets { OnOk result (legal self.now.offset_size ≡ true) }
        ensures lengths { OnOk result (legal self.now.length_size ≡ true) }
    {
        let (header, pos) = self.front(FractalHeapHeader::default(), pos)?;
        let (header, pos) = self.objects(header, pos)?;
        let (header, pos) = self.table(header, pos)?;
        self.root(header, pos)
    }

    /// From Heap ID Length to Maximum Size of Managed Objects.
    #[inline(always)]
    pub fn front(
        &self,
        mut header: FractalHeapHeader,
        mut pos: usize,
    ) -> Result<(FractalHeapHeader, usize), FormatError>
        ensures read { result ≡ front_fields header self.now.file.now pos }
        ensures size { IfOk result (λ group. group.1 ≡ pos + front_size) }
        ensures there { IfOk result (λ group. group.1 ≤ length self.now.file.now) }
    {
        (header.heap_id_length, pos) = self.u16(pos)?;
        (header.io_filter_encoded_length, pos) = self.u16(pos)?;
        (header.flags, pos) = self.u8(pos)?;
        (header.max_managed_object_size, pos) = self.u32(pos)?;
        Ok((header, pos))
    }

    /// From Next Huge Object ID to Number of Managed Objects in Heap. What the original steps over is read when the
    /// test of its width has passed, which a field behind it has.
    #[inline(always)]
    pub fn objects(
        &self,
        mut header: FractalHeapHeader,
        pos: usize,
    ) -> Result<(FractalHeapHeader, usize), FormatError>
        ensures read { result ≡ object_fields header self.now.file.now pos self.now.offset_size
            self.now.length_size }
        ensures size { IfOk result
            (λ group. group.1 ≡ pos + objects_size self.now.offset_size self.now.length_size) }
        ensures there { IfOk result (λ group. group.1 ≤ length self.now.file.now) }
        ensures offsets { OnOk result (legal self.now.offset_size ≡ true) }
        ensures lengths { OnOk result (legal self.now.length_size ≡ true) }
    {
        let os = usize::from(self.offset_size);
        let ls = usize::from(self.length_size);
        let five;
        let end;
        ensure_len(self.file, pos, ls)?;
        (header.btree_huge_objects_address, five) = self.offset(pos + ls)?;
        ensure_len(self.file, five, 4 * ls + os)?;
        (header.managed_objects_count, end) = self.length(five + 4 * ls + os)?;
        (header.next_huge_object_id, _) = self.untested(pos, self.length_size);
        let mut at = five;
        (header.free_space_managed_blocks, at) = self.untested(at, self.length_size);
        (header.managed_block_free_space_manager_address, at) = self.untested(at, self.offset_size);
        (header.managed_space_in_heap, at) = self.untested(at, self.length_size);
        (header.allocated_managed_space_in_heap, at) = self.untested(at, self.length_size);
        (header.direct_block_allocation_iterator_offset, _) = self.untested(at, self.length_size);
        Ok((header, end))
    }

    /// From Size of Huge Objects in Heap to Maximum Heap Size. The first four lengths are stepped over untested, as in
    /// the original, and read when the tests behind them have passed.
    #[inline(always)]
    pub fn table(
        &self,
        mut header: FractalHeapHeader,
        pos: usize,
    ) -> Result<(FractalHeapHeader, usize), FormatError>
        requires { pos ≤ length self.now.file.now }
        ensures read { result ≡ table_fields header self.now.file.now pos self.now.length_size }
        ensures size { IfOk result (λ group. group.1 ≡ pos + table_size self.now.length_size) }
        ensures there { IfOk result (λ group. group.1 ≤ length self.now.file.now) }
    {
        let mut at = pos;
        let mut pos = pos + 4 * usize::from(self.length_size);
        (header.table.table_width, pos) = self.u16(pos)?;
        (header.table.starting_block_size, pos) = self.length(pos)?;
        (header.table.max_direct_block_size, pos) = self.length(pos)?;
        (header.table.max_heap_size, pos) = self.u16(pos)?;
        (header.huge_objects_size, at) = self.untested(at, self.length_size);
        (header.huge_objects_count, at) = self.untested(at, self.length_size);
        (header.tiny_objects_size, at) = self.untested(at, self.length_size);
        (header.tiny_objects_count, _) = self.untested(at, self.length_size);
        Ok((header, pos))
    }

    /// From Starting # of Rows in Root Indirect Block to Current # of Rows in Root Indirect Block.
    #[inline(always)]
    pub fn root(
        &self,
        mut header: FractalHeapHeader,
        mut pos: usize,
    ) -> Result<(FractalHeapHeader, usize), FormatError>
        ensures read { result ≡ root_fields header self.now.file.now pos self.now.offset_size }
        ensures size { IfOk result (λ group. group.1 ≡ pos + root_size self.now.offset_size) }
        ensures there { IfOk result (λ group. group.1 ≤ length self.now.file.now) }
    {
        (header.start_root_rows, pos) = self.u16(pos)?;
        (header.root_block_address, pos) = self.offset(pos)?;
        (header.current_rows_in_root_indirect_block, pos) = self.u16(pos)?;
        Ok((header, pos))
    }

    // From Size of Filtered Root Direct Block to the end of I/O Filter Information.
    #[inline(always)]
    fn filter_fields(
        &self,
        mut header: FractalHeapHeader,
        mut pos: usize,
    ) -> Result<(FractalHeapHeader, usize), FormatError>
        requires { legal self.now.length_size ≡ true }
        ensures read { result ≡ filter_fields header self.now.file.now pos self.now.length_size }
        ensures next { IfOk result (λ group. group.1
            ≡ pos + filters_size group.0.io_filter_encoded_length self.now.length_size) }
    {
        let length_size = usize::from(self.length_size);
        let filter_length = usize::from(header.io_filter_encoded_length);
        ensure_len(self.file, pos, length_size + 4 + filter_length + 4)?;
        (header.filtered_root_direct_block_size, pos) = self.untested(pos, self.length_size);
        header.io_filter_mask = read_u32_le(self.file, pos);
        pos += 4;
        header.io_filter_information_position = pos as u64;
        Ok((header, pos + filter_length))
    }

    /// From Size of Filtered Root Direct Block to I/O Filter Information, if the header has filters, and where the
    /// checksum stands. One test is made for all of them and the checksum.
    #[inline(always)]
    pub fn filters(
        &self,
        header: FractalHeapHeader,
        pos: usize,
    ) -> Result<(FractalHeapHeader, usize), FormatError>
        requires { legal self.now.length_size ≡ true }
        ensures read { result ≡ filters_at header self.now.file.now pos self.now.length_size }
        ensures next { IfOk result (λ group. group.1
            ≡ sum_place group.0.io_filter_encoded_length self.now.length_size pos) }
    {
        if header.io_filter_encoded_length == 0 {
            return Ok((header, pos));
        }
        self.filter_fields(header, pos)
    }
}
