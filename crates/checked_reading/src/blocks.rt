//! The tests of one block, in their order: the offset size, the block's length, its signature, version, heap header
//! address and heap offset, its checksum.
ghost use Rattle.std.specs.Prelude.{◌≡◌, ◌+◌, ◌≤◌, ◌<◌, ◌^◌, true, length, OnOk};
ghost use Rattle.fields.specs.LittleEndian.{le_at};
ghost use Rattle.fields.specs.Widths.{legal};
ghost use Rattle.numbers.specs.Numbers.{saturated};
ghost use Rattle.reading.specs.Blocks.{entries_place};
ghost use Rattle.checked_reading.specs.Blocks.{stored_offset, same_checked};
ghost use Rattle.checked_reading.specs.Blocks.{block_sum_checked, room_checked};
ghost use Rattle.checked_reading.specs.Blocks.{has_checksum, head_checked, indirect_size};
ghost use Rattle.checked_reading.specs.Blocks.{indirect_in, indirect_checked};
ghost use Rattle.checked_reading.specs.Blocks.{direct_header_size, direct_in, direct_checked};

use crate::Checked;
use checksum::jenkins_lookup3;
use checksum::zeroed::lookup3_zeroed;
use fields::convert::to_usize;
use fields::little_endian::{read_le, read_u32_le, read_u64_le};
use fields::signature::has_signature;
use fields::{ensure_len, is_width};
use numbers::saturating_mul;
use reading::{DoublingTable, Search};
use refusals::FormatError;

// How many bytes an indirect block of `nrows` rows has, or 2^64 - 1 where they are more.
#[tactic(auto, using(crate::proofs::Sizes::size_cut))]
fn indirect_size(table: DoublingTable, offset_size: u8, nrows: u64) -> u64
    ensures { result ≡ saturated (indirect_size table offset_size nrows) }
{
    let slots = saturating_mul(nrows, table.table_width);
    let entries = saturating_mul(slots, u16::from(offset_size));
    entries.saturating_add((table.entries_place(offset_size) + 4) as u64)
}

// The number in the `count` bytes at `pos`, which has seven bytes before it: the eight bytes that end there, shifted.
#[tactic(auto, using(crate::proofs::Stored::none_stored))]
fn read_up_to_eight(block: &[u8], pos: usize, count: usize) -> u64
    requires behind { 7 ≤ pos }
    requires few { count ≤ 8 }
    requires room { pos + count ≤ length block.now }
    ensures { result ≡ le_at block.now pos count }
{
    if count == 0 {
        return 0;
    }
    read_u64_le(block, pos + count - 8) >> (8 * (8 - count))
}

// The heap offset that a block stores, of a field of more than eight bytes the first eight.
fn stored_offset(table: DoublingTable, offset_size: u8, block: &[u8]) -> u64
    requires width { 2 ≤ offset_size }
    requires room { entries_place table offset_size ≤ length block.now }
    ensures { result ≡ stored_offset table offset_size block.now }
{
    let count = table.block_offset_size().min(8);
    read_up_to_eight(block, 5 + usize::from(offset_size), count)
}

// A direct block of `size` bytes has room for its header, or 1.
fn check_room(header_size: u64, size: u64) -> Result<(), FormatError>
    ensures checked { result ≡ room_checked header_size size }
    ensures room { OnOk result (header_size ≤ size) }
{
    if size < header_size {
        return Err(FormatError::UnexpectedEof {
            expected: header_size,
            available: size,
        });
    }
    Ok(())
}

// The number that a block stores is the one wanted, or 19.
fn check_same(stored: u64, wanted: u64) -> Result<(), FormatError>
    ensures { result ≡ same_checked stored wanted }
{
    if stored != wanted {
        return Err(FormatError::ForeignBlock { stored, wanted });
    }
    Ok(())
}

// The checksum that a block stores is the one computed, or 18.
fn check_sum(stored: u32, computed: u32) -> Result<(), FormatError>
    ensures { result ≡ block_sum_checked stored computed }
{
    if stored != computed {
        return Err(FormatError::BlockChecksumMismatch { stored, computed });
    }
    Ok(())
}

impl Checked {
    // Whether direct blocks have a checksum.
    fn has_checksum(&self) -> bool
        ensures { result ≡ has_checksum self.now.flags }
    {
        self.flags / 2 % 2 == 1
    }

    // How many bytes the header of a direct block has.
    fn direct_header_size(&self, table: DoublingTable, offset_size: u8) -> usize
        ensures bytes { result ≡ direct_header_size self.now table offset_size }
        ensures bound { result < 2 ^ 16 }
    {
        let head = table.entries_place(offset_size);
        if self.has_checksum() { head + 4 } else { head }
    }

    // How a block begins: its signature, version 0, the heap header's address, the heap offset.
    #[tactic(auto, unfolding(crate::specs::Blocks::head_checked))]
    fn check_head(
        &self,
        search: &Search<'_>,
        block: &[u8],
        signature: &[u8],
        start: u64,
    ) -> Result<(), FormatError>
        requires width { legal search.now.offset_size ≡ true }
        requires letters { length signature.now ≡ 4 }
        requires room { entries_place search.now.table search.now.offset_size
            ≤ length block.now }
        ensures { result ≡ head_checked self.now search.now.table search.now.offset_size
            signature.now block.now start }
    {
        if !has_signature(block, 0, signature) {
            return Err(FormatError::InvalidFractalHeapSignature);
        }
        let version = block[4];
        if version != 0 {
            return Err(FormatError::InvalidFractalHeapVersion(version));
        }
        let address = read_le(block, 5, search.offset_size);
        check_same(address, self.heap_header_address)?;
        let heap_offset = stored_offset(search.table, search.offset_size, block);
        check_same(heap_offset, start)
    }

    // An indirect block by its bytes.
    #[tactic(auto, unfolding(crate::specs::Blocks::indirect_in))]
    fn check_indirect_bytes(
        &self,
        search: &Search<'_>,
        block: &[u8],
        start: u64,
    ) -> Result<(), FormatError>
        requires width { legal search.now.offset_size ≡ true }
        requires room { entries_place search.now.table search.now.offset_size + 4
            ≤ length block.now }
        ensures { result ≡ indirect_in self.now search.now.table search.now.offset_size
            block.now start }
    {
        self.check_head(search, block, b"FHIB", start)?;
        let end = block.len() - 4;
        check_sum(read_u32_le(block, end), jenkins_lookup3(&block[..end]))
    }

    // A direct block by its bytes.
    #[tactic(auto, unfolding(crate::specs::Blocks::direct_in))]
    fn check_direct_bytes(
        &self,
        search: &Search<'_>,
        block: &[u8],
        start: u64,
    ) -> Result<(), FormatError>
        requires width { legal search.now.offset_size ≡ true }
        requires room { direct_header_size self.now search.now.table search.now.offset_size
            ≤ length block.now }
        ensures { result ≡ direct_in self.now search.now.table search.now.offset_size
            block.now start }
    {
        self.check_head(search, block, b"FHDB", start)?;
        if !self.has_checksum() {
            return Ok(());
        }
        let place = search.table.entries_place(search.offset_size);
        check_sum(read_u32_le(block, place), lookup3_zeroed(block, place))
    }

    /// The tests of the indirect block of `nrows` rows at `addr`, which is to begin at the heap offset `start`. They
    /// give, in this order: 2, the offset size is none; 1, with the block's end and the file's length; 4, no signature
    /// FHIB; 5, not version 0; 19, with what is stored and what is wanted, the address before the heap offset; 18, with
    /// the checksum that is stored and the one of all bytes before it.
    // Inlined, so that the walk has what it seeks, and the block, in registers.
    #[inline(always)]
    #[tactic(auto, unfolding(crate::specs::Blocks::indirect_checked))]
    pub fn check_indirect_block(
        &self,
        search: &Search<'_>,
        addr: u64,
        nrows: u64,
        start: u64,
    ) -> Result<(), FormatError>
        ensures { result ≡ indirect_checked self.now search.now.table search.now.file.now
            search.now.offset_size addr nrows start }
    {
        if !is_width(search.offset_size) {
            return Err(FormatError::InvalidOffsetSize(search.offset_size));
        }
        let at = to_usize(addr);
        let size = to_usize(indirect_size(search.table, search.offset_size, nrows));
        ensure_len(search.file, at, size)?;
        self.check_indirect_bytes(search, &search.file[at..at + size], start)
    }

    /// The tests of the direct block of `size` bytes at `addr`, which is to begin at the heap offset `start`, in the
    /// order of those of an indirect block. Before its end is tested, a block that is smaller than its own header gives
    /// 1 with the header's length and `size`. The checksum, if direct blocks have one, is that of the whole block with
    /// the field itself as zero.
    #[tactic(auto, unfolding(crate::specs::Blocks::direct_checked), using(crate::proofs::Sizes::part_length))]
    pub fn check_direct_block(
        &self,
        search: &Search<'_>,
        addr: u64,
        size: u64,
        start: u64,
    ) -> Result<(), FormatError>
        ensures checked { result ≡ direct_checked self.now search.now.table search.now.file.now
            search.now.offset_size addr size start }
        ensures there { OnOk result (addr + size ≤ length search.now.file.now) }
    {
        if !is_width(search.offset_size) {
            return Err(FormatError::InvalidOffsetSize(search.offset_size));
        }
        let header_size = self.direct_header_size(search.table, search.offset_size);
        check_room(header_size as u64, size)?;
        let (at, count) = (to_usize(addr), to_usize(size));
        ensure_len(search.file, at, count)?;
        self.check_direct_bytes(search, &search.file[at..at + count], start)
    }
}
