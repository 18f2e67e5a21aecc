//! Decoding heap IDs: the type of an ID (`types`), and the heap offset and the length in a managed one.
pub mod types;

ghost use Rattle.std.specs.Prelude.{◌≡◌, ◌^◌, ◌*◌, ◌%◌, ◌/◌, ◌<◌, ◌≤◌, min, length};
ghost use Rattle.fields.specs.LittleEndian.{le_at};
ghost use Rattle.ids.specs.Decoded.{length_bytes_in, split_id, decoded_id, IgnoresPadding};

use crate::decode::types::type_of;
use fields::little_endian::read_u64_le;
use numbers::bytes_needed;
use reading::DoublingTable;
use refusals::{Answer, FormatError, Reported};

/// How many values a byte has, and so what each byte of a number counts for more than the byte before it.
const BYTE_VALUES: u64 = 256;

/// Where a managed object lies in the heap space, and how many bytes it has.
#[derive(Clone, Copy, Debug, PartialEq, Eq)]
pub struct ManagedId {
    pub offset: u64,
    pub length: u64,
}

impl Reported for ManagedId {
    ghost use Rattle.ids.specs.Decoded.{id_report};

    ghost report = { id_report };

    fn answer(self) -> Answer {
        Answer::accepted(self.offset, self.length)
    }
}

#[tactic(auto, using(crate::proofs::Decoding::mod_wide))]
fn low_bits(x: u64, bits: u64) -> u64
    ensures { result ≡ x % 2 ^ bits }
{
    if bits < 64 { x % (1u64 << bits) } else { x }
}

#[tactic(auto, using(crate::proofs::Decoding::div_wide))]
fn high_bits(x: u64, bits: u64) -> u64
    ensures { result ≡ x / 2 ^ bits }
{
    if bits < 64 { x >> bits } else { 0 }
}

// The smaller of the two sizes: no managed object is longer.
fn largest_length(table: DoublingTable, max_managed_object_size: u32) -> u64
    ensures { result ≡ min table.max_direct_block_size max_managed_object_size }
{
    let largest_block = table.max_direct_block_size;
    largest_block.min(u64::from(max_managed_object_size))
}

// How many bytes Length has in an ID.
fn length_bytes(table: DoublingTable, max_managed_object_size: u32) -> u64
    ensures needed { result ≡ length_bytes_in table max_managed_object_size }
    ensures bound { result ≤ 8 }
{
    bytes_needed(largest_length(table, max_managed_object_size))
}

// The offset, in so many low bits of a number, and the length, in so many bytes behind them.
fn split_id(heap_bits: u16, length_bytes: u64, number: u64) -> ManagedId
    requires { length_bytes ≤ 8 }
    ensures { result ≡ split_id heap_bits length_bytes number }
{
    let offset_bits = u64::from(heap_bits);
    ManagedId {
        offset: low_bits(number, offset_bits),
        length: low_bits(high_bits(number, offset_bits), 8 * length_bytes),
    }
}

// The number after the first byte of an ID that has fewer than eight bytes.
fn short_number(id: &[u8]) -> u64
    requires { (0 < length id.now) × (length id.now < 8) }
    ensures { result ≡ le_at id.now 1 8 }
{
    let mut bytes = [0u8; 8];
    bytes[..id.len() - 1].copy_from_slice(&id[1..]);
    read_u64_le(&bytes, 0)
}

// The first eight bytes after byte 0, as one number; IDs of eight bytes, seven after byte 0, are usual.
fn number_behind_type(id: &[u8]) -> u64
    requires { 0 < length id.now }
    ensures { result ≡ le_at id.now 1 8 }
{
    let bytes = id.len();
    if bytes > 8 {
        return read_u64_le(id, 1);
    }
    if bytes == 8 {
        return read_u64_le(id, 0) / BYTE_VALUES;
    }
    short_number(id)
}

/// The heap offset and the length in a managed ID, by three numbers of the heap's header: the bits of a heap offset and
/// the largest direct block, both in the table, and the largest size of a managed object. The offset is in the low bits
/// of the number in the first eight bytes after byte 0, the length in the bits behind them, in as many bytes as the
/// smaller of the two sizes needs. What an ID has behind these is not looked at, and of what it lacks the bits are 0.
///
/// An empty ID gives 1 with (1, 0), one of another type 6 with the type and 0.
pub fn decode_managed_id(
    table: DoublingTable,
    max_managed_object_size: u32,
    id: &[u8],
) -> Result<ManagedId, FormatError>
    ensures decoded { result ≡ decoded_id table max_managed_object_size id.now }
    ensures ignores_padding { IgnoresPadding table max_managed_object_size id.now result }
{
    if id.is_empty() {
        return Err(FormatError::UnexpectedEof {
            expected: 1,
            available: 0,
        });
    }
    let kind = type_of(id[0]);
    if kind != 0 {
        return Err(FormatError::InvalidHeapIdType(kind));
    }
    let length_bytes = length_bytes(table, max_managed_object_size);
    Ok(split_id(table.max_heap_size, length_bytes, number_behind_type(id)))
}
