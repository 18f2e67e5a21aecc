//! Fields of an HDF5 file: bounds-checked reads of addresses and lengths in a lent slice. What is
//! stored, and how an answer is handed to C, is in modules.
#![tactic(auto)]

pub mod convert;
pub mod little_endian;
pub mod place;
pub mod signature;
pub mod slot;
pub mod stores;
pub mod width;

ghost use Rattle.std.specs.Prelude.{◌≡◌, ◌+◌, ◌≤◌, ◌↔◌, true, length, IsTrue, IsOk, OnOk, IfOk};
ghost use Rattle.std.specs.Prelude.{OnErr, Err};
ghost use Rattle.numbers.specs.Numbers.{saturated};
ghost use Rattle.fields.specs.Widths.{legal, byte_count};
ghost use Rattle.fields.specs.Fields.{len_ensured, plain_at, number_at, offset_at, length_at};

use crate::little_endian::{read_le, read_u16_le, read_u32_le};
pub use place::Place;
use refusals::FormatError;
pub use stores::Writer;
pub use width::Width;

// The refusal where no `needed` bytes stand at `offset`. The end that it reports saturates at 2^64
// - 1.
fn end_missing(bytes: &[u8], offset: usize, needed: usize) -> FormatError
    ensures { result ≡ FormatError.UnexpectedEof (saturated (offset + needed)) (length bytes.now) }
{
    FormatError::UnexpectedEof {
        expected: offset.saturating_add(needed) as u64,
        available: bytes.len() as u64,
    }
}

/// Tests that `needed` bytes stand at `offset`: else 1, with the end that they would have, and the
/// number of bytes.
pub fn ensure_len(bytes: &[u8], offset: usize, needed: usize) -> Result<(), FormatError>
    ensures tested { result ≡ len_ensured bytes.now offset needed }
    ensures there { OnOk result (offset + needed ≤ length bytes.now) }
{
    match bytes.len().checked_sub(needed) {
        Some(last) if offset <= last => Ok(()),
        _ => Err(end_missing(bytes, offset, needed)),
    }
}

/// The two bytes at `pos` as a number.
pub fn read_u16(bytes: &[u8], pos: usize) -> Result<u16, FormatError>
    ensures read { result ≡ plain_at bytes.now pos 2 }
    ensures there { OnOk result (pos + 2 ≤ length bytes.now) }
{
    ensure_len(bytes, pos, 2)?;
    Ok(read_u16_le(bytes, pos))
}

/// The four bytes at `pos` as a number.
pub fn read_u32(bytes: &[u8], pos: usize) -> Result<u32, FormatError>
    ensures read { result ≡ plain_at bytes.now pos 4 }
    ensures there { OnOk result (pos + 4 ≤ length bytes.now) }
{
    ensure_len(bytes, pos, 4)?;
    Ok(read_u32_le(bytes, pos))
}

/// Whether `needed` bytes stand at `pos` of `lent` bytes. No sum is formed that could wrap.
pub fn has_room(lent: usize, pos: usize, needed: usize) -> bool
    ensures { IsTrue result ↔ (pos + needed ≤ lent) }
{
    pos <= lent && needed <= lent - pos
}

/// Whether an address or a length may have this width.
pub fn is_width(width: u8) -> bool
    ensures { result ≡ legal width }
{
    matches!(width, 2 | 4 | 8)
}

/// The width of addresses of `offset_size` bytes, or 2 if there is none.
pub fn offset_width(offset_size: u8) -> Result<Width, FormatError>
    ensures legal { IsOk result ↔ (legal offset_size ≡ true) }
    ensures width { IfOk result (λ width. byte_count width ≡ offset_size) }
    ensures refused { OnErr result (result ≡ Err (FormatError.InvalidOffsetSize offset_size)) }
{
    Width::new(offset_size).ok_or(FormatError::InvalidOffsetSize(offset_size))
}

// A number of `width` bytes at `pos`; `invalid` is the refusal of a width that is none.
fn read_number(
    bytes: &[u8],
    pos: usize,
    width: u8,
    invalid: FormatError,
) -> Result<u64, FormatError>
    ensures read { result ≡ number_at bytes.now pos width invalid }
    ensures there { OnOk result (pos + width ≤ length bytes.now) }
{
    if !is_width(width) {
        return Err(invalid);
    }
    let needed = usize::from(width);
    match bytes.len().checked_sub(pos) {
        Some(rest) if needed <= rest => Ok(read_le(bytes, pos, width)),
        _ => Err(end_missing(bytes, pos, needed)),
    }
}

/// The address of `offset_size` bytes at `pos`.
pub fn read_offset(bytes: &[u8], pos: usize, offset_size: u8) -> Result<u64, FormatError>
    ensures read { result ≡ offset_at bytes.now pos offset_size }
    ensures there { OnOk result (pos + offset_size ≤ length bytes.now) }
{
    read_number(
        bytes,
        pos,
        offset_size,
        FormatError::InvalidOffsetSize(offset_size),
    )
}

/// The length of `length_size` bytes at `pos`.
pub fn read_length(bytes: &[u8], pos: usize, length_size: u8) -> Result<u64, FormatError>
    ensures read { result ≡ length_at bytes.now pos length_size }
    ensures there { OnOk result (pos + length_size ≤ length bytes.now) }
{
    read_number(
        bytes,
        pos,
        length_size,
        FormatError::InvalidLengthSize(length_size),
    )
}
