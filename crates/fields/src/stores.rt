//! Little-endian stores into a lent slice: addresses, tested, a writer that goes through a slice,
//! and two laws, each the contract of a function.
pub mod writer;

ghost use Rattle.std.specs.Prelude.{◌≡◌, ◌+◌, ◌*◌, ◌%◌, ◌^◌, ◌≤◌, true, length, replicate, Ok};
ghost use Rattle.std.specs.Prelude.{OnOk, OnErr};
ghost use Rattle.fields.specs.LittleEndian.{le, put};
ghost use Rattle.fields.specs.Widths.{legal};
ghost use Rattle.fields.specs.Fields.{offset_at};
ghost use Rattle.fields.specs.Undefined.{undefined_address};
ghost use Rattle.fields.specs.Stores.{store_ensured};
ghost use Rattle.fields.specs.Laws.{StoresReadBack, OnesUndefined};

use crate::{has_room, offset_width};
use refusals::FormatError;
pub use writer::Writer;

// Stores the `width` low bytes of `value` at `pos`.
fn store_le(bytes: &mut [u8], pos: usize, value: u64, width: usize)
    requires narrow { width ≤ 8 }
    requires room { pos + width ≤ length bytes.old }
    ensures { bytes.new ≡ put bytes.old pos (le width value) }
{
    bytes[pos..pos + width].copy_from_slice(&value.to_le_bytes()[..width]);
}

// Tests that an address of `offset_size` bytes can be stored at `pos` of `lent` bytes.
fn ensure_store(lent: usize, pos: usize, offset_size: u8) -> Result<(), FormatError>
    ensures tested { result ≡ store_ensured lent pos offset_size }
    ensures width { OnOk result (legal offset_size ≡ true) }
    ensures there { OnOk result (pos + offset_size ≤ lent) }
{
    let width = offset_width(offset_size)?;
    let needed = usize::from(width.bytes());
    if !has_room(lent, pos, needed) {
        return Err(FormatError::SliceTooShort {
            needed: pos.saturating_add(needed) as u64,
            lent: lent as u64,
        });
    }
    Ok(())
}

/// Stores the low bytes of `value` as an address of `offset_size` bytes at `pos`. A size that is
/// none gives 2, a slice that ends too early 13, in this order; then the slice stays as it is. Of
/// the original's file writer, whose source is not at hand, two facts are known: which bytes this
/// stores, and which `write_undef_offset`.
#[tactic(auto, using(crate::proofs::Storing::addresses))]
pub fn write_offset(
    bytes: &mut [u8],
    pos: usize,
    value: u64,
    offset_size: u8,
) -> Result<(), FormatError>
    ensures tested { result ≡ store_ensured (length bytes.old) pos offset_size }
    ensures stored { OnOk result (bytes.new ≡ put bytes.old pos (le offset_size value)) }
    ensures reads_back { OnOk result (offset_at bytes.new pos offset_size
        ≡ Ok (value % 2 ^ (8 * offset_size))) }
    ensures untouched { OnErr result (bytes.new ≡ bytes.old) }
{
    ensure_store(bytes.len(), pos, offset_size)?;
    store_le(bytes, pos, value, offset_size as usize);
    Ok(())
}

/// Stores the undefined address of `offset_size` bytes at `pos`, with the refusals of
/// `write_offset`.
#[tactic(auto, using(crate::proofs::Storing::undefined_addresses))]
pub fn write_undef_offset(bytes: &mut [u8], pos: usize, offset_size: u8) -> Result<(), FormatError>
    ensures tested { result ≡ store_ensured (length bytes.old) pos offset_size }
    ensures stored { OnOk result (bytes.new ≡ put bytes.old pos (replicate offset_size 0xFF)) }
    ensures reads_back { OnOk result (offset_at bytes.new pos offset_size
        ≡ Ok (undefined_address offset_size)) }
    ensures untouched { OnErr result (bytes.new ≡ bytes.old) }
{
    ensure_store(bytes.len(), pos, offset_size)?;
    let end = pos + offset_size as usize;
    bytes[pos..end].fill(0xFF);
    Ok(())
}

/// What is stored reads back, at every width, and all else is as it was.
pub fn stores_read_back()
    ensures { StoresReadBack }
{}

/// The undefined address is the low bytes of 2^64 - 1.
pub fn ones_are_undefined()
    ensures { OnesUndefined }
{}
