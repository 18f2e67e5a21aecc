//! The writer of managed heap IDs at the fixed geometry: eight bytes, of which the first, Version and Type, is 0, five
//! hold the object's heap offset and two its length.
mod checks;

ghost use Rattle.std.specs.Prelude.{◌≡◌, ◌^◌, ◌<◌, ◌≤◌, length, OnOk, OnErr};
ghost use Rattle.fields.specs.LittleEndian.{le, put};
ghost use Rattle.table.specs.Table.{fixed};
ghost use Rattle.ids.specs.Checks.{id_checked};
ghost use Rattle.ids.specs.Written.{managed_id, IdReadsBack};

use crate::write::checks::check_id;
use refusals::FormatError;
use table::{BLOCK_OFFSET_BYTES, MAX_HEAP_SPACE};

/// Bytes of Length in an ID: as many as the largest object needs, which is shorter than the largest direct block.
const LENGTH_BYTES: u64 = 2;

/// Lengths below this one have room there.
const LENGTH_SPACE: u64 = 1 << (8 * LENGTH_BYTES);

/// Bytes of an ID: Version and Type in one, Offset in as many as a heap offset has in blocks, Length.
pub const ID_LENGTH: usize = (1 + BLOCK_OFFSET_BYTES + LENGTH_BYTES) as usize;

/// What Offset counts for in the number that an ID is: it stands behind one byte.
const OFFSET_UNIT: u64 = 1 << 8;

/// What Length counts for there: it stands behind Offset.
const LENGTH_UNIT: u64 = OFFSET_UNIT << (8 * BLOCK_OFFSET_BYTES);

// The ID as one number: version and type, both 0, are its lowest byte, then come offset and length.
#[tactic(auto, using(crate::proofs::Ids::id_in_one))]
fn whole_id(offset: u64, size: u64) -> u64
    requires offset_in_heap { offset < MAX_HEAP_SPACE }
    requires size_bytes { size < LENGTH_SPACE }
    ensures { le 8 result ≡ managed_id fixed offset size }
{
    offset * OFFSET_UNIT + size * LENGTH_UNIT
}

// The eight bytes of an ID, written at once.
fn put_eight(id: &mut [u8], number: u64)
    requires { ID_LENGTH ≤ length id.old }
    ensures { id.new ≡ put id.old 0 (le 8 number) }
{
    id[..ID_LENGTH].copy_from_slice(&number.to_le_bytes());
}

/// Writes the ID of the object of `size` bytes at the heap offset `offset` into the first eight bytes of `id`. An
/// offset of 2^40 or more and a size of 2^16 or more give 16, fewer than eight bytes 13; then `id` stays as it is.
#[tactic(auto, using(crate::proofs::ReadBack::decodes))]
pub fn write_managed_id(offset: u64, size: u64, id: &mut [u8]) -> Result<(), FormatError>
    ensures answer { result ≡ id_checked fixed offset size (length id.old) }
    ensures written { OnOk result (id.new ≡ put id.old 0 (managed_id fixed offset size)) }
    ensures reads_back { OnOk result (IdReadsBack offset size) }
    ensures untouched { OnErr result (id.new ≡ id.old) }
{
    check_id(offset, size, id.len())?;
    put_eight(id, whole_id(offset, size));
    Ok(())
}
