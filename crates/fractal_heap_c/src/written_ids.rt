//! The ID of an object that is planned, written for the loader.
ghost use Rattle.std.specs.Prelude.{◌≡◌, ◌<◌, length};
ghost use Rattle.fields.specs.LittleEndian.{put};
ghost use Rattle.fields.specs.Slot.{slot_number};
ghost use Rattle.table.specs.Table.{fixed};
ghost use Rattle.ids.specs.Checks.{written_id_report};
ghost use Rattle.ids.specs.Written.{managed_id, IdReadsBack};
ghost use Rattle.fractal_heap_c.specs.WrittenIds.{written_id_slot};

use fields::slot::{SLOT_SIZE, put_answer};
use ids::write_managed_id;
use refusals::{FormatError, Reported, SLICE_TOO_SHORT};

/// Writes the ID of the object of `size` bytes at the heap offset `offset` into the first eight bytes of `id`, and two
/// zeros into the slot. An offset of 2^40 or more and a size of 2^16 or more are refused by 16, fewer than eight bytes by
/// 13, of which the slot says nothing; then `id` stays as it is. A slot of fewer than 16 bytes gives 13 before all else.
#[unsafe(no_mangle)]
pub extern "C" fn fractal_heap_write_managed_id(
    offset: u64,
    size: u64,
    id: &mut [u8],
    slot: &mut [u8],
) -> u32
    ensures number { result ≡ slot_number slot.old (written_id_report offset size (length id.old)) }
    ensures slot_after { slot.new ≡ written_id_slot slot.old offset size (length id.old) }
    ensures written { result ≡ 0 → id.new ≡ put id.old 0 (managed_id fixed offset size) }
    ensures reads_back { result ≡ 0 → IdReadsBack offset size }
    ensures untouched { 0 < result → id.new ≡ id.old }
{
    if slot.len() < SLOT_SIZE {
        return SLICE_TOO_SHORT;
    }
    match write_managed_id(offset, size, id) {
        Err(FormatError::SliceTooShort { .. }) => SLICE_TOO_SHORT,
        written => put_answer(slot, written.answer()),
    }
}
