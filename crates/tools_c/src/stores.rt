//! Stores. Each puts the two values into the first 16 bytes of the slot; a shorter slot gives 13 before anything
//! is stored.
ghost use Rattle.std.specs.Prelude.{◌≡◌, ◌<◌, length, replicate};
ghost use Rattle.fields.specs.LittleEndian.{le, put};
ghost use Rattle.fields.specs.Slot.{slot_number, slot_bytes};
ghost use Rattle.tools_c.specs.StoreTools.{store_report};

use fields::slot::{SLOT_SIZE, put_answer};
use fields::stores::{write_offset, write_undef_offset};
use refusals::{Reported, SLICE_TOO_SHORT};

/// Stores the low bytes of `value` as an address of `offset_size` bytes at `pos`: 2 where the size is none, 13 where
/// `bytes` ends too early.
#[unsafe(no_mangle)]
pub extern "C" fn tools_write_offset(
    bytes: &mut [u8],
    pos: u64,
    value: u64,
    offset_size: u8,
    slot: &mut [u8],
) -> u32
    ensures number { result
        ≡ slot_number slot.old (store_report (length bytes.old) pos offset_size) }
    ensures slot_after { slot.new
        ≡ slot_bytes slot.old (store_report (length bytes.old) pos offset_size) }
    ensures stored { result ≡ 0 → bytes.new ≡ put bytes.old pos (le offset_size value) }
    ensures untouched { 0 < result → bytes.new ≡ bytes.old }
{
    if slot.len() < SLOT_SIZE {
        return SLICE_TOO_SHORT;
    }
    let stored = write_offset(bytes, pos as usize, value, offset_size);
    put_answer(slot, stored.answer())
}

/// Stores the undefined address of `offset_size` bytes at `pos`, with the refusals of `tools_write_offset`.
#[unsafe(no_mangle)]
pub extern "C" fn tools_write_undef_offset(
    bytes: &mut [u8],
    pos: u64,
    offset_size: u8,
    slot: &mut [u8],
) -> u32
    ensures number { result
        ≡ slot_number slot.old (store_report (length bytes.old) pos offset_size) }
    ensures slot_after { slot.new
        ≡ slot_bytes slot.old (store_report (length bytes.old) pos offset_size) }
    ensures stored { result ≡ 0 → bytes.new ≡ put bytes.old pos (replicate offset_size 0xFF) }
    ensures untouched { 0 < result → bytes.new ≡ bytes.old }
{
    if slot.len() < SLOT_SIZE {
        return SLICE_TOO_SHORT;
    }
    let stored = write_undef_offset(bytes, pos as usize, offset_size);
    put_answer(slot, stored.answer())
}
