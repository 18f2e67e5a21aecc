//! The fields of a file. Each read puts the two values into the first 16 bytes of the slot; a shorter slot gives 13
//! before all else.
ghost use Rattle.std.specs.Prelude.{◌≡◌, if◌then◌else◌};
ghost use Rattle.fields.specs.Undefined.{is_undefined_addr};
ghost use Rattle.fields.specs.Fields.{len_ensured, offset_at, length_at};
ghost use Rattle.fields.specs.Slot.{slot_number, slot_bytes};
ghost use Rattle.refusals.specs.Refusals.{test_report};
ghost use Rattle.tools_c.specs.Reports.{number_report};

use fields::convert::{is_undefined_addr, to_usize};
use fields::slot::put_answer;
use fields::{ensure_len, read_length, read_offset};
use refusals::Reported;

/// Tests that `needed` bytes stand at `offset`; the end that they would have and the number of bytes where not.
#[unsafe(no_mangle)]
pub extern "C" fn tools_ensure_len(bytes: &[u8], offset: u64, needed: u64, slot: &mut [u8]) -> u32
    ensures number { result ≡ slot_number slot.old
        (test_report (len_ensured bytes.now offset needed)) }
    ensures slot_after { slot.new ≡ slot_bytes slot.old
        (test_report (len_ensured bytes.now offset needed)) }
{
    put_answer(
        slot,
        ensure_len(bytes, to_usize(offset), to_usize(needed)).answer(),
    )
}

/// The address of `offset_size` bytes at `pos`.
#[unsafe(no_mangle)]
pub extern "C" fn tools_read_offset(bytes: &[u8], pos: u64, offset_size: u8, slot: &mut [u8]) -> u32
    ensures number { result ≡ slot_number slot.old
        (number_report (offset_at bytes.now pos offset_size)) }
    ensures slot_after { slot.new ≡ slot_bytes slot.old
        (number_report (offset_at bytes.now pos offset_size)) }
{
    put_answer(
        slot,
        read_offset(bytes, to_usize(pos), offset_size).answer(),
    )
}

/// The length of `length_size` bytes at `pos`.
#[unsafe(no_mangle)]
pub extern "C" fn tools_read_length(bytes: &[u8], pos: u64, length_size: u8, slot: &mut [u8]) -> u32
    ensures number { result ≡ slot_number slot.old
        (number_report (length_at bytes.now pos length_size)) }
    ensures slot_after { slot.new ≡ slot_bytes slot.old
        (number_report (length_at bytes.now pos length_size)) }
{
    put_answer(
        slot,
        read_length(bytes, to_usize(pos), length_size).answer(),
    )
}

/// The value; the host's indices have 64 bits.
#[unsafe(no_mangle)]
pub extern "C" fn tools_to_usize(value: u64) -> u64
    ensures { result ≡ value }
{
    to_usize(value) as u64
}

/// 1 for the undefined address, 0 for any other.
#[unsafe(no_mangle)]
pub extern "C" fn tools_is_undefined_addr(addr: u64, offset_size: u8) -> u32
    ensures { result ≡ if is_undefined_addr addr offset_size then 1 else 0 }
{
    u32::from(is_undefined_addr(addr, offset_size))
}
