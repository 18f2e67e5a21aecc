//! How an answer is handed to C: the number is returned, the two values go into a lent slot.
ghost use Rattle.std.specs.Prelude.{◌≡◌};
ghost use Rattle.fields.specs.Slot.{slot_number, slot_bytes};

use crate::stores::Writer;
use refusals::{Answer, SLICE_TOO_SHORT};

/// How many bytes the two values have.
pub const SLOT_SIZE: usize = 16;

/// Puts the two values into the first 16 bytes of `slot`, little-endian, and returns the number. A
/// shorter slot is left as it is and gives 13, whatever the answer is. A C function that has a slot
/// fills it by this.
pub fn put_answer(slot: &mut [u8], answer: Answer) -> u32
    ensures number { result ≡ slot_number slot.old answer }
    ensures slot_after { slot.new ≡ slot_bytes slot.old answer }
{
    if slot.len() < SLOT_SIZE {
        return SLICE_TOO_SHORT;
    }
    let mut writer = Writer::new(slot);
    writer.put_number(answer.first, 8);
    writer.put_number(answer.second, 8);
    answer.number
}
