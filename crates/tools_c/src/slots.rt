//! Direct slots: both engines, the blocks on the way, and how many slots there are.
ghost use Rattle.std.specs.Prelude.{◌≡◌, ◌-◌, length, nat_lt, if◌then◌else◌, slice_index};
ghost use Rattle.refusals.specs.Refusals.{report_of, slice_too_short};
ghost use Rattle.fields.specs.Slot.{slot_number, slot_bytes};
ghost use Rattle.table.specs.Table.{fixed, heap_space};
ghost use Rattle.slot_walk.specs.Search.{counted_slot};
ghost use Rattle.slot_walk.specs.Counting.{slot_counts};
ghost use Rattle.slot_engines.specs.Engines.{located_slot};
ghost use Rattle.slot_engines.specs.Way.{entered_in};
ghost use Rattle.tools_c.specs.Lists.{listed_number, listed_by};
ghost use Rattle.tools_c.specs.SlotTools.{slot_report, asked_places, asked_by};
ghost use Rattle.tools_c.specs.SlotTools.{entered_places, entered_numbers};

use crate::lists::put_refusal;
use fields::slot::put_answer;
use refusals::{Answer, FormatError, Reported, SLICE_TOO_SHORT};
use slot_engines::asking::ask_both;
use slot_engines::locate;
use slot_engines::way::entered;
use slot_walk::counting::{SIZES, count_slots};
use slot_walk::finding::count_to;
use table::Slot;

// How many numbers tell what both engines answer: number and pair of each, and whether they agree.
const ASKED_PLACES: usize = 7;

// And how many a block on the way: whether there is one, and its row, column and heap offset.
const ENTERED_PLACES: usize = 4;

fn answer_of(found: Result<Slot, FormatError>) -> Answer
    ensures { result ≡ report_of slot_report found }
{
    match found {
        Ok(slot) => Answer::accepted(slot.start, slot.size),
        Err(refusal) => refusal.answer(),
    }
}

/// The heap offset and the bytes of an offset's direct slot, by descent.
#[unsafe(no_mangle)]
pub extern "C" fn tools_locate(offset: u64, slot: &mut [u8]) -> u32
    ensures number { result
        ≡ slot_number slot.old (report_of slot_report (located_slot fixed offset)) }
    ensures slot_after { slot.new
        ≡ slot_bytes slot.old (report_of slot_report (located_slot fixed offset)) }
{
    put_answer(slot, answer_of(locate(offset)))
}

/// The same, counted out from 0.
#[unsafe(no_mangle)]
pub extern "C" fn tools_count_to(offset: u64, slot: &mut [u8]) -> u32
    ensures number { result
        ≡ slot_number slot.old (report_of slot_report (counted_slot fixed offset)) }
    ensures slot_after { slot.new
        ≡ slot_bytes slot.old (report_of slot_report (counted_slot fixed offset)) }
{
    put_answer(slot, answer_of(count_to(offset)))
}

/// Both engines' answers, in the first places of a list of at least 7: number and pair of the one that counts, then those
/// of the descent, and 1 where both name a slot, and the same, else 0. A shorter list gives 13 and is left as it is.
#[tactic(auto, unfolding(fields::specs::LittleEndian::put))]
#[unsafe(no_mangle)]
pub extern "C" fn tools_ask_both(offset: u64, answers: &mut [u64]) -> u32
    ensures number { result ≡ if nat_lt (length answers.old) asked_places then slice_too_short else 0 }
    ensures answers_after { answers.new
        ≡ asked_by answers.old (counted_slot fixed offset) (located_slot fixed offset) }
    ensures agree { result ≡ 0
        → slice_index answers.new (asked_places - 1) ≡ (if nat_lt offset (heap_space fixed) then 1 else 0) }
{
    if answers.len() < ASKED_PLACES {
        return SLICE_TOO_SHORT;
    }
    let asked = ask_both(offset);
    let counted = answer_of(asked.counted);
    let located = answer_of(asked.located);
    answers[..ASKED_PLACES].copy_from_slice(&[
        u64::from(counted.number),
        counted.first,
        counted.second,
        u64::from(located.number),
        located.first,
        located.second,
        u64::from(asked.agree()),
    ]);
    0
}

/// The indirect block at a place, counted from 0, on the way from the root to an offset's slot: 1, its row, column and
/// heap offset, or four zeros where the way is shorter, in the first places of a list of at least 4. A refusal's pair is
/// put there too; a shorter list gives 13 and is left as it is.
#[tactic(auto, unfolding(fields::specs::LittleEndian::put))]
#[unsafe(no_mangle)]
pub extern "C" fn tools_entered(offset: u64, place: u64, block: &mut [u64]) -> u32
    ensures number { result ≡ listed_number entered_places block.old (entered_in fixed offset place) }
    ensures block_after { block.new
        ≡ listed_by entered_places entered_numbers block.old (entered_in fixed offset place) }
{
    if block.len() < ENTERED_PLACES {
        return SLICE_TOO_SHORT;
    }
    match entered(offset, place) {
        Ok(Some(b)) => {
            block[..ENTERED_PLACES].copy_from_slice(&[1, b.row, b.col, b.start]);
            0
        }
        Ok(None) => {
            block[..ENTERED_PLACES].copy_from_slice(&[0; ENTERED_PLACES]);
            0
        }
        Err(refused) => put_refusal(block, refused),
    }
}

/// How many direct slots a heap of so many rows has of each size, smallest first, in the first places of a list of at
/// least 7. A refusal's pair is put there too; a shorter list gives 13 and is left as it is.
#[tactic(auto, unfolding(fields::specs::LittleEndian::put))]
#[unsafe(no_mangle)]
pub extern "C" fn tools_count_slots(rows: u64, counts: &mut [u64]) -> u32
    ensures number { result ≡ listed_number SIZES counts.old (slot_counts fixed SIZES rows) }
    ensures counts_after { counts.new
        ≡ listed_by SIZES (λ numbers. numbers) counts.old (slot_counts fixed SIZES rows) }
{
    if counts.len() < SIZES {
        return SLICE_TOO_SHORT;
    }
    match count_slots(rows) {
        Ok(numbers) => {
            counts[..SIZES].copy_from_slice(&numbers);
            0
        }
        Err(refused) => put_refusal(counts, refused),
    }
}
