//! The indirect blocks on the way to a slot.
ghost use Rattle.std.specs.Prelude.{◌≡◌, ◌≤◌, IfOk, OnOk, None};
ghost use Rattle.table.specs.Table.{fixed};
ghost use Rattle.slot_engines.specs.Way.{entered_in, WayLeads, WaysLead};

use refusals::FormatError;
use table::slot_places::table_slot;
use table::{MAX_HEAP_SPACE, is_direct, lookup};

/// An indirect block: row and column of its slot in the block that it stands in, and the heap offset at which it
/// begins.
#[derive(Clone, Copy)]
pub struct EnteredBlock {
    pub row: u64,
    pub col: u64,
    pub start: u64,
}

/// The indirect block that is entered at a place, counted from 0, on the way from the root to the slot of a heap
/// offset; none where the way is shorter. By the format each lies inside the one before, the last has the slot in one of
/// its direct rows, and there are at most seven. An offset at or above 2^40 is refused by `OutsideHeap`.
pub fn entered(offset: u64, place: u64) -> Result<Option<EnteredBlock>, FormatError>
    ensures block { result ≡ entered_in fixed offset place }
    ensures leads { OnOk result (WayLeads fixed offset) }
    ensures seven_at_most { 7 ≤ place → IfOk result (λ block. block ≡ None) }
{
    if offset >= MAX_HEAP_SPACE {
        return Err(FormatError::OutsideHeap(offset));
    }
    let mut base = 0;
    let mut past = offset;
    let mut left = place;
    loop {
        let at = table_slot(past);
        if is_direct(at.row) {
            return Ok(None);
        }
        base += at.start;
        if left == 0 {
            return Ok(Some(EnteredBlock {
                row: at.row,
                col: lookup(past).col,
                start: base,
            }));
        }
        past -= at.start;
        left -= 1;
    }
}

/// A law: at any table the way to an offset's slot is the format's.
pub fn ways_lead_to_their_slots()
    ensures { WaysLead }
{}
