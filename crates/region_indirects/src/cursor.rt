//! Where a walk over the slots of indirect blocks stands, and the slot that comes next.
ghost use Rattle.std.specs.Prelude.{◌≡◌, ◌+◌, ◌^◌, ◌<◌, ◌≤◌, drop};
ghost use Rattle.region_indirects.specs.Walk.{begins_before};

use table::{MAX_ROOT_ROWS, TABLE_WIDTH};

/// The next placed direct block and its address, in the file and not from the region on, and the
/// next free place in the region.
#[derive(Clone, Copy)]
pub struct Cursor {
    pub index: usize,
    pub place: usize,
    pub next: u64,
}

/// Whether the next placed block begins before the heap offset `end`.
#[tactic(auto, using(crate::proofs::Walking::begins_some, crate::proofs::Walking::begins_none))]
pub fn begins_before(starts: &[u64], index: usize, end: u64) -> bool
    ensures { result ≡ begins_before (drop index starts.now) end }
{
    starts.get(index).is_some_and(|start| *start < end)
}

/// The slots of an indirect block from one on: its row, how many slots the row has from it on, and
/// the heap offset at which it begins.
#[derive(Clone, Copy)]
pub struct Slots {
    pub row: u64,
    pub left: u64,
    pub offset: u64,
}

impl Slots {
    ghost use Rattle.region_indirects.specs.Slots.{block_slots, next_slots, next_rows};

    /// All slots of a block at a heap offset.
    pub fn all(offset: u64) -> Slots
        ensures { result ≡ block_slots offset }
    {
        Slots {
            row: 0,
            left: TABLE_WIDTH,
            offset,
        }
    }

    /// The slots behind the first one, which has `size` bytes.
    pub fn next(self, size: u64) -> Slots
        requires row_of_root { self.row ≤ MAX_ROOT_ROWS }
        requires slot_left { 0 < self.left }
        requires end_fits { self.offset + size < 2 ^ 64 }
        ensures { result ≡ next_slots self size }
    {
        let offset = self.offset + size;
        if self.left == 1 {
            return self.next_row(offset);
        }
        Slots {
            row: self.row,
            left: self.left - 1,
            offset,
        }
    }

    /// The slots of the rows behind the first one, which ends at `row_end`.
    pub fn next_row(self, row_end: u64) -> Slots
        requires { self.row ≤ MAX_ROOT_ROWS }
        ensures { result ≡ next_rows self row_end }
    {
        Slots {
            row: self.row + 1,
            left: TABLE_WIDTH,
            offset: row_end,
        }
    }
}
