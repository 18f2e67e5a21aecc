//! The indirect blocks of a region: a block walks its slots, and an indirect slot opens a block,
//! which is written before the walk goes on. The entries of a block are written on the way back,
//! when its place is known, so that no list of them is kept.
#![tactic(auto)]

pub mod cursor;

ghost use Rattle.std.specs.Prelude.{◌≡◌, ◌+◌, ◌^◌, ◌<◌, ◌≤◌, length};
ghost use Rattle.table.specs.Table.{fixed, row_bits, row_offset};
ghost use Rattle.region_indirects.specs.Requires.{entry_bytes, BlockFits, BlockWritten, SlotsFit};
ghost use Rattle.region_indirects.specs.Requires.{SlotsWritten};
ghost use Rattle.region_indirects.specs.Requires.{SlotFits, SlotWritten, span_left};

use crate::cursor::{Cursor, Slots, begins_before};
use region_blocks::indirect::seal_indirect;
use region_blocks::{Site, head_size};
use table::block_sizes::indirect_block_size;
use table::{MAX_HEAP_SPACE, MAX_ROOT_ROWS, TABLE_WIDTH, is_direct, row_block_size};

/// What a walk goes by: where the placed direct blocks begin in the heap, and where all stands in
/// the file.
#[derive(Clone, Copy)]
pub struct Walk<'a> {
    pub starts: &'a [u64],
    pub site: Site,
}

/// What it writes to, and where it stands.
#[derive(Drop)]
pub struct Output<'a> {
    pub region: &'a mut [u8],
    pub cursor: Cursor,
}

impl<'a> Output<'a> {
    /// At the front of a region, the first direct block being at the address `next`.
    pub fn new(region: &'a mut [u8], next: u64) -> Output<'a>
        ensures same_reference { result.region.ghost_name ≡ region.entry.ghost_name }
        ensures region { result.region.now ≡ region.old }
        ensures cursor { result.cursor ≡ record { index = 0; place = 0; next = next } }
    {
        Output {
            region,
            cursor: Cursor {
                index: 0,
                place: 0,
                next,
            },
        }
    }
}

// An address, or the undefined one, over all of a slot.
fn put_entry(slot: &mut [u8], entry: Option<u64>)
    requires { length slot.old ≤ 8 }
    ensures { slot.new ≡ entry_bytes (length slot.old) entry }
{
    match entry {
        Some(address) => {
            let bytes = address.to_le_bytes();
            slot.copy_from_slice(&bytes[..slot.len()]);
        }
        None => slot.fill(0xFF),
    }
}

// The rows fall from block to block, the slots that are left within one. At most 592 calls are open
// at once: four slots of each row in blocks of 29, 26, 23, .., 8 rows.
impl Walk<'_> {
    /// Writes a block of `rows` rows at a heap offset: the blocks in its slots, then the block
    /// itself, whose address is given.
    #[cycle(walk)]
    pub fn block(&self, out: &mut Output<'_>, rows: u64, offset: u64) -> u64
        requires rows_of_root { rows ≤ MAX_ROOT_ROWS }
        requires end_in_heap { offset + row_offset fixed rows ≤ MAX_HEAP_SPACE }
        requires fits { BlockFits self.now out.old rows offset }
        ensures same_reference { out.new.region.ghost_name ≡ out.old.region.ghost_name }
        ensures wrote { BlockWritten self.now out.old rows offset result out.new }
    {
        let head = head_size(self.site.offset_size) as usize;
        self.slots(out, rows, Slots::all(offset), head);
        let place = out.cursor.place;
        let size = indirect_block_size(rows, self.site.offset_size);
        let end = place + size as usize;
        seal_indirect(&mut out.region[place..end], offset, self.site);
        out.cursor.place = end;
        self.site.region_address + place as u64
    }

    // The last slots of a block of `rows` rows. Their entries stand from `at` on in the block,
    // whose place is known once the blocks of all of them are written. The slots of a row behind
    // its last block are passed at once: without this a region of one object of 2,026 bytes took
    // 945 ns, with it 805.
    #[cycle(walk)]
    fn slots(&self, out: &mut Output<'_>, rows: u64, slots: Slots, at: usize)
        requires rows_of_root { rows ≤ MAX_ROOT_ROWS }
        requires row_in_block { slots.row ≤ rows }
        requires slot_left { 0 < slots.left }
        requires left_in_row { slots.left ≤ TABLE_WIDTH }
        requires end_in_heap { slots.offset + span_left rows slots ≤ MAX_HEAP_SPACE }
        requires fits { SlotsFit self.now out.old rows slots at }
        ensures same_reference { out.new.region.ghost_name ≡ out.old.region.ghost_name }
        ensures wrote { SlotsWritten self.now out.old rows slots at out.new }
    {
        if slots.row >= rows {
            return;
        }
        let width = self.site.offset_size as usize;
        let size = row_block_size(slots.row);
        let row_end = slots.offset + slots.left * size;
        if !begins_before(self.starts, out.cursor.index, row_end) {
            let entries = slots.left as usize * width;
            self.slots(out, rows, slots.next_row(row_end), at + entries);
            let first = out.cursor.place + at;
            out.region[first..first + entries].fill(0xFF);
            return;
        }
        let entry = self.slot(out, slots.row, slots.offset);
        self.slots(out, rows, slots.next(size), at + width);
        let first = out.cursor.place + at;
        put_entry(&mut out.region[first..first + width], entry);
    }

    // One slot: without a block, with a direct one, or with a block that is walked in turn.
    #[cycle(walk)]
    fn slot(&self, out: &mut Output<'_>, row: u64, offset: u64) -> Option<u64>
        requires row_of_root { row < MAX_ROOT_ROWS }
        requires end_in_heap { offset + 2 ^ row_bits fixed row ≤ MAX_HEAP_SPACE }
        requires fits { SlotFits self.now out.old row offset }
        ensures same_reference { out.new.region.ghost_name ≡ out.old.region.ghost_name }
        ensures wrote { SlotWritten self.now out.old row offset result out.new }
    {
        let size = row_block_size(row);
        if !begins_before(self.starts, out.cursor.index, offset + size) {
            return None;
        }
        if is_direct(row) {
            let address = out.cursor.next;
            out.cursor.index += 1;
            out.cursor.next += size;
            return Some(address);
        }
        // A block of two rows fewer fills the slot: a row has four slots, and each row but the
        // first twice the bytes of the one before.
        Some(self.block(out, row - 2, offset))
    }
}
