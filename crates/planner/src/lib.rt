//! A plan under way: where it stands, and the objects that are added to it. Functions with a
//! `requires` serve our own crates and are no part of the interface.
#![tactic(auto)]

pub mod search;

ghost use Rattle.std.specs.Prelude.{◌≡◌, ◌+◌, ◌<◌, ◌≤◌, length, take, drop};
ghost use Rattle.std.specs.Prelude.{Some, None, Ok, Err, IfSome, IfNone, IfErr, OnOk};
ghost use Rattle.table.specs.Table.{fixed};
ghost use Rattle.table.specs.Sizes.{max_managed};
ghost use Rattle.planner.specs.Steps.{initial, step_of, run_from, offsets_from, starts_from};
ghost use Rattle.planner.specs.Filling.{fill_state, fill_offsets};
ghost use Rattle.planner.specs.Requires.{Small, Bounded, IsReached};
ghost use Rattle.planner.specs.Listing.{listed_from, HasRoom};

mod listing;

use crate::search::find_slot;
pub use listing::{Counted, Listing, Written};
use table::MAX_DIRECT_BLOCK_SIZE;
use table::block_sizes::direct_block_header;
use table::slot_places::entered_blocks;

/// Where planning stands, in bytes but for `count`: the current block's heap offset and size, and
/// how far it is filled, its header counted; how many blocks are placed, and their sizes together;
/// the objects' sizes together; the sizes of the indirect blocks below the root together.
//
// There is no cursor: the next slot to be tried begins where the current block ends, since an
// object that finds no slot changes nothing.
#[derive(Clone, Copy)]
#[repr(C)]
pub struct State {
    pub start: u64,
    pub size: u64,
    pub fill: u64,
    pub count: u64,
    pub allocated: u64,
    pub used: u64,
    pub indirect: u64,
}

/// A plan that objects are added to, one by one or many at once, for addresses of `offset_size`
/// bytes. Its state is one that planning some list of sizes ends in (`reached`), and so within
/// bounds (`bounded`): who makes or changes a plan proves both, and a function that takes one need
/// not ask. Of a plan that C lends they are C's word.
#[derive(Drop)]
#[repr(C)]
pub struct Planner {
    pub offset_size: u8,
    pub state: State,
    pub ghost reached: { IsReached offset_size state },
    pub ghost bounded: { Bounded state },
    pub ghost narrow: { offset_size < 256 },
}

impl Planner {
    /// The plan of no objects: no block is placed.
    //
    // The current block is one of no bytes, filled past its end by a header: so nothing fits, and
    // the first object opens a block, be it empty.
    pub fn new(offset_size: u8) -> Planner
        ensures width { result.offset_size ≡ offset_size }
        ensures state { result.state ≡ initial fixed offset_size }
    {
        Planner {
            offset_size,
            state: State {
                start: 0,
                size: 0,
                fill: direct_block_header(offset_size),
                count: 0,
                allocated: 0,
                used: 0,
                indirect: 0,
            },
        }
    }

    /// Adds an object of `size` bytes: its heap offset, or `None` where the heap space ends, and
    /// then nothing changes.
    pub fn place(&mut self, size: u64) -> Option<u64>
        requires { size ≤ max_managed fixed self.old.offset_size }
        ensures width { self.new.offset_size ≡ self.old.offset_size }
        ensures placed { IfSome result (λ offset.
            step_of fixed self.old.offset_size self.old.state size
            ≡ Some (self.new.state, offset)) }
        ensures ends { IfNone result
            (step_of fixed self.old.offset_size self.old.state size ≡ None) }
        ensures unchanged { IfNone result (self.new ≡ self.old) }
    {
        let offset = self.state.start + self.state.fill;
        let end = self.state.fill + size;
        if self.state.size < end {
            return self.open(size);
        }
        self.state.fill = end;
        self.state.used += size;
        Some(offset)
    }

    /// Adds an object that the current block has no room for: it opens the next slot that is large
    /// enough. Its heap offset, or `None` where the heap space ends, and then nothing changes.
    //
    // Indirect blocks are counted as direct ones open: the new one brings those that hold it and
    // begin at or after the end of the block before.
    pub fn open(&mut self, size: u64) -> Option<u64>
        requires fits_some_block { size ≤ max_managed fixed self.old.offset_size }
        requires no_room_here { self.old.state.size < self.old.state.fill + size }
        ensures width { self.new.offset_size ≡ self.old.offset_size }
        ensures placed { IfSome result (λ offset.
            step_of fixed self.old.offset_size self.old.state size
            ≡ Some (self.new.state, offset)) }
        ensures ends { IfNone result
            (step_of fixed self.old.offset_size self.old.state size ≡ None) }
        ensures unchanged { IfNone result (self.new ≡ self.old) }
    {
        let header = direct_block_header(self.offset_size);
        let end = self.state.start + self.state.size;
        let slot = find_slot(end, header + size)?;
        self.state = State {
            start: slot.start,
            size: slot.size,
            fill: header + size,
            count: self.state.count + 1,
            allocated: self.state.allocated + slot.size,
            used: self.state.used + size,
            indirect: self.state.indirect + entered_blocks(end, slot.start, self.offset_size),
        };
        Some(slot.start + header)
    }

    /// Adds the objects from the index `from` on that fit into the current block, and lists their
    /// heap offsets: the index of the next.
    pub fn fill<L: Listing>(&mut self, sizes: &[u64], from: usize, offsets: &mut [u64]) -> usize
        requires from_inside { from ≤ length sizes.now }
        requires small { Small MAX_DIRECT_BLOCK_SIZE sizes.now }
        requires room { HasRoom L.room (length offsets.old) (length sizes.now) }
        ensures width { self.new.offset_size ≡ self.old.offset_size }
        ensures state { self.new.state ≡ fill_state self.old.state (drop from sizes.now) }
        ensures next { result ≡ from + length (fill_offsets self.old.state (drop from sizes.now)) }
        ensures listed { offsets.new ≡ listed_from L.listed offsets.old from
            (fill_offsets self.old.state (drop from sizes.now)) }
    {
        let mut fill = self.state.fill;
        let mut next = from;
        while next < sizes.len() {
            let end = fill + sizes[next];
            if end > self.state.size {
                break;
            }
            L::list(offsets, next, self.state.start + fill);
            fill = end;
            next += 1;
        }
        self.state.used += fill - self.state.fill;
        self.state.fill = fill;
        next
    }

    /// Adds objects, a block at a time: one that has no room opens a block, and those after it that
    /// fit go there too. Their heap offsets and the starts of the blocks that they open are listed.
    /// `Err` is the index of the object at which the heap space ends, which the original does not
    /// report; the plan is then that of the objects before it.
    //
    // A step for each object made lists of small ones take over four times the original's time.
    // That planning goes on after the objects that fit as if they had been placed one by one is
    // `fill` in proofs/FillingBlocks.antt.
    pub fn extend<L: Listing>(
        &mut self,
        sizes: &[u64],
        offsets: &mut [u64],
        blocks: &mut [u64],
    ) -> Result<(), u64>
        requires small { Small (max_managed fixed self.old.offset_size) sizes.now }
        requires offsets_room { HasRoom L.room (length offsets.old) (length sizes.now) }
        requires blocks_room { HasRoom L.room (length blocks.old)
            (self.old.state.count + length sizes.now) }
        ensures width { self.new.offset_size ≡ self.old.offset_size }
        ensures all_placed { OnOk result
            (run_from fixed self.old.offset_size self.old.state sizes.now 0 ≡ Ok self.new.state) }
        ensures ends { IfErr result (λ index.
            run_from fixed self.old.offset_size self.old.state sizes.now 0 ≡ Err index) }
        ensures before_end { IfErr result (λ index.
            run_from fixed self.old.offset_size self.old.state (take index sizes.now) 0
            ≡ Ok self.new.state) }
        ensures offsets_listed { offsets.new ≡ listed_from L.listed offsets.old 0
            (offsets_from fixed self.old.offset_size self.old.state sizes.now) }
        ensures blocks_listed { blocks.new ≡ listed_from L.listed blocks.old self.old.state.count
            (starts_from fixed self.old.offset_size self.old.state sizes.now) }
    {
        let mut next = self.fill::<L>(sizes, 0, offsets);
        while next < sizes.len() {
            let block = self.state.count as usize;
            let Some(offset) = self.open(sizes[next]) else {
                return Err(next as u64);
            };
            L::list(offsets, next, offset);
            L::list(blocks, block, self.state.start);
            next = self.fill::<L>(sizes, next + 1, offsets);
        }
        Ok(())
    }
}
