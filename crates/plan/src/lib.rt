//! Planning the managed blocks of a fractal heap: where each object goes, which blocks are placed,
//! and what the heap header says of them. Functions with a `requires` serve our own crates and are
//! no part of the interface.
#![tactic(auto)]

pub mod checks;
pub mod ending;
pub mod laws;
pub mod report;

ghost use Rattle.std.specs.Prelude.{◌≡◌, ◌≤◌, max, length};
ghost use Rattle.table.specs.Table.{fixed};
ghost use Rattle.planner.specs.Steps.{plan_offsets, plan_starts};
ghost use Rattle.fields.specs.LittleEndian.{put};
ghost use Rattle.fields.specs.Widths.{byte_count};
ghost use Rattle.table.specs.Sizes.{max_managed};
ghost use Rattle.planner.specs.Requires.{Small};
ghost use Rattle.plan.specs.End.{end_state};
ghost use Rattle.plan.specs.Requires.{Totalled};
ghost use Rattle.plan.specs.Answer.{totals, planned_for, list_after};

use crate::checks::check_input;
use crate::ending::{close, root_rows};
use fields::{Width, offset_width};
use planner::{Counted, Planner, State, Written};
use refusals::FormatError;
pub use report::TOTAL_COUNT;
use table::block_sizes::{direct_block_header, indirect_block_size};
use table::capacities::{capacity_sum, rows_capacity};
use table::{STARTING_BLOCK_SIZE, row_offset};

/// What planning says of a heap, in bytes but for two counts, by the original's names; block count
/// and root place are ours. The last four are fields of the heap header (HDF5 File Format
/// Specification 3.0, III.G, 'Fractal Heap Header').
#[derive(Clone, Copy, Debug, PartialEq, Eq)]
pub struct ManagedPlan {
    /// How many direct blocks are placed.
    pub block_count: u64,
    /// The size of the region that holds all blocks.
    pub region_size: u64,
    /// The rows of the root indirect block; 0 where the root is a direct block.
    pub root_rows: u64,
    /// Where in the region the root begins.
    pub root_place: u64,
    pub managed_space: u64,
    pub allocated_space: u64,
    pub free_space: u64,
    pub allocation_iterator: u64,
}

// What the heap header says of a plan that ends in this state.
fn totals(state: State, offset_size: u8) -> ManagedPlan
    requires { Totalled offset_size state }
    ensures { result ≡ totals fixed offset_size state }
{
    let end = state.start + state.size;
    let rows = root_rows(end);
    if rows == 0 {
        return ManagedPlan {
            block_count: 1,
            region_size: STARTING_BLOCK_SIZE,
            root_rows: 0,
            root_place: 0,
            managed_space: STARTING_BLOCK_SIZE,
            allocated_space: STARTING_BLOCK_SIZE,
            free_space: STARTING_BLOCK_SIZE - direct_block_header(offset_size) - state.used,
            allocation_iterator: 0,
        };
    }
    let capacity = capacity_sum(rows_capacity(offset_size), rows as usize);
    let managed = row_offset(rows);
    ManagedPlan {
        block_count: state.count,
        region_size: state.indirect + indirect_block_size(rows, offset_size) + state.allocated,
        root_rows: rows,
        root_place: state.indirect,
        managed_space: managed,
        allocated_space: state.allocated,
        free_space: capacity - state.used,
        allocation_iterator: end,
    }
}

/// The plan for lists of `offsets` and `blocks` places, or 13, 11 or 12, in this order; nothing is
/// written, so that a refusal leaves the lists as they were. The writer calls it too.
#[tactic(auto, unfolding(crate::specs::Answer::planned_for))]
pub fn planned_for(
    sizes: &[u64],
    offsets: usize,
    blocks: usize,
    width: Width,
) -> Result<ManagedPlan, FormatError>
    ensures { result ≡ planned_for sizes.now offsets blocks (byte_count width) }
{
    check_input(sizes, offsets, blocks, width)?;
    let mut planner = Planner::new(width.bytes());
    match planner.extend::<Counted>(sizes, &mut [], &mut []) {
        Ok(()) => Ok(ManagedPlan::of(&planner)),
        Err(index) => Err(FormatError::HeapSpaceExhausted(index)),
    }
}

/// Writes both lists of an accepted plan: the objects' heap offsets, and the blocks' starts.
/// Without objects one block stands at 0.
pub fn write_lists(sizes: &[u64], offsets: &mut [u64], blocks: &mut [u64], offset_size: u8)
    requires small { Small (max_managed fixed offset_size) sizes.now }
    requires offsets_room { length sizes.now ≤ length offsets.old }
    requires blocks_room { max 1 (length sizes.now) ≤ length blocks.old }
    ensures offsets_after { offsets.new
        ≡ put offsets.old 0 (plan_offsets fixed offset_size sizes.now) }
    ensures blocks_after { blocks.new
        ≡ put blocks.old 0 (plan_starts fixed offset_size sizes.now) }
{
    if sizes.is_empty() {
        blocks[0] = 0;
    }
    // The heap space does not end at sizes that planning accepted, so there is no index to hand on.
    let _ = Planner::new(offset_size).extend::<Written>(sizes, offsets, blocks);
}

impl ManagedPlan {
    ghost use Rattle.std.specs.Prelude.{IfOk};
    ghost use Rattle.plan.specs.Plans.{PlanKept, RootFits, Tallied};

    /// What the heap header says of the objects that were added so far.
    pub fn of(planner: &Planner) -> ManagedPlan
        ensures { result ≡ totals fixed planner.now.offset_size
            (end_state fixed planner.now.offset_size planner.now.state) }
    {
        totals(
            close(planner.state, planner.offset_size),
            planner.offset_size,
        )
    }

    /// Lays out objects of these sizes, in bytes, for addresses of `offset_size` bytes. Each
    /// object's heap offset and each placed block's start go into the lent lists. A refusal, 2, 13
    /// for `offsets`, 13 for `blocks`, 11 or 12, the first that applies, leaves both as they were.
    //
    // The sizes are planned twice: once without touching a list, which gives 12 or the totals, and
    // then to write them.
    #[tactic(auto, unfolding(crate::specs::Answer::planned_for))]
    pub fn new(
        sizes: &[u64],
        offsets: &mut [u64],
        blocks: &mut [u64],
        offset_size: u8,
    ) -> Result<ManagedPlan, FormatError>
        ensures answer { result
            ≡ planned_for sizes.now (length offsets.old) (length blocks.old) offset_size }
        ensures offsets_after { offsets.new
            ≡ list_after result (plan_offsets fixed offset_size sizes.now) offsets.old }
        ensures blocks_after { blocks.new
            ≡ list_after result (plan_starts fixed offset_size sizes.now) blocks.old }
        ensures kept { IfOk result (λ plan. PlanKept sizes.now offset_size plan) }
        ensures root { IfOk result (λ plan. RootFits sizes.now offset_size plan) }
        ensures tallied { IfOk result (λ plan. Tallied sizes.now offset_size plan) }
    {
        let width = offset_width(offset_size)?;
        let plan = planned_for(sizes, offsets.len(), blocks.len(), width)?;
        write_lists(sizes, offsets, blocks, offset_size);
        Ok(plan)
    }
}
