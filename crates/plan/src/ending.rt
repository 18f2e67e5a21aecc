//! The end of a plan: the state after the last object, and the root's rows.
ghost use Rattle.std.specs.Prelude.{◌≡◌};
ghost use Rattle.table.specs.Table.{fixed};
ghost use Rattle.plan.specs.End.{end_state, rows_of_root};

use planner::State;
use table::STARTING_BLOCK_SIZE;
use table::block_sizes::direct_block_header;
use table::row_counts::root_rows_covering;

/// The state after the last object. Without objects one block of the starting size is placed, at 0.
pub fn close(state: State, offset_size: u8) -> State
    ensures { result ≡ end_state fixed offset_size state }
{
    if state.count == 0 {
        return State {
            start: 0,
            size: STARTING_BLOCK_SIZE,
            fill: direct_block_header(offset_size),
            count: 1,
            allocated: STARTING_BLOCK_SIZE,
            used: 0,
            indirect: 0,
        };
    }
    state
}

/// The fewest root rows that reach `end`, the heap offset at which the last block ends; 0 where the
/// root is that block.
//
// The end alone tells: only the block of the starting size at 0 ends there (`RootFits` in
// specs/Plans.antt).
pub fn root_rows(end: u64) -> u64
    ensures { result ≡ rows_of_root fixed end }
{
    if end == STARTING_BLOCK_SIZE {
        return 0;
    }
    root_rows_covering(end).unwrap_or(0)
}
