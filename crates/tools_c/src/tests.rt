//! What a caller gets by planning and writing, said from the clauses of `ManagedPlan::new`, `tools_plan` and
//! `tools_serialize` that are theorems.
ghost use Rattle.std.specs.Prelude.{◌≡◌, ℕ, ◌<◌, ◌≤◌, IsTrue, IfOk, length, take};
ghost use Rattle.table.specs.Table.{fixed, row_offset};
ghost use Rattle.planner.specs.Steps.{plan_offsets, plan_starts};
ghost use Rattle.plan.specs.Plans.{InObject};

use crate::writing::{tools_plan, tools_serialize};
use plan::{ManagedPlan, TOTAL_COUNT};
use refusals::FormatError;
use std::test::Fail;

// Plans. Where that is accepted, the heap offsets of the first objects are those that they have alone.
fn plans(sizes: &[u64], offsets: &mut [u64], blocks: &mut [u64], offset_size: u8) -> bool
    ensures { IsTrue result → (k : ℕ) → k ≤ length sizes.now
        → plan_offsets fixed offset_size (take k sizes.now)
        ≡ take k (plan_offsets fixed offset_size sizes.now) }
{
    tools_plan(sizes, offsets, blocks, offset_size, &mut [0; TOTAL_COUNT]) == 0
}

// Writes. Where that is accepted, no heap offset is a byte of two objects.
fn writes(
    sizes: &[u64],
    offsets: &mut [u64],
    blocks: &mut [u64],
    objects: &[u8],
    region: &mut [u8],
) -> bool
    ensures { IsTrue result → (i j x : ℕ) → InObject (plan_offsets fixed 8 sizes.now) sizes.now i x
        → InObject (plan_offsets fixed 8 sizes.now) sizes.now j x → i ≡ j }
{
    tools_serialize(
        sizes,
        offsets,
        blocks,
        objects,
        region,
        0,
        0,
        8,
        &mut [0; TOTAL_COUNT],
    ) == 0
}

// A plan, if it is accepted: no fewer rows reach its end, and it counts the blocks that are placed.
fn planned(
    sizes: &[u64],
    offsets: &mut [u64],
    blocks: &mut [u64],
    offset_size: u8,
) -> Result<ManagedPlan, FormatError>
    ensures fewest { IfOk result (λ plan. (rows : ℕ) → rows < plan.root_rows
        → row_offset fixed rows < plan.allocation_iterator) }
    ensures counted { IfOk result (λ plan.
        plan.block_count ≡ length (plan_starts fixed offset_size sizes.now)) }
{
    let plan = ManagedPlan::new(sizes, offsets, blocks, offset_size)?;
    Ok(plan)
}

// One object of 1,003 bytes: 3 rows, and one block.
#[test]
fn rows_are_planned(rt: HostRuntime) -> Result<(), Fail> {
    let (mut offsets, mut blocks) = ([0; 1], [0; 1]);
    let plan = planned(&[1_003], &mut offsets, &mut blocks, 8)?;
    assert_eq!(rt; plan.root_rows, 3);
    assert_eq!(rt; plan.block_count, 1);
    Ok(())
}

// Objects of 1,002 bytes and of 1, at 22 and 1,046.
#[test]
fn offsets_are_planned(rt: HostRuntime) -> Result<(), Fail> {
    let (mut offsets, mut blocks) = ([0; 2], [0; 2]);
    assert!(rt; plans(&[1_002], &mut offsets, &mut blocks, 8));
    assert_eq!(rt; offsets, [22, 0]);
    assert!(rt; plans(&[1_002, 1], &mut offsets, &mut blocks, 8));
    assert_eq!(rt; offsets, [22, 1_046]);
    assert!(rt; !plans(&[65_515], &mut offsets, &mut blocks, 8));
    Ok(())
}

#[test]
fn objects_are_written(rt: HostRuntime) -> Result<(), Fail> {
    let (mut offsets, mut blocks) = ([0; 2], [0; 2]);
    let (objects, mut region) = ([9; 1_003], [0; 2_102]);
    assert!(rt;
        writes(
            &[1_002, 1],
            &mut offsets,
            &mut blocks,
            &objects,
            &mut region
        )
    );
    assert_eq!(rt; offsets, [22, 1_046]);
    assert!(rt;
        !writes(
            &[1_002, 2],
            &mut offsets,
            &mut blocks,
            &objects,
            &mut region
        )
    );
    Ok(())
}
