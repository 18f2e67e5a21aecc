//! A plan that is advanced by one size at a time, for a loader that prints IDs while a run is still loading. The caller
//! lends the plan, and hands in only what opening and additions have left.
ghost use Rattle.std.specs.Prelude.{◌≡◌, ℕ, ◌+◌, ◌<◌, ◌≤◌, max, List, [], length, Ok, IfOk, IfErr};
ghost use Rattle.fields.specs.Slot.{slot_size, slot_number, slot_bytes};
ghost use Rattle.table.specs.Table.{fixed};
ghost use Rattle.plan.specs.Answer.{totals as totals_of, planned_for};
ghost use Rattle.plan.specs.End.{end_state};
ghost use Rattle.plan.specs.Report.{plan_number, plan_totals};
ghost use Rattle.open_plan.specs.Additions.{addition};
ghost use Rattle.open_plan.specs.Open.{IsPlanOf, Extends, RefusedAsPlanned};
ghost use Rattle.fractal_heap_c.specs.Opened.{opening_report, addition_report};

use fields::Width;
use fields::slot::{SLOT_SIZE, put_answer};
use open_plan::OpenPlan;
use plan::report::put_planned;
use refusals::{Answer, Reported, SLICE_TOO_SHORT};

/// What opening hands back: the number of a refusal, or 0 and the plan of no objects. Where it is refused the plan is of
/// no use.
#[derive(Drop)]
#[repr(C)]
pub struct OpenedPlan {
    pub number: u32,
    pub plan: OpenPlan,
}

/// Opens the plan of no objects, for addresses of `offset_size` bytes: 2 is the refusal of a size that is none. The plan
/// is handed back by value, so that no place has to be lent that holds none yet. Where it is refused, or the slot has
/// fewer than 16 bytes (13), what stands in its place is a plan of no objects for addresses of eight bytes.
#[unsafe(no_mangle)]
pub extern "C" fn fractal_heap_open_plan(offset_size: u8, slot: &mut [u8]) -> OpenedPlan
    ensures number { result.number ≡ slot_number slot.old (opening_report offset_size) }
    ensures slot_after { slot.new ≡ slot_bytes slot.old (opening_report offset_size) }
    ensures opened { result.number ≡ 0 → IsPlanOf offset_size result.plan.planner.state
        result.plan.objects [] }
    ensures width { result.number ≡ 0 → result.plan.planner.offset_size ≡ offset_size }
    ensures unopened { 0 < result.number → IsPlanOf 8 result.plan.planner.state result.plan.objects [] }
    ensures width_unopened { 0 < result.number → result.plan.planner.offset_size ≡ 8 }
{
    if slot.len() < SLOT_SIZE {
        return OpenedPlan {
            number: SLICE_TOO_SHORT,
            plan: OpenPlan::of_width(Width::Eight),
        };
    }
    match OpenPlan::new(offset_size) {
        Ok(plan) => OpenedPlan {
            number: put_answer(slot, Answer::accepted(0, 0)),
            plan,
        },
        Err(refusal) => OpenedPlan {
            number: put_answer(slot, refusal.answer()),
            plan: OpenPlan::of_width(Width::Eight),
        },
    }
}

/// Adds an object of `size` bytes: its heap offset is the first value. A size above the largest is refused by 11, one
/// that no slot is left for by 12, both with the number of accepted objects as the index; then the plan stays as it is,
/// and a smaller size may follow. With a slot of fewer than 16 bytes nothing is added (13).
#[tactic(auto, using(crate::proofs::Refusing::refused_not_zero))]
#[unsafe(no_mangle)]
pub extern "C" fn fractal_heap_plan_add(plan: &mut OpenPlan, size: u64, slot: &mut [u8]) -> u32
    ensures number { result ≡ slot_number slot.old (addition_report (addition
        plan.old.planner.offset_size plan.old.planner.state plan.old.objects size)) }
    ensures slot_after { slot.new ≡ slot_bytes slot.old (addition_report (addition
        plan.old.planner.offset_size plan.old.planner.state plan.old.objects size)) }
    ensures advanced { result ≡ 0 → IfOk (addition
        plan.old.planner.offset_size plan.old.planner.state plan.old.objects size)
        (λ placed. plan.new.planner.state ≡ placed.0) }
    ensures counted { result ≡ 0 → plan.new.objects ≡ plan.old.objects + 1 }
    ensures width { plan.new.planner.offset_size ≡ plan.old.planner.offset_size }
    ensures kept { 0 < result → plan.new ≡ plan.old }

    // the theorem: the plan is that of the accepted sizes in one list
    ensures extends { result ≡ 0 → IfOk (addition
        plan.old.planner.offset_size plan.old.planner.state plan.old.objects size)
        (λ placed. (sizes : List ℕ)
        → IsPlanOf plan.old.planner.offset_size plan.old.planner.state plan.old.objects sizes
        → Extends plan.old.planner.offset_size plan.new.planner.state plan.new.objects
        sizes size placed.1) }
    ensures refused_as_planned { slot_size ≤ length slot.old → IfErr (addition
        plan.old.planner.offset_size plan.old.planner.state plan.old.objects size)
        (λ refusal. (sizes : List ℕ)
        → IsPlanOf plan.old.planner.offset_size plan.old.planner.state plan.old.objects sizes
        → RefusedAsPlanned plan.old.planner.offset_size sizes size refusal) }
{
    if slot.len() < SLOT_SIZE {
        return SLICE_TOO_SHORT;
    }
    match plan.add(size) {
        Ok(offset) => put_answer(slot, offset.answer()),
        Err(refusal) => put_answer(slot, refusal.answer()),
    }
}

/// What the heap header says of the accepted objects: the plan's eight numbers, in the order of `ManagedPlan`, in the
/// first places of `totals`; a list of fewer than eight gives 13 and is left as it is.
#[unsafe(no_mangle)]
pub extern "C" fn fractal_heap_plan_totals(plan: &OpenPlan, totals: &mut [u64]) -> u32
    ensures number { result ≡ plan_number totals.old (Ok (totals_of fixed
        plan.now.planner.offset_size
        (end_state fixed plan.now.planner.offset_size plan.now.planner.state))) }
    ensures totals_after { totals.new ≡ plan_totals totals.old (Ok (totals_of fixed
        plan.now.planner.offset_size
        (end_state fixed plan.now.planner.offset_size plan.now.planner.state))) }
    ensures planned { (sizes : List ℕ)
        → IsPlanOf plan.now.planner.offset_size plan.now.planner.state plan.now.objects sizes
        → (offset_places block_places : ℕ)
        → length sizes ≤ offset_places → max 1 (length sizes) ≤ block_places
        → totals.new ≡ plan_totals totals.old
        (planned_for sizes offset_places block_places plan.now.planner.offset_size) }
{
    if totals.len() < 8 {
        return SLICE_TOO_SHORT;
    }
    put_planned(totals, Ok(plan.totals()))
}
