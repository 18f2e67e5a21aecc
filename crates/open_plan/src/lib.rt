//! A plan that stays open: it is advanced in place by one size at a time, and each object has its
//! heap offset at once, so that whoever loads objects one after another need not keep their sizes.
#![tactic(auto)]

ghost use Rattle.std.specs.Prelude.{◌≡◌, ℕ, ◌+◌, ◌≤◌, ◌↔◌, true, max, List, [], length, Ok, Err};
ghost use Rattle.std.specs.Prelude.{IsOk, OnOk, OnErr, IfOk, IfErr};
ghost use Rattle.fields.specs.Widths.{legal, byte_count};
ghost use Rattle.table.specs.Table.{fixed};
ghost use Rattle.plan.specs.Answer.{totals, planned_for};
ghost use Rattle.plan.specs.End.{end_state};
ghost use Rattle.open_plan.specs.Additions.{addition, AdditionsPlanned};
ghost use Rattle.open_plan.specs.Open.{IsPlanOf, Extends, RefusedAsPlanned};

use fields::{Width, offset_width};
use plan::ManagedPlan;
use planner::Planner;
use refusals::FormatError;
use table::block_sizes::max_managed_object;

/// A plan that objects are added to one by one. As opening and additions leave it, it is the plan
/// of the accepted sizes, in their order; its fields are public for C alone.
//
// `planner` is the plan under way; its block's end stands for a cursor. The count is what the
// planner does not keep: it is the index by which a refusal names the object.
#[derive(Drop)]
#[repr(C)]
pub struct OpenPlan {
    pub planner: Planner,
    /// How many objects were accepted.
    pub objects: u64,
    pub ghost width_legal: { legal planner.offset_size ≡ true },
}

impl OpenPlan {
    /// The plan of no objects, for addresses of `offset_size` bytes; a size that is none is refused
    /// (2).
    pub fn new(offset_size: u8) -> Result<OpenPlan, FormatError>
        ensures legal { IsOk result ↔ (legal offset_size ≡ true) }
        ensures refused { OnErr result (result ≡ Err (FormatError.InvalidOffsetSize offset_size)) }
        ensures width { IfOk result (λ plan. plan.planner.offset_size ≡ offset_size) }
        ensures empty { IfOk result (λ plan.
            IsPlanOf offset_size plan.planner.state plan.objects []) }
    {
        Ok(OpenPlan::of_width(offset_width(offset_size)?))
    }

    /// The plan of no objects, for addresses of a width that is tested.
    #[tactic(auto, using(fields::proofs::Widths::legal_width))]
    pub fn of_width(width: Width) -> OpenPlan
        ensures width { result.planner.offset_size ≡ byte_count width }
        ensures empty { IsPlanOf (byte_count width) result.planner.state result.objects [] }
    {
        OpenPlan {
            planner: Planner::new(width.bytes()),
            objects: 0,
        }
    }

    /// Adds an object of `size` bytes: its heap offset. A size above the largest gives 11, one that
    /// no slot is left for gives 12, both with the number of accepted objects as the object's
    /// index; then nothing changes, and a smaller size may follow.
    pub fn add(&mut self, size: u64) -> Result<u64, FormatError>
        ensures accepted { IfOk result (λ offset.
            addition self.old.planner.offset_size self.old.planner.state self.old.objects size
            ≡ Ok (self.new.planner.state, offset)) }
        ensures counted { OnOk result (self.new.objects ≡ self.old.objects + 1) }
        ensures refused { IfErr result (λ refusal.
            addition self.old.planner.offset_size self.old.planner.state self.old.objects size
            ≡ Err refusal) }
        ensures unchanged { OnErr result (self.new ≡ self.old) }
        ensures width { self.new.planner.offset_size ≡ self.old.planner.offset_size }

        // the theorem: the plan is that of the accepted sizes in one list
        ensures extends { IfOk result (λ offset. (sizes : List ℕ)
            → IsPlanOf self.old.planner.offset_size self.old.planner.state self.old.objects sizes
            → Extends self.old.planner.offset_size self.new.planner.state self.new.objects
            sizes size offset) }
        ensures refused_as_planned { IfErr result (λ refusal. (sizes : List ℕ)
            → IsPlanOf self.old.planner.offset_size self.old.planner.state self.old.objects sizes
            → RefusedAsPlanned self.old.planner.offset_size sizes size refusal) }
    {
        if size > max_managed_object(self.planner.offset_size) {
            return Err(FormatError::ObjectTooLarge {
                index: self.objects,
                size,
            });
        }
        if self.objects == u64::MAX {
            return Err(FormatError::HeapSpaceExhausted(self.objects));
        }
        let Some(offset) = self.planner.place(size) else {
            return Err(FormatError::HeapSpaceExhausted(self.objects));
        };
        self.objects += 1;
        Ok(offset)
    }

    /// What the heap header says of the objects that were accepted so far.
    pub fn totals(&self) -> ManagedPlan
        ensures of_state { result ≡ totals fixed self.now.planner.offset_size
            (end_state fixed self.now.planner.offset_size self.now.planner.state) }
        ensures planned { (sizes : List ℕ)
            → IsPlanOf self.now.planner.offset_size self.now.planner.state self.now.objects sizes
            → (offset_places block_places : ℕ)
            → length sizes ≤ offset_places → max 1 (length sizes) ≤ block_places
            → planned_for sizes offset_places block_places self.now.planner.offset_size
            ≡ Ok result }
    {
        ManagedPlan::of(&self.planner)
    }
}

/// After any additions, refused ones between them, the plan and the heap offsets that were given
/// are those of planning the accepted sizes in one list.
pub fn additions_are_planned()
    ensures { AdditionsPlanned }
{}
