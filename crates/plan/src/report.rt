//! A plan's answer as numbers in a lent list, for the C functions over planning and writing.
ghost use Rattle.std.specs.Prelude.{◌≡◌, ◌≤◌, length};
ghost use Rattle.plan.specs.Answer.{planned_number};
ghost use Rattle.plan.specs.Report.{planned_totals};

use crate::ManagedPlan;
use refusals::{FormatError, Reported};

/// How many numbers a plan has.
pub const TOTAL_COUNT: usize = 8;

/// The answer's number, 0 or the refusal's. The plan's numbers in the order of its fields, or the
/// refusal's two values, go into the first places of `totals`.
#[tactic(auto, unfolding(fields::specs::LittleEndian::put))]
pub fn put_planned(totals: &mut [u64], answer: Result<ManagedPlan, FormatError>) -> u32
    requires { TOTAL_COUNT ≤ length totals.old }
    ensures number { result ≡ planned_number answer }
    ensures totals_after { totals.new ≡ planned_totals totals.old answer }
{
    match answer {
        Ok(plan) => {
            totals[..TOTAL_COUNT].copy_from_slice(&[
                plan.block_count,
                plan.region_size,
                plan.root_rows,
                plan.root_place,
                plan.managed_space,
                plan.allocated_space,
                plan.free_space,
                plan.allocation_iterator,
            ]);
            0
        }
        Err(e) => {
            let refusal = e.answer();
            totals[..2].copy_from_slice(&[refusal.first, refusal.second]);
            refusal.number
        }
    }
}
