//! Both engines for the slot of a heap offset, asked alike: `slot_walk::finding::count_to`, which counts, and `locate`
//! here, which is the table's descent without a `requires`. The law that they agree stands here too, and the way that
//! the descent takes. So the crate that counts takes nothing of the descent.
#![tactic(auto)]

pub mod asking;
pub mod way;

ghost use Rattle.std.specs.Prelude.{◌≡◌};
ghost use Rattle.table.specs.Table.{fixed};
ghost use Rattle.slot_engines.specs.Engines.{located_slot, EnginesAgree};

pub use asking::EngineAnswers;
use refusals::FormatError;
use table::{MAX_HEAP_SPACE, Slot, slot_places};
pub use way::EnteredBlock;

/// The direct slot of a heap offset, by descent: its heap offset and its bytes. An offset at or above 2^40 is refused
/// by `OutsideHeap`.
#[tactic(auto, using(crate::proofs::Agreeing::located_below, crate::proofs::Agreeing::located_above))]
pub fn locate(offset: u64) -> Result<Slot, FormatError>
    ensures { result ≡ located_slot fixed offset }
{
    if offset >= MAX_HEAP_SPACE {
        return Err(FormatError::OutsideHeap(offset));
    }
    Ok(slot_places::locate(offset))
}

/// A law: at any table both engines name the same slot of every offset below the heap's end, and refuse every other
/// alike.
pub fn engines_agree()
    ensures { EnginesAgree }
{}
