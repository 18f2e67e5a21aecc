//! Both engines asked for the slot of one offset.
ghost use Rattle.std.specs.Prelude.{◌≡◌, nat_lt};
ghost use Rattle.table.specs.Table.{fixed, heap_space};
ghost use Rattle.slot_walk.specs.Search.{counted_slot};
ghost use Rattle.slot_engines.specs.Engines.{located_slot, agreed};

use crate::locate;
use refusals::FormatError;
use slot_walk::finding::count_to;
use table::Slot;

/// What each engine answers.
#[derive(Clone, Copy)]
pub struct EngineAnswers {
    pub counted: Result<Slot, FormatError>,
    pub located: Result<Slot, FormatError>,
}

impl EngineAnswers {
    /// Whether both engines name a slot, and the same: two refusals are no agreement.
    pub fn agree(&self) -> bool
        ensures { result ≡ agreed self.now.counted self.now.located }
    {
        match (self.counted, self.located) {
            (Ok(one), Ok(other)) => one.start == other.start && one.size == other.size,
            _ => false,
        }
    }
}

/// Both engines' answers for a heap offset: they agree on each offset below the heap's end, and on no other.
pub fn ask_both(offset: u64) -> EngineAnswers
    ensures counted { result.counted ≡ counted_slot fixed offset }
    ensures located { result.located ≡ located_slot fixed offset }
    ensures agree { agreed result.counted result.located ≡ nat_lt offset (heap_space fixed) }
{
    EngineAnswers {
        counted: count_to(offset),
        located: locate(offset),
    }
}
