//! The tests before a managed heap ID is written: its offset and length are small enough, and it has room.
ghost use Rattle.std.specs.Prelude.{◌≡◌, ◌^◌, ◌≤◌, ◌<◌, OnOk};
ghost use Rattle.table.specs.Table.{fixed};
ghost use Rattle.ids.specs.Checks.{id_checked};

use crate::write::{ID_LENGTH, LENGTH_SPACE};
use refusals::FormatError;
use table::MAX_HEAP_SPACE;

/// What is tested before an ID goes into `lent` bytes.
pub fn check_id(offset: u64, length: u64, lent: usize) -> Result<(), FormatError>
    ensures answer { result ≡ id_checked fixed offset length lent }
    ensures there { OnOk result
        ((offset < MAX_HEAP_SPACE) × (length < LENGTH_SPACE) × (ID_LENGTH ≤ lent)) }
{
    if offset >= MAX_HEAP_SPACE || length >= LENGTH_SPACE {
        return Err(FormatError::HeapIdTooLarge { offset, length });
    }
    if lent < ID_LENGTH {
        return Err(FormatError::SliceTooShort {
            needed: ID_LENGTH as u64,
            lent: lent as u64,
        });
    }
    Ok(())
}
