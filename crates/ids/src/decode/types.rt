//! The type of a heap ID: managed, huge or tiny. Bits 6 and 7 of the first byte, the version, are not tested, as in the
//! original.
ghost use Rattle.std.specs.Prelude.{◌≡◌};
ghost use Rattle.ids.specs.IdTypes.{type_of, id_type};

use refusals::{Answer, FormatError, Reported};

/// Where the object of an ID is: in a block of the heap, in the file on its own, or in the ID itself.
#[derive(Clone, Copy, Debug, PartialEq, Eq)]
pub enum HeapIdType {
    Managed,
    Huge,
    Tiny,
}

impl Reported for HeapIdType {
    ghost use Rattle.ids.specs.IdTypes.{type_report};

    ghost report = { type_report };

    fn answer(self) -> Answer {
        let bits = match self {
            HeapIdType::Managed => 0,
            HeapIdType::Huge => 1,
            HeapIdType::Tiny => 2,
        };
        Answer::accepted(bits, 0)
    }
}

// Bits 4 and 5 of an ID's first byte.
pub(crate) fn type_of(byte: u8) -> u8
    ensures { result ≡ type_of byte }
{
    byte / 16 % 4
}

/// The type of an ID.
pub fn heap_id_type(id: &[u8]) -> Result<HeapIdType, FormatError>
    ensures { result ≡ id_type id.now }
{
    let empty = FormatError::UnexpectedEof {
        expected: 1,
        available: 0,
    };
    let byte = *id.first().ok_or(empty)?;
    match type_of(byte) {
        0 => Ok(HeapIdType::Managed),
        1 => Ok(HeapIdType::Huge),
        2 => Ok(HeapIdType::Tiny),
        other => Err(FormatError::InvalidHeapIdType(other)),
    }
}
