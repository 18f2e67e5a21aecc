//! An answer in numbers, as C is given it.
ghost use Rattle.std.specs.Prelude.{◌≡◌};
ghost use Rattle.refusals.specs.Refusals.{answer};

use crate::FormatError;

/// The number of `FormatError::SliceTooShort`, which a C function returns by itself where the slot or the list is too
/// short that it would tell the pair in.
pub const SLICE_TOO_SHORT: u32 = 13;

/// The refusal's number, 0 where there is none, and two values.
#[derive(Clone, Copy, Debug, PartialEq, Eq)]
pub struct Answer {
    pub number: u32,
    pub first: u64,
    pub second: u64,
}

impl Answer {
    /// The answer of a call that was not refused.
    pub fn accepted(first: u64, second: u64) -> Answer
        ensures { result ≡ answer 0 first second }
    {
        Answer {
            number: 0,
            first,
            second,
        }
    }
}

/// What is answered in numbers.
pub trait Reported {
    ghost use Rattle.refusals.specs.declared.answer.Answer.{Answer};

    // The number and the two values.
    ghost report: { Self → Answer };

    fn answer(self) -> Answer
        ensures { result ≡ report self };
}

impl Reported for () {
    ghost use Rattle.refusals.specs.Refusals.{answer};

    ghost report = { λ _. answer 0 0 0 };

    fn answer(self) -> Answer {
        Answer::accepted(0, 0)
    }
}

impl Reported for u64 {
    ghost use Rattle.refusals.specs.Refusals.{answer};

    ghost report = { λ n. answer 0 n 0 };

    fn answer(self) -> Answer {
        Answer::accepted(self, 0)
    }
}

impl Reported for FormatError {
    ghost use Rattle.refusals.specs.Refusals.{refusal};

    ghost report = { refusal };

    fn answer(self) -> Answer {
        let (number, first, second) = match self {
            FormatError::UnexpectedEof {
                expected,
                available,
            } => (1, expected, available),
            FormatError::InvalidOffsetSize(size) => (2, u64::from(size), 0),
            FormatError::InvalidLengthSize(size) => (3, u64::from(size), 0),
            FormatError::InvalidFractalHeapSignature => (4, 0, 0),
            FormatError::InvalidFractalHeapVersion(version) => (5, u64::from(version), 0),
            FormatError::InvalidHeapIdType(kind) => (6, u64::from(kind), 0),
            FormatError::ChecksumMismatch { stored, computed } => {
                (7, u64::from(stored), u64::from(computed))
            }
            FormatError::UnsupportedFilteredHeapObject => (8, 0, 0),
            FormatError::OffsetOverflow { address, distance } => (9, address, distance),
            FormatError::DepthExceeded => (10, 64, 0),
            FormatError::ObjectTooLarge { index, size } => (11, index, size),
            FormatError::HeapSpaceExhausted(index) => (12, index, 0),
            FormatError::SliceTooShort { needed, lent } => (SLICE_TOO_SHORT, needed, lent),
            FormatError::ObjectBytesMismatch { sum, given } => (14, sum, given),
            FormatError::HeaderAddressTooLarge(address) => (15, address, 0),
            FormatError::RegionAddressTooLarge { address, size } => (15, address, size),
            FormatError::HeapIdTooLarge { offset, length } => (16, offset, length),
            FormatError::HeaderFieldTooLarge { place, value } => (17, place, value),
            FormatError::BlockChecksumMismatch { stored, computed } => {
                (18, u64::from(stored), u64::from(computed))
            }
            FormatError::ForeignBlock { stored, wanted } => (19, stored, wanted),
            FormatError::OutsideHeap(number) => (20, number, 0),
        };
        Answer {
            number,
            first,
            second,
        }
    }
}

impl<T: Reported> Reported for Result<T, FormatError> {
    ghost use Rattle.refusals.specs.Refusals.{report_of};

    ghost report = { report_of T.report };

    fn answer(self) -> Answer {
        match self {
            Ok(value) => value.answer(),
            Err(e) => e.answer(),
        }
    }
}
