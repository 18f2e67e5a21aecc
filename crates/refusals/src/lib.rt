//! Why a call is refused: the causes, and the number and two values that each is reported by.
#![tactic(auto)]

pub mod answer;

pub use answer::{Answer, Reported, SLICE_TOO_SHORT};
use thiserror::Error;

/// Why a heap is not read or not written. A cause that the Rust crate has, too, has its name.
#[derive(Clone, Copy, Debug, PartialEq, Eq, Error)]
pub enum FormatError {
    #[error("the bytes end too early: the end expected is {expected}, and {available} bytes are there")]
    UnexpectedEof { expected: u64, available: u64 },
    #[error("the offset size is {0}, not 2, 4 or 8")]
    InvalidOffsetSize(u8),
    #[error("the length size is {0}, not 2, 4 or 8")]
    InvalidLengthSize(u8),
    #[error("no signature: FRHP has to begin the heap's header, FHIB an indirect block, FHDB a direct one")]
    InvalidFractalHeapSignature,
    #[error("the version of the header or block is {0}, not 0")]
    InvalidFractalHeapVersion(u8),
    #[error("the ID is of type {0}, not a managed object's, which is 0")]
    InvalidHeapIdType(u8),
    #[error("the header's checksum differs: {stored} is stored, {computed} computed")]
    ChecksumMismatch { stored: u32, computed: u32 },
    #[error("the heap is filtered, and objects of a filtered heap are not read, nor is its header written")]
    UnsupportedFilteredHeapObject,
    #[error("a block's address {address} plus a distance of {distance} is past 2^64 - 1")]
    OffsetOverflow { address: u64, distance: u64 },
    #[error("the depth is used up: 64 blocks down and still no object")]
    DepthExceeded,
    #[error("object {index} has {size} bytes, more than a managed object can have")]
    ObjectTooLarge { index: u64, size: u64 },
    #[error("the heap space ends at object {0}: no slot is left that holds it")]
    HeapSpaceExhausted(u64),
    #[error("a list, region or slice is too short: {needed} needed, {lent} lent")]
    SliceTooShort { needed: u64, lent: u64 },
    #[error("the objects' sizes add up to {sum} bytes, and {given} were given")]
    ObjectBytesMismatch { sum: u64, given: u64 },
    #[error("the header's address {0} is too large for the offset size")]
    HeaderAddressTooLarge(u64),
    #[error("the region at {address} of {size} bytes ends past the offset size's largest address")]
    RegionAddressTooLarge { address: u64, size: u64 },
    #[error("no ID holds offset {offset} and length {length}: they must be below 2^40 and below 2^16")]
    HeapIdTooLarge { offset: u64, length: u64 },
    #[error("the header's field at place {place}, counted from 0, is {value}, too large for its width")]
    HeaderFieldTooLarge { place: u64, value: u64 },
    #[error("a block's checksum differs: {stored} is stored, {computed} computed")]
    BlockChecksumMismatch { stored: u32, computed: u32 },
    #[error("a block belongs to another header, or to another place in the heap: {stored} is stored, {wanted} wanted")]
    ForeignBlock { stored: u64, wanted: u64 },
    #[error("{0} is outside the heap: no offset below its end, or no number of rows that a root has")]
    OutsideHeap(u64),
}
