//! The lists that planning and writing both go through: a name, the objects' sizes and the offset
//! size.
//!
//! A block of 1,024 bytes holds 1,002 bytes of objects at width 8, 1,006 at width 4 and 1,008 at
//! width 2; one of 65,536, the largest, holds 65,514, 65,518 and 65,520.

/// Bytes of the first blocks and of the largest, and of a block's header without the address in it:
/// by the rules, and not by the code that the programs run.
pub const FIRST_BLOCK: u64 = 1_024;

pub const LARGEST_BLOCK: u64 = 65_536;

pub const HEADER_BYTES: u64 = 14;

/// A name, the objects' sizes and the offset size.
pub type Listed = (&'static str, &'static [u64], u8);

/// The worked heaps 1 to 7 and one whose small object would fit a slot that is passed; then at
/// widths 2 and 4 the same kinds, and lists around what the largest block holds.
pub const WORKED: [Listed; 31] = [
    ("heap 1", &[], 8),
    ("heap 2", &[1_002], 8),
    ("heap 3", &[1_003], 8),
    ("heap 4", &[1_002, 1], 8),
    ("heap 5", &[1_002, 0], 8),
    ("heap 6", &[65_514], 8),
    ("heap 6, one more", &[65_515], 8),
    ("heap 7", &[65_514; 5], 8),
    ("passed slot", &[1_003, 1], 8),
    ("nothing", &[], 2),
    ("full block", &[1_008], 2),
    ("larger", &[1_009], 2),
    ("full and 1", &[1_008, 1], 2),
    ("full and 0", &[1_008, 0], 2),
    ("passed slot", &[1_009, 1], 2),
    ("largest", &[65_520], 2),
    ("too large", &[65_521], 2),
    ("first too large", &[65_521, 65_522], 2),
    ("second too large", &[0, 65_522], 2),
    ("five largest", &[65_520; 5], 2),
    ("nothing", &[], 4),
    ("full block", &[1_006], 4),
    ("larger", &[1_007], 4),
    ("full and 1", &[1_006, 1], 4),
    ("full and 0", &[1_006, 0], 4),
    ("passed slot", &[1_007, 1], 4),
    ("largest", &[65_518], 4),
    ("too large", &[65_519], 4),
    ("first too large", &[65_519, 65_520], 4),
    ("second too large", &[0, 65_520], 4),
    ("five largest", &[65_518; 5], 4),
];

/// Widths that are none.
pub const NO_WIDTH: [Listed; 4] = [
    ("width", &[1, 2], 0),
    ("width", &[1, 2], 1),
    ("width", &[1, 65_536], 3),
    ("width", &[], 255),
];
