//! The sizes of block headers, of the largest object and of indirect blocks at the fixed geometry.
//! The function with a `requires` serves our own crates and is no part of the interface.
ghost use Rattle.std.specs.Prelude.{◌≡◌, ◌^◌, ◌<◌};
ghost use Rattle.table.specs.Table.{fixed};
ghost use Rattle.table.specs.Sizes.{direct_header, max_managed, indirect_size};

use crate::{BLOCK_OFFSET_BYTES, MAX_DIRECT_BLOCK_SIZE, TABLE_WIDTH};

/// The bytes of a direct block before its objects: signature (4), version (1), heap header address,
/// block offset, checksum (4), which every direct block of ours has.
pub fn direct_block_header(offset_size: u8) -> u64
    ensures { result ≡ direct_header fixed offset_size }
{
    4 + 1 + u64::from(offset_size) + BLOCK_OFFSET_BYTES + 4
}

/// The largest object that a managed block holds, in bytes: the largest direct block without its
/// header.
pub fn max_managed_object(offset_size: u8) -> u64
    ensures { result ≡ max_managed fixed offset_size }
{
    MAX_DIRECT_BLOCK_SIZE - direct_block_header(offset_size)
}

/// The bytes of an indirect block of `nrows` rows: the same header, a child's address for each
/// slot, the checksum. The heap is unfiltered, so an entry is a bare address.
pub fn indirect_block_size(nrows: u64, offset_size: u8) -> u64
    requires { nrows < 2 ^ 16 }
    ensures { result ≡ indirect_size fixed offset_size nrows }
{
    let width = u64::from(offset_size);
    4 + 1 + width + BLOCK_OFFSET_BYTES + nrows * TABLE_WIDTH * width + 4
}
