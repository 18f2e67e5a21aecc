//! Reading with each block on the way tested before it is used. The tests of one block are in `blocks`, the block at
//! which a read stops in `path`, theorems in `laws`.
#![tactic(auto)]

pub mod blocks;
pub mod laws;
pub mod path;

ghost use Rattle.std.specs.Prelude.{◌≡◌, ◌+◌, ◌≤◌, length, IfOk};
ghost use Rattle.checked_reading.specs.Reading.{object_in};

use fields::Place;
pub use path::BlockSite;
use reading::{BlockReader, Search};
use refusals::FormatError;

/// A reader that tests each block of a heap before it is used, against what the heap's header says.
#[derive(Clone, Copy, Debug, PartialEq, Eq)]
pub struct Checked {
    /// The bit of value 2 says that direct blocks have a checksum; the others are not looked at: Flags.
    pub flags: u8,
    /// The address of the header, in bytes from the file's base, that each block of its heap repeats: Heap Header
    /// Address.
    pub heap_header_address: u64,
}

// The object in the direct block of `block_size` bytes at `addr` that begins at the heap offset `start`: it ends in the
// block, or 1 with its end in the block and the block's size.
#[tactic(auto, unfolding(crate::specs::Reading::object_in))]
fn object_in_block(
    search: &Search<'_>,
    addr: u64,
    block_size: u64,
    start: u64,
) -> Result<Place, FormatError>
    requires { addr + block_size ≤ length search.now.file.now }
    ensures placed { result
        ≡ object_in search.now.target search.now.len addr block_size start }
    ensures in_file { IfOk result (λ place. place.position + place.length
        ≤ length search.now.file.now) }
{
    let distance = search.target.saturating_sub(start);
    let end = distance.saturating_add(search.len);
    if end > block_size {
        return Err(FormatError::UnexpectedEof {
            expected: end,
            available: block_size,
        });
    }
    Ok(Place {
        position: addr + distance,
        length: search.len,
    })
}

impl BlockReader for Checked {
    ghost use Rattle.checked_reading.specs.Reading.{checked};

    ghost taking = { checked };

    // Inlined, as `object` is: with a call, the tests of a small block were measured to take longer.
    #[inline(always)]
    fn open(
        &self,
        search: &Search<'_>,
        addr: u64,
        nrows: u64,
        start: u64,
    ) -> Result<(), FormatError> {
        self.check_indirect_block(search, addr, nrows, start)
    }

    #[inline(always)]
    #[tactic(auto, unfolding(crate::specs::Reading::object_checked))]
    fn object(
        &self,
        search: &Search<'_>,
        addr: u64,
        block_size: u64,
        start: u64,
    ) -> Result<Place, FormatError> {
        self.check_direct_block(search, addr, block_size, start)?;
        object_in_block(search, addr, block_size, start)
    }
}
