//! The block at which a read stops: the last of its path. What a read is refused for is said of this block.
ghost use Rattle.std.specs.Prelude.{◌≡◌, Some};
ghost use Rattle.std.specs.Option.{option_map};
ghost use Rattle.reading.specs.Walk.{max_depth};
ghost use Rattle.checked_reading.specs.Path.{path_from, last_of, block_site, stopping_block};

use crate::Checked;
use fields::convert::is_undefined_addr;
use fields::is_width;
use reading::{HeapChild, MAX_DEPTH, Search};
use refusals::{Answer, FormatError, Reported};

/// Where a block of a heap stands in the file, in bytes from the file's base, and the heap offset at which it begins.
#[derive(Clone, Copy, Debug, PartialEq, Eq)]
pub struct BlockSite {
    pub address: u64,
    pub heap_offset: u64,
}

impl Reported for BlockSite {
    ghost use Rattle.checked_reading.specs.Path.{site_report};

    ghost report = { site_report };

    fn answer(self) -> Answer {
        Answer::accepted(self.address, self.heap_offset)
    }
}

impl Checked {
    // The last block of the path from the indirect root block of `root_rows` rows at `root` on.
    #[tactic(auto, using(crate::proofs::Lasts::stopping))]
    fn stopping_below(&self, search: &Search<'_>, root: u64, root_rows: u64) -> BlockSite
        ensures { Some result ≡ option_map block_site (last_of (path_from self.now search.now.table
            search.now.file.now search.now.offset_size search.now.target max_depth root root_rows
            0)) }
    {
        let mut rows = root_rows;
        let mut block = BlockSite {
            address: root,
            heap_offset: 0,
        };
        // Where the depth is used up, the block before is the last that was tested.
        let mut last = block;
        for _depth in 0..MAX_DEPTH {
            last = block;
            let (addr, start) = (block.address, block.heap_offset);
            let Ok(()) = self.check_indirect_block(search, addr, rows, start) else {
                return last;
            };
            let Ok(Some(child)) = search.find_child_at(addr, rows, start) else {
                return last;
            };
            match child {
                HeapChild::Direct {
                    addr,
                    heap_offset,
                    ..
                } => {
                    return BlockSite {
                        address: addr,
                        heap_offset,
                    };
                }
                HeapChild::Indirect {
                    addr,
                    nrows,
                    heap_offset,
                } => {
                    rows = nrows;
                    block = BlockSite {
                        address: addr,
                        heap_offset,
                    };
                }
            }
        }
        last
    }

    /// The block at which a read stops that walks from the root block of `nrows` rows at `root`: the direct block that
    /// has the object, or the block that is refused, by its own tests or for an object that ends past it, or has no
    /// child for the object. Of a read that is refused for its depth (10) it is the 64th block, the last that was
    /// tested, and not its child. A read that comes to no block has its refusal here: 1 with (1, 0), a root that is
    /// undefined, or 2.
    pub fn stopping_block(
        &self,
        search: &Search<'_>,
        root: u64,
        nrows: u16,
    ) -> Result<BlockSite, FormatError>
        ensures { result ≡ stopping_block self.now search.now.table search.now.file.now root nrows
            search.now.target search.now.offset_size }
    {
        if is_undefined_addr(root, search.offset_size) {
            return Err(FormatError::UnexpectedEof {
                expected: 1,
                available: 0,
            });
        }
        if !is_width(search.offset_size) {
            return Err(FormatError::InvalidOffsetSize(search.offset_size));
        }
        if nrows == 0 {
            return Ok(BlockSite {
                address: root,
                heap_offset: 0,
            });
        }
        Ok(self.stopping_below(search, root, u64::from(nrows)))
    }
}
