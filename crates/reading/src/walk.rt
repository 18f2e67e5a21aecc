//! From the root block of a heap down to an object's bytes: one walk, whatever is tested of the blocks on the way.
ghost use Rattle.std.specs.Prelude.{◌≡◌, ◌+◌, ◌≤◌, length, IfOk};
ghost use Rattle.reading.specs.Blocks.{child_at};
ghost use Rattle.reading.specs.Walk.{direct_at, max_depth, walk_by, root_by};

use crate::Search;
use crate::children::HeapChild;
use crate::taking::BlockReader;
use fields::convert::{is_undefined_addr, to_usize};
use fields::{Place, ensure_len};
use refusals::FormatError;

/// How many indirect blocks a walk comes to at most: the original's counter, 64 at the root and one less at each child.
pub const MAX_DEPTH: u64 = 64;

impl Search<'_> {
    /// The object in the direct block at `addr` that begins at the heap offset `start`, as the block stands. The target
    /// is never before it; the difference is cut at 0, so that this need not be asked.
    // Without `inline(always)`, as `object` of `Unchecked`: inlined before it was optimized, the walk took a tenth
    // longer.
    pub fn read_from_direct_block(&self, addr: u64, start: u64) -> Result<Place, FormatError>
        ensures placed { result
            ≡ direct_at self.now.file.now addr start self.now.target self.now.len }
        ensures in_file { IfOk result (λ place. place.position + place.length
            ≤ length self.now.file.now) }
    {
        let distance = self.target.saturating_sub(start);
        let overflow = FormatError::OffsetOverflow {
            address: addr,
            distance,
        };
        let position = addr.checked_add(distance).ok_or(overflow)?;
        ensure_len(self.file, to_usize(position), to_usize(self.len))?;
        Ok(Place {
            position,
            length: self.len,
        })
    }

    // The child that holds the target, of an indirect block that the walk may go on in. Each kind of walk has a function
    // of its own, with one call, so that it is inlined when it has been optimized. `find_child_at` in its place, which
    // is inlined before, took 3 to 24 % longer.
    fn find_child_below<B: BlockReader>(
        &self,
        addr: u64,
        nrows: u64,
        start: u64,
    ) -> Result<Option<HeapChild>, FormatError>
        ensures { result ≡ child_at self.now.table self.now.file.now addr nrows start
            self.now.target self.now.offset_size }
    {
        self.find_child_at(addr, nrows, start)
    }

    // The object below the indirect root block at `root`: child by child, in a loop over the original's counter. It is
    // not inlined, so that a direct root, which has no walk, does not pay for the loop's registers.
    #[inline(never)]
    #[tactic(auto, using(crate::proofs::Walking::walking))]
    fn read_from_indirect_block<B: BlockReader>(
        &self,
        blocks: &B,
        root: u64,
        root_rows: u64,
    ) -> Result<Place, FormatError>
        ensures walked { result ≡ walk_by (B.taking blocks.now self.now.table self.now.file.now
            self.now.offset_size self.now.target self.now.len) self.now.table self.now.file.now
            self.now.offset_size self.now.target self.now.len max_depth root root_rows 0 }
        ensures in_file { IfOk result (λ place. place.position + place.length
            ≤ length self.now.file.now) }
    {
        // A copy of its own, which the loop has in registers. Its address goes to nothing that is not inlined: so `object`
        // is lent the original.
        let search = *self;
        let (mut block, mut rows, mut start) = (root, root_rows, 0);
        for _depth in 0..MAX_DEPTH {
            blocks.open(&search, block, rows, start)?;
            let Some(child) = search.find_child_below::<B>(block, rows, start)? else {
                return Err(FormatError::UnexpectedEof {
                    expected: search.target.saturating_add(search.len),
                    available: search.file.len() as u64,
                });
            };
            match child {
                HeapChild::Direct {
                    addr,
                    block_size,
                    heap_offset,
                } => {
                    return blocks.object(self, addr, block_size, heap_offset);
                }
                HeapChild::Indirect {
                    addr,
                    nrows,
                    heap_offset,
                } => {
                    block = addr;
                    rows = nrows;
                    start = heap_offset;
                }
            }
        }
        Err(FormatError::DepthExceeded)
    }

    /// The object, from the root block of `nrows` rows at `root` on. A root of no rows is a direct block of the
    /// starting size, at the heap offset 0; the walk itself reads it without a look at the offset size.
    #[inline(always)]
    pub fn read_from_root<B: BlockReader>(
        &self,
        blocks: &B,
        root: u64,
        nrows: u16,
    ) -> Result<Place, FormatError>
        ensures walked { result ≡ root_by (B.taking blocks.now self.now.table self.now.file.now
            self.now.offset_size self.now.target self.now.len) self.now.table self.now.file.now
            root nrows self.now.target self.now.len self.now.offset_size }
        ensures in_file { IfOk result (λ place. place.position + place.length
            ≤ length self.now.file.now) }
    {
        if is_undefined_addr(root, self.offset_size) {
            return Err(FormatError::UnexpectedEof {
                expected: 1,
                available: 0,
            });
        }
        if nrows == 0 {
            return blocks.object(self, root, self.table.starting_block_size, 0);
        }
        self.read_from_indirect_block(blocks, root, u64::from(nrows))
    }
}
