//! How a walk takes the blocks that it comes to: as they stand, or tested first.
ghost use Rattle.std.specs.Prelude.{◌≡◌, ◌+◌, ◌≤◌, length, IfOk};

use crate::Search;
use fields::Place;
use refusals::FormatError;

/// What a walk does at a block, for what is sought.
pub trait BlockReader {
    ghost use Rattle.std.specs.Prelude.{ℕ, List};
    ghost use Rattle.reading.specs.declared.rows.DoublingTable.{DoublingTable};
    ghost use Rattle.reading.specs.Walk.{Taking};

    // By the table, the file, the offset size, and the heap offset and the length of what is sought.
    ghost taking: { Self → DoublingTable → List ℕ → ℕ → ℕ → ℕ → Taking };

    /// Whether a child may be sought in the indirect block of `nrows` rows at `addr` that begins at the heap offset
    /// `start`.
    fn open(
        &self,
        search: &Search<'_>,
        addr: u64,
        nrows: u64,
        start: u64,
    ) -> Result<(), FormatError>
        ensures { result ≡ (taking self.now search.now.table search.now.file.now
            search.now.offset_size search.now.target search.now.len).opened addr nrows start };

    /// The object in the direct block of `block_size` bytes at `addr` that begins at the heap offset `start`.
    fn object(
        &self,
        search: &Search<'_>,
        addr: u64,
        block_size: u64,
        start: u64,
    ) -> Result<Place, FormatError>
        ensures placed { result ≡ (taking self.now search.now.table search.now.file.now
            search.now.offset_size search.now.target search.now.len).object addr block_size start }
        ensures in_file { IfOk result (λ place. place.position + place.length
            ≤ length search.now.file.now) };
}

/// Every block as it stands: none of its fields is tested but an indirect block's signature, which every walk tests.
#[derive(Clone, Copy, Debug, PartialEq, Eq)]
pub struct Unchecked;

impl BlockReader for Unchecked {
    ghost use Rattle.reading.specs.Walk.{unchecked};

    ghost taking = { λ _ table file offset_size target len. unchecked file target len };

    #[inline(always)]
    fn open(
        &self,
        _search: &Search<'_>,
        _addr: u64,
        _nrows: u64,
        _start: u64,
    ) -> Result<(), FormatError> {
        Ok(())
    }

    fn object(
        &self,
        search: &Search<'_>,
        addr: u64,
        _block_size: u64,
        start: u64,
    ) -> Result<Place, FormatError> {
        search.read_from_direct_block(addr, start)
    }
}
