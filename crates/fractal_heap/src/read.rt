//! IDs and objects by a header: where the bytes of a managed object are in the file.
ghost use Rattle.std.specs.Prelude.{◌≡◌, ◌+◌, ◌≤◌, length, IfOk};
ghost use Rattle.ids.specs.IdTypes.{id_type};
ghost use Rattle.ids.specs.Decoded.{IgnoresPadding};
ghost use Rattle.fractal_heap.specs.Read.{id_in, sought_by, managed_by, managed_unchecked, tests_of};
ghost use Rattle.fractal_heap.specs.Read.{managed_checked, stopping_block_by};
ghost use Rattle.fractal_heap.specs.CheckedLaws.{IsFoundUnchecked, IsInStoppingBlock, DecidedByPath};
ghost use Rattle.fractal_heap.specs.CheckedLaws.{TellsRefusal};

use crate::header::FractalHeapHeader;
use checked_reading::{BlockSite, Checked};
use fields::Place;
use ids::{HeapIdType, ManagedId};
use reading::{BlockReader, Search, Unchecked};
use refusals::FormatError;

impl FractalHeapHeader {
    /// The type of an ID.
    pub fn heap_id_type(id: &[u8]) -> Result<HeapIdType, FormatError>
        ensures { result ≡ id_type id.now }
    {
        ids::decode::types::heap_id_type(id)
    }

    /// The heap offset and the length in a managed ID. What an ID has behind them is not looked at.
    pub fn decode_managed_id(self, id: &[u8]) -> Result<ManagedId, FormatError>
        ensures decoded { result ≡ id_in self id.now }
        ensures ignores_padding { IgnoresPadding self.table self.max_managed_object_size id.now
            result }
    {
        ids::decode::decode_managed_id(self.table, self.max_managed_object_size, id)
    }

    // The heap offset and the length in an ID of a heap whose objects are read: it has no filters.
    #[inline(always)]
    fn sought(&self, id: &[u8]) -> Result<ManagedId, FormatError>
        ensures { result ≡ sought_by self.now id.now }
    {
        if self.io_filter_encoded_length > 0 {
            return Err(FormatError::UnsupportedFilteredHeapObject);
        }
        self.decode_managed_id(id)
    }

    // The managed object that an ID names, with the blocks on the way taken as `blocks` takes them.
    // Inlined, so that a caller reads no field that it does not use.
    #[inline(always)]
    fn read_by<B: BlockReader>(
        &self,
        blocks: &B,
        file: &[u8],
        id: &[u8],
        offset_size: u8,
    ) -> Result<Place, FormatError>
        ensures found { result
            ≡ managed_by (B.taking blocks.now self.now.table file.now offset_size) self.now file.now
            id.now offset_size }
        ensures in_file { IfOk result (λ found. found.position + found.length ≤ length file.now) }
    {
        let object = self.sought(id)?;
        Search {
            table: self.table,
            file,
            target: object.offset,
            len: object.length,
            offset_size,
        }
        .read_from_root(
            blocks,
            self.root_block_address,
            self.current_rows_in_root_indirect_block,
        )
    }

    /// The managed object that an ID names: its position in the file, and its length. Every block on the way is tested
    /// before anything is sought in it: the offset size, the block's length, its signature, its version, the address of
    /// the heap's header, which is to be `heap_header_address`, its heap offset and its checksum (2, 1, 4, 5, 19, 19,
    /// 18); of direct blocks the checksum where the header's flags say that they have one. The object has to end in its
    /// block (1). What this finds is found without the tests, too.
    // Inlined, as the unchecked one is: a call copies the whole header, and so every field of it has to be read.
    #[inline(always)]
    #[tactic(auto, using(crate::proofs::Checked::of_a_read))]
    pub fn read_managed_object(
        self,
        file: &[u8],
        heap_header_address: u64,
        id: &[u8],
        offset_size: u8,
    ) -> Result<Place, FormatError>
        ensures found { result
            ≡ managed_checked self heap_header_address file.now id.now offset_size }
        ensures only_refuses { IfOk result (IsFoundUnchecked self file.now id.now offset_size) }
        ensures in_block { IfOk result (IsInStoppingBlock self heap_header_address file.now id.now
            offset_size) }
        ensures path_decides { DecidedByPath self heap_header_address file.now id.now offset_size
            result }
        ensures in_file { IfOk result (λ object. object.position + object.length
            ≤ length file.now) }
    {
        self.read_by(&self.checked(heap_header_address), file, id, offset_size)
    }

    /// The block at which `read_managed_object` stops when it is lent the same: the direct block that has the object,
    /// or the block that it refuses, by a test or for an object that ends behind it, or that has no child for the
    /// object. Of a read that is refused for its depth (10) it is the 64th block, the last that was tested. A read that
    /// comes to no block has its refusal here, and no block is named: 8, what refuses its ID, 1 with (1, 0) of a root
    /// that is undefined, or 2.
    #[tactic(auto, using(crate::proofs::Checked::tells_refusal))]
    pub fn stopping_block(
        self,
        file: &[u8],
        heap_header_address: u64,
        id: &[u8],
        offset_size: u8,
    ) -> Result<BlockSite, FormatError>
        ensures stopping { result
            ≡ stopping_block_by self heap_header_address file.now id.now offset_size }
        ensures refused { TellsRefusal self heap_header_address file.now id.now offset_size
            result }
    {
        let named = self.sought(id)?;
        let search = Search {
            table: self.table,
            file,
            target: named.offset,
            len: named.length,
            offset_size,
        };
        self.checked(heap_header_address).stopping_block(
            &search,
            self.root_block_address,
            self.current_rows_in_root_indirect_block,
        )
    }

    // What this heap's blocks are tested against, where its header has this address.
    #[inline(always)]
    fn checked(&self, heap_header_address: u64) -> Checked
        ensures { result ≡ tests_of self.now heap_header_address }
    {
        Checked {
            flags: self.flags,
            heap_header_address,
        }
    }

    /// The managed object that an ID names: its position in the file, and its length. The blocks on the way are taken
    /// as they stand, and nothing is tested of them but the signatures of indirect ones.
    #[inline(always)]
    pub fn read_managed_object_unchecked(
        self,
        file: &[u8],
        id: &[u8],
        offset_size: u8,
    ) -> Result<Place, FormatError>
        ensures found { result ≡ managed_unchecked self file.now id.now offset_size }
        ensures in_file { IfOk result (λ place. place.position + place.length ≤ length file.now) }
    {
        self.read_by(&Unchecked, file, id, offset_size)
    }
}
