//! Reading below a header: the rows of its doubling table, the children of an indirect block, the walk from the root.
#![tactic(auto)]

pub mod children;
pub mod rows;
pub mod taking;
pub mod walk;

pub use children::HeapChild;
pub use rows::DoublingTable;
pub use taking::{BlockReader, Unchecked};
pub use walk::MAX_DEPTH;

/// What is sought below a heap's header, and where: the `len` bytes at the heap offset `target`, in a file whose
/// addresses have `offset_size` bytes.
#[derive(Clone, Copy)]
pub struct Search<'a> {
    pub table: DoublingTable,
    pub file: &'a [u8],
    pub target: u64,
    pub len: u64,
    pub offset_size: u8,
}
