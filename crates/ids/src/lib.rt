//! The IDs of a heap's objects: those of managed objects written and decoded, tiny objects read.
#![tactic(auto)]

pub mod decode;
pub mod tiny;
pub mod write;

pub use decode::ManagedId;
pub use decode::types::HeapIdType;
pub use write::write_managed_id;
