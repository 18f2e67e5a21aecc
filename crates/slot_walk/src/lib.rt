//! Slots found by counting: the second engine, which finds the direct slot of a heap offset. It walks the direct slots of
//! a table from 0, adds their sizes, and opens each indirect slot as it comes. There is no shift and no logarithm in what
//! runs, a size is doubled by adding it to itself, and of the table's own crate only its four numbers and the type of a
//! slot are taken. Functions with a `requires` serve our own crates and are no part of the interface.
#![tactic(auto)]

pub mod counting;
pub mod finding;
pub mod geometry;
pub mod laws;

pub use geometry::Geometry;

/// So many indirect blocks stand in one another at most in a heap of the fixed table, the root being the first: as deep
/// does a walk go.
pub const MAX_LEVELS: u64 = 8;
