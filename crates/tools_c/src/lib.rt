//! C functions for the command, the tests and the comparisons; the loader's functions are apart from these. Each
//! that may be refused returns the refusal's number, 0 where there is none.
#![tactic(auto)]

pub mod checksums;
pub mod field_reads;
pub mod headers;
mod lists;
pub mod objects;
pub mod slots;
pub mod stores;
#[cfg(test)]
mod tests;
pub mod writing;
