//! The visited states of a search, packed into words: in order of insertion and none twice.
#![tactic(auto)]

mod interned;
mod registry;
mod rows;
mod sets;
mod wide;

pub use interned::Interned;
pub use registry::Registry;
