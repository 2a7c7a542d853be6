//! Tasks of any size, for the programs that time other crates. Of this safety alone is proved.
#![tactic(auto)]

mod failing;
mod layers;
mod making;
mod road;
mod wide;

pub use failing::Failure;
pub use layers::layered;
pub use road::{Costs, delivery};
pub use wide::bits;
