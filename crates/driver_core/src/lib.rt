//! The event core of the driver: which candidates are kept, when a run is over, and its exit code.
#![tactic(auto)]

mod driver;
mod events;
mod marks;
mod runs;
mod settings;
mod shares;

pub use driver::Core;
pub use events::{Action, Event};
pub use runs::actions;
pub use settings::Setting;
