//! The reader of planning tasks in the translator's output format, version 3.
//!
//! `specs/` has one definition of the format, as what each line must be after those before it. What
//! a text gives is a walk over that definition, and so is its first fault.
#![tactic(auto)]

mod conditions;
mod facts;
mod faults;
mod fields;
mod numbers;
mod operators;
mod reader;
mod sections;
mod variables;

pub use faults::{SasError, SasFault, Want};
pub use reader::read;
