//! Configurations of the search as texts: what a text asks for, and what a configuration is written
//! as.
//!
//! `specs/Grammar.antt` is the grammar: each rule gives a value and the place behind it, or the
//! first token that can't stand where it stands. `specs/Written.antt` has the canonical text, which
//! is read back as the same configuration.
#![tactic(auto)]

mod alias_names;
mod aliases;
mod config;
mod copies;
mod faults;
mod guides;
mod options;
mod phases;
mod reading;
mod tokens;
mod values;
mod writing;

pub use alias_names::AliasName;
pub use aliases::alias;
pub use config::{Config, GuideKind, Phase};
pub use faults::{ConfBad, ConfError, ConfKind};
pub use reading::read;
pub use writing::write;
