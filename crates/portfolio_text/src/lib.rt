//! Portfolios as texts: which entries a text lists, and what each of them does.
//!
//! `specs/PortfolioText.antt` says what a text is, line by line. Texts as contracts see
//! them stand here too.
#![tactic(auto)]

mod entries;
mod faults;
mod lines;
mod portfolio;
mod reading;
mod texts;

pub use conf_text::AliasName;
pub use faults::{PortBad, PortError, PortKind};
pub use portfolio::{PortEntry, Portfolio, Work};
pub use reading::read;
pub use texts::Text;
