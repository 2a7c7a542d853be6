//! Texts as lines, and lines as words.
//!
//! A text is cut at line feeds, and blanks and carriage returns at both ends of a line are dropped.
//! A line's words have one or more blanks between them. `specs/Lines.antt` says what both are as
//! lists; `Cursor` and `Words` go through them one by one, without memory.
#![tactic(auto)]

mod cursor;
mod words;

pub use cursor::{Cursor, is_blank, trimmed};
pub use words::Words;
