// What a portfolio is.
use crate::texts::Text;
use conf_text::{AliasName, Config};
use lama_num::Seq;

/// The most bytes of a portfolio's text.
pub const MOST_BYTES: usize = 1_048_576;

/// The most entries of a portfolio.
pub const MOST_ENTRIES: usize = 1000;

/// The highest share of an entry.
pub const HIGHEST_SHARE: u64 = 1_000_000;

/// What an entry does.
#[derive(Drop)]
pub enum Work {
    /// A search of the planner's own.
    Search(Config),
    /// The same, by a configuration that is built in.
    Alias(AliasName),
    /// A child program, by its words: one at least.
    Run(Seq<Text>),
}

/// One entry: its share of the time, beside those of the others, and its work.
#[derive(Drop)]
pub struct PortEntry {
    pub share: u32,
    pub work: Work,
}

/// Entries, one after another.
#[derive(Drop)]
pub struct Portfolio {
    pub entries: Seq<PortEntry>,
}
