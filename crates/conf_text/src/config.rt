// What a configuration is.
use lama_num::Seq;
use sas_task::CostKind;

/// The most phases of a configuration.
pub const MOST_PHASES: usize = 100;

/// The highest weight of a weighted search.
pub const HIGHEST_WEIGHT: u64 = 1000;

/// The highest boost.
pub const HIGHEST_BOOST: u64 = 1_000_000;

/// The boost where none is given.
pub const USUAL_BOOST: u32 = 1000;

/// The most pops of a phase; without the option there may be as many.
pub const MOST_POPS: u64 = 1_099_511_627_776;

/// The most states of a phase; without the option there may be as many.
pub const MOST_STATES: u64 = 2_147_483_647;

/// An evaluator that guides a search.
#[derive(Clone, Copy, PartialEq, Eq)]
pub enum GuideKind {
    /// The additive estimate.
    Add,
    /// The cost of a relaxed plan.
    Ff,
    /// The landmark estimate.
    Lm,
}

/// One search: its guides, which of them prefer operators, and how it counts, stops and goes on.
#[derive(Drop)]
pub struct Phase {
    pub guides: Seq<GuideKind>,
    pub preferred: Seq<GuideKind>,
    /// How operators count in the search.
    pub cost: CostKind,
    /// How operators count in the estimates.
    pub estimate: CostKind,
    /// The weight of the estimate beside the cost so far; a greedy search has none.
    pub weight: Option<u32>,
    /// Whether a state is visited again where it is reached at less cost.
    pub reopen: bool,
    /// What the counters of the lists of preferred operators fall by at each progress.
    pub boost: u32,
    pub most_pops: u64,
    pub most_states: u32,
}

/// One phase, or several, one after another.
#[derive(Drop)]
pub struct Config {
    pub iterated: bool,
    pub phases: Seq<Phase>,
    /// Whether the last phase begins again as long as it finds a plan.
    pub repeat_last: bool,
}
