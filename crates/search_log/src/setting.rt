// What a phase of a search is asked, and which limits it may reach.
use sas_task::CostKind;

/// When to stop: `limit` milliseconds after `start`.
#[derive(Clone, Copy, PartialEq, Eq)]
pub struct Stop {
    pub start: u64,
    pub limit: u64,
}

/// What a phase of a search is asked.
#[derive(Clone, Copy)]
pub struct Setting {
    /// How operators count, for what it costs to reach a state.
    pub cost: CostKind,
    /// The weight of estimates beside these costs, from 1 to 1,000; a greedy phase has none.
    pub weight: Option<u32>,
    /// Whether a state that is reached at less cost is visited again.
    pub reopen: bool,
    /// By how much the counters of the lists for preferred operators fall at progress, at most
    /// 1,000,000.
    pub boost: u32,
    /// Only plans that really cost less are looked for; above 0.
    pub bound: Option<u64>,
    /// At most so many entries are taken; at most 2^40.
    pub most_pops: u64,
    /// At most so many states are visited, from 1 to 2,147,483,647.
    pub most_states: u32,
    pub stop: Option<Stop>,
}

/// A limit that a phase reached.
#[derive(Clone, Copy, PartialEq, Eq)]
pub enum LimitHit {
    /// The clock answered `moment`, which isn't before the end of the limit.
    Time { start: u64, limit: u64, moment: u64 },
    /// So many entries were taken.
    Pops(u64),
    /// So many states were visited.
    States(u32),
}
