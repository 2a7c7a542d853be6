// How a search ends.
use lama_num::Seq;
use search_log::{LimitHit, Log, Space};

/// The end of a search, with its log.
#[derive(Drop)]
pub enum SearchEnd {
    /// A plan, and what it really costs.
    Plan { ops: Seq<u32>, cost: u64, log: Log },
    /// There is no plan. These are the visited states: from each of them that isn't dead every step
    /// leads to one of them, and none is a goal.
    Unsolvable { space: Space, log: Log },
    /// Nothing is left to visit below the bound. In an exact phase no plan costs less.
    Unsolved { space: Space, log: Log },
    /// A limit was reached.
    Limit { hit: LimitHit, log: Log },
    /// Memory was wanting.
    NoMemory,
}
