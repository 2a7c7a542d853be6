// What became of a plan that an entry offered.
use plan_check::PlanFault;

/// A plan that an entry offered in a round.
#[derive(Clone, Copy, PartialEq, Eq)]
pub struct Candidate {
    /// The number of the round, from 1.
    pub round: u32,
    /// The number of the entry, from 1.
    pub entry: u32,
    /// None for a plan of this process's search; 0 for the file `base.cE` of a child, and n for
    /// `base.cE.n`.
    pub file: Option<u32>,
    pub found: Found,
}

/// What became of a candidate: its place among the kept plans, from 0, or why it was dropped.
#[derive(Clone, Copy, PartialEq, Eq)]
pub enum Found {
    Kept { index: u32 },
    Dropped(PlanFault),
}
