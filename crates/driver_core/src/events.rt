use exit_codes::Part;

/// What a driver tells its core. Rounds and entries are numbered from 1. An entry has a turn in
/// each round in which it runs, and the turns of one round may be on at the same time.
#[derive(Clone, Copy, PartialEq, Eq)]
pub enum Event {
    /// A turn begins, at a moment in milliseconds.
    Began {
        round: u32,
        entry: u32,
        moment: u64,
    },
    /// A turn that is on offers a candidate. Its cost is there where the candidate is a plan.
    Candidate {
        round: u32,
        entry: u32,
        cost: Option<u64>,
    },
    /// A turn that was on ended. `last` says that the others have nothing left to do: it proved
    /// that no plan exists, or that its plan is best.
    Ended {
        round: u32,
        entry: u32,
        part: Part,
        last: bool,
    },
    /// The time of the whole run is over, at a moment in milliseconds.
    OutOfTime {
        moment: u64,
    },
}

/// What the driver does then.
#[derive(Clone, Copy, PartialEq, Eq)]
pub enum Action {
    Go,
    /// Keep the candidate. `index` is its place among the kept ones, from 0.
    Keep { index: u32 },
    /// Drop the candidate, and go on.
    Drop,
    /// The run is over: start nothing more, and end what still runs.
    Stop,
}
