// What a log is made of.

/// What became of an entry that was taken.
#[derive(Clone, Copy, PartialEq, Eq)]
pub enum PopResult {
    /// Its state is known, or costs too much: it isn't visited.
    Known,
    /// Its state is visited, and dead.
    Dead,
    /// Its state is visited, and a goal.
    Goal,
    /// Its state is visited for the first time.
    Visited,
    /// Its state is visited again, at less cost.
    Again,
    /// Its state is new, and there are as many as there may be.
    Full,
}

/// An entry that was taken from a list: the operator `op` in the state of visit `parent`.
#[derive(Clone, Copy, PartialEq, Eq)]
pub struct Pop {
    pub list: u32,
    pub parent: u64,
    pub op: u32,
    pub result: PopResult,
}

/// A visit as a log lends it: the number of its state, what it cost to reach by the kind of cost,
/// and what the guides said of it.
#[derive(Clone, Copy)]
pub struct VisitAt<'a> {
    pub id: u32,
    pub g: u64,
    pub dead: bool,
    pub estimates: [u32; 3],
    pub preferred: &'a [u32],
}
