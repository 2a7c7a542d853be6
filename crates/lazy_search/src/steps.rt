// What the steps of a turn hand on: an entry that was taken, what to do with the state that it leads to,
// a visit that is to be kept, and how the turn went.
use crate::paths::Origin;
use open_lists::Popped;

/// An entry that was taken, and where it goes on from: the number of the parent's state, the number
/// of that state's latest visit, and what it costs to go on from there.
#[derive(Clone, Copy)]
pub(crate) struct Reached {
    pub popped: Popped,
    pub parent: u32,
    pub origin: u32,
    pub g: u64,
    pub real: u64,
}

/// What to do with the state that an entry leads to: nothing, nothing for want of room, or to visit
/// it under this number, for the first time or again.
#[derive(Clone, Copy)]
pub(crate) enum Decision {
    Known,
    Full,
    New(u32),
    Again(u32),
}

/// How a turn went: all lists were empty, the search goes on, a goal was visited, or there was no
/// room for a state.
#[derive(Clone, Copy)]
pub(crate) enum Turned {
    Empty,
    Done,
    AtGoal,
    AtFull,
}

/// A visit that is to be kept: its state, what it cost to reach it, how it came about, and whether
/// it is a goal.
#[derive(Clone, Copy)]
pub(crate) struct Arrival {
    pub id: u32,
    pub g: u64,
    pub real: u64,
    pub came: Origin,
    pub is_goal: bool,
}
