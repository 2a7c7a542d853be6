/// How a run of operators from the initial state ends. Steps count from 1.
#[derive(Clone, Copy, PartialEq, Eq)]
pub enum RunEnd {
    /// It reaches the goal: the operators are a plan, of this cost.
    Goal { cost: u64 },
    /// Each operator was applicable in its turn, and the last state isn't a goal.
    NoGoal { cost: u64 },
    /// The operator of this step isn't applicable after those before it.
    NotApplicable { step: u32 },
}
