// What is said of a plan file.
use lama_num::Seq;
use plan_text::PlanTextFault;

/// Why a file isn't a plan, or not a wanted one. Steps count from 1.
#[derive(Clone, Copy, PartialEq, Eq)]
pub enum PlanFault {
    /// The bytes aren't the text of a plan.
    Text(PlanTextFault),
    /// No operator has the name of the step.
    NoOperator { step: u32 },
    /// No operator of that name is applicable after the steps before.
    NotApplicable { step: u32 },
    /// There are too many pairs of last state and cost after the step, or up to it.
    TooMany { step: u32 },
    /// No choice of operators leads to a goal.
    NoGoal,
    /// The file tells another kind of cost than the task has.
    WrongKind,
    /// No choice of operators is a plan of the cost that the file tells; the least cost of one that
    /// leads to a goal is `real`.
    WrongCost { real: u64 },
    /// The cost that the file tells isn't below the bound.
    NotCheaper { real: u64, bound: u64 },
}

/// The verdict on a plan file.
#[derive(Drop)]
pub enum Verdict {
    /// It is a plan, of these operators and this cost.
    Good { ops: Seq<u32>, cost: u64 },
    Bad(PlanFault),
}
