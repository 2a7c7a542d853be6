// Why parts are no task.
use thiserror::Error;

/// A quantity that has a limit, of a task's text or of its parts.
#[derive(Clone, Copy, Debug, PartialEq, Eq)]
pub enum What {
    /// The bytes of the text.
    Bytes,
    Variables,
    /// The values of one variable.
    Range,
    /// A layer's number.
    Layer,
    /// The values of all variables.
    Facts,
    /// The mutex groups.
    Groups,
    /// The facts of one mutex group.
    GroupFacts,
    Goals,
    Operators,
    /// The prevail conditions of one operator, or the conditions of one effect or rule.
    Conditions,
    /// The effects of one operator.
    Effects,
    Rules,
    /// The cost of one operator.
    Cost,
    /// The bytes of one name.
    Name,
}

/// Why parts are no task.
#[derive(Clone, Copy, Debug, PartialEq, Eq, Error)]
pub enum TaskError {
    /// A quantity is above its limit.
    #[error("refused")]
    TooLarge { what: What, count: u64 },
    /// A derived variable hasn't two values.
    #[error("refused")]
    WideDerived { var: u32 },
    /// A variable has no value, a fact or an initial value is out of range, or an effect is on a
    /// derived variable.
    #[error("refused")]
    BadFact,
    /// A cost isn't 1 in a task without a metric.
    #[error("refused")]
    BadCost,
    /// A rule's head isn't of a derived variable, or a condition of the rule lies in a layer that
    /// is too high. Rules are numbered from 0.
    #[error("refused")]
    BadRule { rule: u32 },
}
