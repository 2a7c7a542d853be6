// The operators of a relaxed plan.
ghost use Rattle.std.specs.Prelude.{◌≡◌, [], IfOk};
ghost use Rattle.h_ff.specs.Places.{HasPlaces};

use std::alloc::{AllocError, Global};

/// The operators of a relaxed plan, and what is needed to find them.
#[derive(Drop)]
pub struct RelaxedPlan {
    /// Whether a fact is needed.
    pub marks: Vec<bool>,
    /// Ascending, each once.
    pub operators: Vec<u32>,
    /// Those of the operators that are applicable.
    pub preferred: Vec<u32>,
}

impl RelaxedPlan {
    /// No operators, with room for those of so many facts.
    pub fn new(alloc: Global, facts: usize) -> Result<RelaxedPlan, AllocError>
        ensures places { IfOk result (HasPlaces facts) }
        ensures operators { IfOk result (λ plan. plan.operators.items ≡ []) }
        ensures preferred { IfOk result (λ plan. plan.preferred.items ≡ []) }
    {
        let marks = vec![in alloc; false; facts]?;
        let operators = Vec::with_capacity(alloc, facts)?;
        let preferred = Vec::with_capacity(alloc, facts)?;
        Ok(RelaxedPlan {
            marks,
            operators,
            preferred,
        })
    }
}
