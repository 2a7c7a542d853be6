// The preconditions of operators, each list in ascending order.
ghost use Rattle.std.specs.Prelude.{IfOk};
ghost use Rattle.succ_gen.specs.Conditions.{AreConditions};

use lama_num::{NoMemory, Rows};
use sas_task::{Fact, Operator};
use std::alloc::Global;

/// The preconditions of each operator, by variable and value, so that operators share what they
/// have in common.
pub fn conditions_of(alloc: Global, operators: &[Operator]) -> Result<Rows<Fact>, NoMemory>
    ensures { IfOk result (λ conditions. AreConditions operators.now conditions) }
{
    let mut conditions = Rows::new(alloc);
    let mut facts = Vec::new(alloc);
    for operator in operators {
        facts.clear();
        facts.extend_from_slice(&operator.pre)?;
        facts.sort_unstable();
        match conditions.push(&facts) {
            Ok(()) => {}
            Err(e) => return Err(e),
        }
    }
    Ok(conditions)
}
