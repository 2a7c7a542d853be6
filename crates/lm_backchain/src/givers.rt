// The operators that give a fact.
ghost use Rattle.std.specs.Prelude.{◌≡◌, length, map, IfOk};
ghost use Rattle.sas_task.specs.declared.contents.Parts.{Parts};
ghost use Rattle.lm_backchain.specs.Givers.{AreGivers, FindsGivers};

use lama_num::NoMemory;
use lm_graph::FactTable;
use sas_task::{Fact, Operator, Task};
use std::alloc::{AllocError, Global};

/// The operators of a task, by the facts that they give.
#[derive(Drop)]
pub struct Givers {
    alloc: Global,
    table: FactTable,
}

fn given_by(alloc: Global, operator: &Operator) -> Result<Vec<Fact>, AllocError>
    ensures { IfOk result (λ facts. facts.items ≡ map (λ e. e.fact) operator.now.effects) }
{
    operator
        .effects
        .iter()
        .map(|effect| effect.fact)
        .collect(alloc)
}

/// The numbers of the operators under each fact that they give.
fn make_table(alloc: Global, task: &Task) -> Result<FactTable, NoMemory>
    ensures { IfOk result (FindsGivers task.now (length task.now.operators)) }
{
    let operators = &task.parts().operators;
    let mut table = FactTable::new(alloc);
    for op in 0..operators.len() {
        let facts = given_by(alloc, &operators[op])?;
        table.add(&facts, op as u32)?;
    }
    Ok(table)
}

impl Givers {
    /// The operators of a task, each looked at once.
    pub fn new(alloc: Global, task: &Task) -> Result<Givers, NoMemory>
        ensures { IfOk result
            (λ givers. FindsGivers task.now (length task.now.operators) givers.table) }
    {
        let table = make_table(alloc, task)?;
        Ok(Givers { alloc, table })
    }

    /// The operators that give one of some facts, by their numbers; one that gives two of them may
    /// stand there twice.
    pub fn of(&self, facts: &[Fact]) -> Result<Vec<u32>, AllocError>
        ensures { IfOk result (λ ops. (parts : Parts) →
            FindsGivers parts (length parts.operators) self.now.table →
            AreGivers parts facts.now ops.items) }
    {
        let mut ops = Vec::new(self.alloc);
        for fact in facts {
            ops.extend_from_slice(self.table.numbers(*fact))?;
        }
        Ok(ops)
    }
}
