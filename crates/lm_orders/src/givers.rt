// Which operators give a fact, and what comes with it.
ghost use Rattle.std.specs.Prelude.{◌≡◌, ◌<◌, ◌^◌, ℕ, map, length, nat_eq, true, IfOk};
ghost use Rattle.std.specs.List.{list_any};
ghost use Rattle.sas_task.specs.Facts.{has_fact};
ghost use Rattle.sas_task.specs.declared.contents.Fact.{Fact as TheFact};
ghost use Rattle.lm_graph.specs.FactTables.{numbers_at};
ghost use Rattle.lm_orders.specs.Interference.{given_facts as may_give, always_given as must_give};
ghost use Rattle.lm_orders.specs.Givers.{Indexes, AreGivers, AreWithin, is_common};

use crate::facts::keep_common;
use lama_num::{NoMemory, Rows};
use lm_graph::FactTable;
use sas_task::{Fact, Operator, Task};
use std::alloc::{AllocError, Global};

/// The operators that give each fact, and the facts that each operator always gives.
#[derive(Drop)]
pub(crate) struct Givers {
    pub table: FactTable,
    pub always: Rows<Fact>,
}

fn given_facts(alloc: Global, operator: &Operator) -> Result<Vec<Fact>, AllocError>
    ensures { IfOk result (λ facts. facts.items ≡ may_give operator.now) }
{
    let effects = operator.effects.as_slice();
    effects.iter().map(|effect| effect.fact).collect(alloc)
}

fn always_given(alloc: Global, operator: &Operator) -> Result<Vec<Fact>, AllocError>
    ensures { IfOk result (λ facts. facts.items ≡ must_give operator.now) }
{
    let effects = operator.effects.as_slice();
    effects
        .iter()
        .filter(|effect| effect.conds.len() == 0)
        .map(|effect| effect.fact)
        .collect(alloc)
}

/// The facts that each operator may give.
fn given_rows(alloc: Global, operators: &[Operator]) -> Result<Rows<Fact>, NoMemory>
    ensures { IfOk result (λ rows. rows ≡ map may_give operators.now) }
{
    let mut rows = Rows::new(alloc);
    for operator in operators {
        let facts = given_facts(alloc, operator)?;
        rows.push(&facts)?;
    }
    Ok(rows)
}

/// The facts that each operator always gives.
fn always_rows(alloc: Global, operators: &[Operator]) -> Result<Rows<Fact>, NoMemory>
    ensures { IfOk result (λ rows. rows ≡ map must_give operators.now) }
{
    let mut rows = Rows::new(alloc);
    for operator in operators {
        let facts = always_given(alloc, operator)?;
        rows.push(&facts)?;
    }
    Ok(rows)
}

/// The numbers of rows by each of their facts.
pub(crate) fn index(alloc: Global, rows: &Rows<Fact>) -> Result<FactTable, NoMemory>
    requires { length rows.now < 2 ^ 32 }
    ensures { IfOk result (Indexes rows.now) }
{
    let mut table = FactTable::new(alloc);
    for number in 0..rows.len() {
        table.add(rows.row(number), number as u32)?;
    }
    Ok(table)
}

impl Givers {
    /// The operators that give each fact of a task without conditions.
    pub fn new(alloc: Global, task: &Task) -> Result<Givers, NoMemory>
        ensures givers { IfOk result (AreGivers task.now) }
        ensures within { IfOk result AreWithin }
    {
        let operators = task.parts().operators.as_slice();
        let given = given_rows(alloc, operators)?;
        let table = index(alloc, &given)?;
        let always = always_rows(alloc, operators)?;
        Ok(Givers { table, always })
    }

    /// The facts that all of some operators always give, if there is an operator.
    fn common(&self, alloc: Global, ops: &[u32]) -> Result<Vec<Fact>, AllocError>
        requires { (op : ℕ) → list_any (nat_eq op) ops.now ≡ true → op < length self.now.always }
        ensures { IfOk result (λ facts. (fact : TheFact) →
            has_fact facts.items fact ≡ is_common self.now.always ops.now fact) }
    {
        if ops.is_empty() {
            return Ok(Vec::new(alloc));
        }
        let mut facts = Vec::from_slice(alloc, self.always.row(ops[0] as usize))?;
        for op in ops {
            keep_common(&mut facts, self.always.row(*op as usize));
        }
        Ok(facts)
    }

    /// The facts that all operators that give a fact always give, if there is one.
    pub fn partners(&self, alloc: Global, fact: Fact) -> Result<Vec<Fact>, AllocError>
        requires { AreWithin self.now }
        ensures { IfOk result (λ facts. (other : TheFact) → has_fact facts.items other
            ≡ is_common self.now.always (numbers_at self.now.table fact) other) }
    {
        self.common(alloc, self.table.numbers(fact))
    }
}
