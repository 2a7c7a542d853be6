// Nodes of one fact, and which facts are reached without them.
ghost use Rattle.std.specs.Prelude.{◌≡◌, ℕ, List, true, IfOk, IsTrue};
ghost use Rattle.std.specs.List.{list_all};
ghost use Rattle.sas_task.specs.WellFormed.{is_fact};
ghost use Rattle.sas_task.specs.declared.contents.Fact.{Fact as TheFact};
ghost use Rattle.sas_task.specs.declared.contents.Parts.{Parts};
ghost use Rattle.relaxed_task.specs.Estimates.{is_finite};
ghost use Rattle.relaxed_task.specs.Numbers.{number_of};
ghost use Rattle.h_add.specs.Values.{value_at};
ghost use Rattle.bit_rows.specs.Rows.{has as has_number};
ghost use Rattle.lm_backchain.specs.Backchain.{is_open as open_test};
ghost use Rattle.lm_backchain.specs.Firsts.{Knows};
ghost use Rattle.lm_backchain.specs.Singles.{IsReachedRow, IsKept};

use bit_rows::{put, row_for};
use h_add::Add;
use lama_num::{LARGEST_ESTIMATE, NoMemory, Seq};
use sas_task::Fact;
use std::alloc::Global;

/// What is kept of a node of one fact that isn't derived and doesn't hold in the initial state.
#[derive(Drop)]
pub struct Single {
    /// The number of its fact.
    pub number: usize,
    /// The facts that are reached without it, by their numbers, as a row of bits.
    pub reached: Seq<u64>,
}

/// The numbers with a finite cost.
fn finite_row(alloc: Global, costs: &[u32]) -> Result<Vec<u64>, NoMemory>
    ensures { IfOk result (λ row. (number : ℕ) →
        has_number row.items number ≡ is_finite (value_at costs.now number)) }
{
    let mut row = row_for(alloc, costs.len())?;
    for (number, cost) in costs.iter().enumerate() {
        if *cost <= LARGEST_ESTIMATE {
            put(&mut row, number);
        }
    }
    Ok(row)
}

fn reached_row(alloc: Global, add: &Add) -> Result<Seq<u64>, NoMemory>
    ensures { IfOk result (λ row. (parts : Parts) (node : List TheFact) →
        Knows parts node add.now → IsReachedRow parts node row) }
{
    let row = finite_row(alloc, add.costs())?;
    Ok(Seq::from(row))
}

fn number_in(add: &Add, fact: Fact) -> usize
    ensures { (parts : Parts) (node : List TheFact) → Knows parts node add.now →
        IsTrue (is_fact parts.variables fact) → result ≡ number_of parts.variables fact }
{
    add.relaxed().number(fact.var as usize, fact.val)
}

/// What is kept of a node, after the initial state was evaluated without its facts.
pub fn kept_of(alloc: Global, add: &Add, node: &[Fact]) -> Result<Option<Single>, NoMemory>
    ensures { IfOk result (λ kept. (parts : Parts) → Knows parts node.now add.now →
        IsTrue (list_all (is_fact parts.variables) node.now) →
        open_test parts node.now ≡ true → IsKept parts node.now kept) }
{
    let [fact] = node else {
        return Ok(None);
    };
    let number = number_in(add, *fact);
    let reached = reached_row(alloc, add)?;
    Ok(Some(Single { number, reached }))
}
