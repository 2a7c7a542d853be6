// The task type, and what it says of its operators and facts.
ghost use Rattle.std.specs.Prelude.{◌≡◌, ◌≤◌, Option, List, ℕ, length, nat_eq, option_map};
ghost use Rattle.std.specs.Prelude.{option_and_then};
ghost use Rattle.std.specs.List.{list_all};
ghost use Rattle.sas_task.specs.Limits.{highest_cost};
ghost use Rattle.sas_task.specs.WellFormed.{IsWellFormed};
ghost use Rattle.sas_task.specs.Runs.{cost_at};
ghost use Rattle.sas_task.specs.Costs.{is_unit_cost as unit_cost_test};
ghost use Rattle.sas_task.specs.Costs.{adjusted_cost as the_adjusted_cost};
ghost use Rattle.sas_task.specs.Facts.{predicate_of, are_mutex};

use crate::contents::{CostKind, Fact, Operator, Parts};
use crate::facts::{atom_of, before_arguments, have_both, value_name};
use std::marker::Model;

/// A task: parts that are well formed.
#[derive(Drop)]
pub struct Task {
    parts: Parts,
    unit_cost: bool,
}

impl Model for Task {
    ghost use Rattle.std.specs.Prelude.{◌≡◌};
    ghost use Rattle.sas_task.specs.declared.contents.Parts.{Parts as TheParts};
    ghost use Rattle.sas_task.specs.WellFormed.{IsWellFormed};
    ghost use Rattle.sas_task.specs.Costs.{is_unit_cost as unit_cost_test};

    ghost Value = { TheParts };

    ghost view = { λ t. t.parts };

    ghost invariant = { λ t. IsWellFormed t.parts × (t.unit_cost ≡ unit_cost_test t.parts) };
}

pub(crate) fn each_costs_one(operators: &[Operator]) -> bool
    ensures { result ≡ list_all (λ o. nat_eq o.cost 1) operators.now }
{
    operators.iter().all(|operator| operator.cost == 1)
}

impl Task {
    /// The task with well-formed parts.
    pub(crate) fn new(parts: Parts) -> Task
        requires { IsWellFormed parts }
        ensures { result ≡ parts }
    {
        let unit_cost = each_costs_one(&parts.operators);
        Task { parts, unit_cost }
    }

    /// The parts, which are well formed.
    pub fn parts(&self) -> &Parts
        ensures parts { result.now ≡ self.now }
        ensures well_formed { IsWellFormed self.now }
    {
        &self.parts
    }

    /// Whether every operator costs 1. So it is where there is no operator.
    pub fn is_unit_cost(&self) -> bool
        ensures { result ≡ unit_cost_test self.now }
    {
        self.unit_cost
    }

    fn cost(&self, op: u32) -> u32
        ensures cost { result ≡ cost_at self.now op }
        ensures small { result ≤ highest_cost }
    {
        match self.parts.operators.as_slice().get(op as usize) {
            Some(operator) => operator.cost,
            None => 0,
        }
    }

    /// What an operator costs by a kind of cost; an operator is given by its number from 0.
    pub fn adjusted_cost(&self, op: u32, kind: CostKind) -> u32
        ensures { result ≡ the_adjusted_cost self.now op kind }
    {
        match kind {
            CostKind::Normal => self.cost(op),
            CostKind::One => 1,
            CostKind::PlusOne if self.unit_cost => 1,
            CostKind::PlusOne => self.cost(op) + 1,
        }
    }

    /// The predicate of a fact: of a value that is named `Atom at(ball, room)` it is `at`. Values
    /// with a name of another form have none.
    pub fn predicate(&self, fact: Fact) -> Option<&[u8]>
        ensures { option_map (λ p. p.now) result ≡ predicate_of self.now fact }
    {
        before_arguments(atom_of(value_name(&self.parts, fact)?)?)
    }

    /// Whether two facts can't hold together: they are two values of one variable, or two facts of
    /// one mutex group. No fact is mutex with itself.
    pub fn is_mutex(&self, a: Fact, b: Fact) -> bool
        ensures { result ≡ are_mutex self.now a b }
    {
        a != b && (a.var == b.var || have_both(&self.parts.groups, a, b))
    }
}
