// The delivery task: a truck brings packages along a road. Its operators cost what is asked for.
use crate::failing::Failure;
use crate::making::task;
use lama_num::Seq;
use sas_task::{Fact, Operator, Parts, Task, Variable};
use std::alloc::{AllocError, Global};
use test_tasks::{fact, giving, variable};

/// What operators cost: from the least to the greatest, scattered by their numbers.
#[derive(Clone, Copy)]
pub struct Costs {
    pub least: u32,
    pub greatest: u32,
}

impl Costs {
    fn of(self, operator: usize) -> u32 {
        let scattered = ((operator % 4_294_967_296) as u32).wrapping_mul(2_654_435_761) >> 8;
        let kinds = self.greatest.saturating_sub(self.least).saturating_add(1);
        self.least.saturating_add(scattered % kinds)
    }
}

/// The truck is variable 0, and package k is variable k; the value after the places is "in the
/// truck".
fn variables(alloc: Global, packages: u32) -> Result<Seq<Variable>, AllocError> {
    let mut variables = Seq::new(alloc);
    variables.push(variable(alloc, None, packages.saturating_add(1))?)?;
    for _ in 0..packages {
        variables.push(variable(alloc, None, packages.saturating_add(2))?)?;
    }
    Ok(variables)
}

/// A place that a package has by its number, of so many places.
fn place(package: u32, factor: u32, shift: u32, places: u32) -> u32 {
    package.wrapping_mul(factor).wrapping_add(shift) % places.max(1)
}

fn init(alloc: Global, packages: u32) -> Result<Seq<u32>, AllocError> {
    let mut init = Seq::new(alloc);
    init.push(0)?;
    for package in 0..packages {
        init.push(place(package, 7, 10, packages.saturating_add(1)))?;
    }
    Ok(init)
}

fn goal(alloc: Global, packages: u32) -> Result<Seq<Fact>, AllocError> {
    let mut goal = Seq::new(alloc);
    for package in 0..packages {
        let at = place(package, 5, 6, packages.saturating_add(1));
        goal.push(fact(package.saturating_add(1), at))?;
    }
    Ok(goal)
}

fn add_operator(
    alloc: Global,
    operators: &mut Seq<Operator>,
    costs: Costs,
    pre: &[Fact],
    gives: Fact,
) -> Result<(), AllocError> {
    let operator = giving(alloc, pre, gives, costs.of(operators.len()))?;
    operators.push(operator)
}

/// The truck moves to the next place, and back.
fn add_moves(
    alloc: Global,
    operators: &mut Seq<Operator>,
    costs: Costs,
    packages: u32,
) -> Result<(), AllocError> {
    for here in 0..packages {
        let next = here.saturating_add(1);
        add_operator(alloc, operators, costs, &[fact(0, here)], fact(0, next))?;
        add_operator(alloc, operators, costs, &[fact(0, next)], fact(0, here))?;
    }
    Ok(())
}

/// A package is loaded and unloaded at each place.
fn add_loads(
    alloc: Global,
    operators: &mut Seq<Operator>,
    costs: Costs,
    package: u32,
    places: u32,
) -> Result<(), AllocError> {
    for place in 0..places {
        let truck = fact(0, place);
        let there = fact(package, place);
        let inside = fact(package, places);
        add_operator(alloc, operators, costs, &[truck, there], inside)?;
        add_operator(alloc, operators, costs, &[truck, inside], there)?;
    }
    Ok(())
}

fn operators(alloc: Global, costs: Costs, packages: u32) -> Result<Seq<Operator>, AllocError> {
    let mut operators = Seq::new(alloc);
    add_moves(alloc, &mut operators, costs, packages)?;
    for package in 0..packages {
        add_loads(
            alloc,
            &mut operators,
            costs,
            package.saturating_add(1),
            packages.saturating_add(1),
        )?;
    }
    Ok(operators)
}

fn parts(alloc: Global, costs: Costs, packages: u32) -> Result<Parts, AllocError> {
    let variables = variables(alloc, packages)?;
    let init = init(alloc, packages)?;
    let goal = goal(alloc, packages)?;
    let operators = operators(alloc, costs, packages)?;
    Ok(Parts {
        metric: true,
        variables,
        groups: Seq::new(alloc),
        init,
        goal,
        operators,
        rules: Seq::new(alloc),
    })
}

/// The delivery task of so many packages.
pub fn delivery(alloc: Global, costs: Costs, packages: u32) -> Result<Task, Failure> {
    task(parts(alloc, costs, packages))
}
