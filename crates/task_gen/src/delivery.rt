// The delivery task.
ghost use Rattle.std.specs.Prelude.{◌≡◌, ◌+◌, ◌≤◌, ◌++◌, [], ◌∷◌, map, codes};
ghost use Rattle.std.specs.Prelude.{IfOk, OnOk, IsTrue};
ghost use Rattle.std.specs.String.{string_bytes};
ghost use Rattle.task_gen.specs.Delivery.{places, packages, starts_at, ends_at, fact_of, giving};
ghost use Rattle.task_gen.specs.Delivery.{truck_at, at_place, inside, IsPackageCount};
ghost use Rattle.task_gen.specs.Delivery.{truck_of, package_of};
ghost use Rattle.task_gen.specs.Delivery.{move_to as the_move, load as the_load};
ghost use Rattle.task_gen.specs.Delivery.{unload as the_unload};
ghost use Rattle.task_gen.specs.Delivery.{moves, loads, loads_of, delivery};
ghost use Rattle.task_gen.specs.ReadBack.{has_line_names};

use lama_num::{NoMemory, Seq};
use sas_task::{Effect, Fact, Operator, Parts, Task, Variable, accepted};
use std::alloc::{AllocError, Global};

fn bytes_of(text: String) -> Seq<u8>
    ensures { result ≡ string_bytes text }
{
    Seq::from(text.into_bytes())
}

// variables

fn truck_value(alloc: Global, place: u32) -> Result<Seq<u8>, AllocError>
    ensures { IfOk result (λ name. name ≡ truck_at place) }
{
    let name = format!(in alloc; "Atom truck-at({place})")?;
    Ok(bytes_of(name))
}

fn place_value(alloc: Global, number: u32, place: u32) -> Result<Seq<u8>, AllocError>
    ensures { IfOk result (λ name. name ≡ at_place number place) }
{
    let name = format!(in alloc; "Atom at({number}, {place})")?;
    Ok(bytes_of(name))
}

fn inside_value(alloc: Global, number: u32) -> Result<Seq<u8>, AllocError>
    ensures { IfOk result (λ name. name ≡ inside number) }
{
    let name = format!(in alloc; "Atom in({number})")?;
    Ok(bytes_of(name))
}

#[tactic(auto, using(crate::proofs::Ranges::ranges))]
fn truck_values(alloc: Global, n: u32) -> Result<Vec<Seq<u8>>, AllocError>
    requires { n ≤ 100 }
    ensures { IfOk result (λ values. values.items ≡ map truck_at (places n)) }
{
    let mut values = Vec::new(alloc);
    for place in 0..n + 1 {
        values.push(truck_value(alloc, place)?)?;
    }
    Ok(values)
}

#[tactic(auto, unfolding(crate::specs::Delivery::truck_of))]
fn truck_variable(alloc: Global, n: u32) -> Result<Variable, AllocError>
    requires { n ≤ 100 }
    ensures { IfOk result (λ v. v ≡ truck_of n) }
{
    let name = Vec::from_slice(alloc, b"truck")?;
    let values = truck_values(alloc, n)?;
    Ok(Variable {
        name: Seq::from(name),
        layer: None,
        values: Seq::from(values),
    })
}

#[tactic(auto, using(crate::proofs::Ranges::ranges))]
fn place_values(alloc: Global, n: u32, number: u32) -> Result<Vec<Seq<u8>>, AllocError>
    requires { n ≤ 100 }
    ensures { IfOk result (λ values. values.items ≡ map (at_place number) (places n)) }
{
    let mut values = Vec::new(alloc);
    for place in 0..n + 1 {
        values.push(place_value(alloc, number, place)?)?;
    }
    Ok(values)
}

#[tactic(auto, unfolding(crate::specs::Delivery::package_of))]
fn package_variable(alloc: Global, n: u32, number: u32) -> Result<Variable, AllocError>
    requires { n ≤ 100 }
    ensures { IfOk result (λ v. v ≡ package_of n number) }
{
    let name = format!(in alloc; "package{number}")?;
    let mut values = place_values(alloc, n, number)?;
    values.push(inside_value(alloc, number)?)?;
    Ok(Variable {
        name: bytes_of(name),
        layer: None,
        values: Seq::from(values),
    })
}

#[tactic(auto, using(crate::proofs::Ranges::ranges))]
fn variables(alloc: Global, n: u32) -> Result<Vec<Variable>, AllocError>
    requires { n ≤ 100 }
    ensures { IfOk result (λ vs. vs.items ≡ truck_of n ∷ map (package_of n) (packages n)) }
{
    let mut variables = Vec::new(alloc);
    variables.push(truck_variable(alloc, n)?)?;
    for number in 1..n + 1 {
        variables.push(package_variable(alloc, n, number)?)?;
    }
    Ok(variables)
}

// where packages are

fn start(n: u32, number: u32) -> u32
    requires n { n ≤ 100 }
    requires number { number ≤ 100 }
    ensures { result ≡ starts_at n number }
{
    (7 * number + 3) % (n + 1)
}

fn end(n: u32, number: u32) -> u32
    requires n { n ≤ 100 }
    requires number { number ≤ 100 }
    ensures { result ≡ ends_at n number }
{
    (5 * number + 1) % (n + 1)
}

#[tactic(auto, using(crate::proofs::Ranges::ranges))]
fn init(alloc: Global, n: u32) -> Result<Vec<u32>, AllocError>
    requires { n ≤ 100 }
    ensures { IfOk result (λ init. init.items ≡ 0 ∷ map (starts_at n) (packages n)) }
{
    let mut init = Vec::new(alloc);
    init.push(0)?;
    for number in 1..n + 1 {
        init.push(start(n, number))?;
    }
    Ok(init)
}

#[tactic(auto, using(crate::proofs::Ranges::ranges))]
fn goal(alloc: Global, n: u32) -> Result<Vec<Fact>, AllocError>
    requires { n ≤ 100 }
    ensures { IfOk result (λ goal. goal.items
        ≡ map (λ k. fact_of k (ends_at n k)) (packages n)) }
{
    let mut goal = Vec::new(alloc);
    for number in 1..n + 1 {
        goal.push(Fact {
            var: number,
            val: end(n, number),
        })?;
    }
    Ok(goal)
}

// operators

fn one_effect(alloc: Global, fact: Fact) -> Result<Seq<Effect>, AllocError>
    ensures { IfOk result (λ effects. effects ≡ record { conds = []; fact = fact } ∷ []) }
{
    let mut effects = Vec::new(alloc);
    effects.push(Effect {
        conds: Seq::new(alloc),
        fact,
    })?;
    Ok(Seq::from(effects))
}

fn operator(alloc: Global, name: String, pre: &[Fact], fact: Fact) -> Result<Operator, AllocError>
    ensures { IfOk result (λ o. o ≡ giving (string_bytes name) pre.now fact) }
{
    let pre = Vec::from_slice(alloc, pre)?;
    let effects = one_effect(alloc, fact)?;
    Ok(Operator {
        name: bytes_of(name),
        pre: Seq::from(pre),
        effects,
        cost: 1,
    })
}

#[tactic(auto, unfolding(crate::specs::Delivery::move_to))]
fn move_operator(alloc: Global, from: u32, to: u32) -> Result<Operator, AllocError>
    ensures { IfOk result (λ o. o ≡ the_move from to) }
{
    let name = format!(in alloc; "move {from} {to}")?;
    let pre = Fact { var: 0, val: from };
    operator(alloc, name, &[pre], Fact { var: 0, val: to })
}

#[tactic(auto, using(crate::proofs::Ranges::ranges))]
fn push_moves(alloc: Global, operators: &mut Vec<Operator>, n: u32) -> Result<(), AllocError>
    requires { n ≤ 100 }
    ensures { OnOk result (operators.new.items ≡ operators.old.items ++ moves n) }
{
    for place in 0..n {
        operators.push(move_operator(alloc, place, place + 1)?)?;
        operators.push(move_operator(alloc, place + 1, place)?)?;
    }
    Ok(())
}

#[tactic(auto, unfolding(crate::specs::Delivery::load))]
fn load(alloc: Global, n: u32, number: u32, place: u32) -> Result<Operator, AllocError>
    requires { n ≤ 100 }
    ensures { IfOk result (λ o. o ≡ the_load n number place) }
{
    let name = format!(in alloc; "load {number} {place}")?;
    let truck = Fact { var: 0, val: place };
    let there = Fact {
        var: number,
        val: place,
    };
    let inside = Fact {
        var: number,
        val: n + 1,
    };
    operator(alloc, name, &[truck, there], inside)
}

#[tactic(auto, unfolding(crate::specs::Delivery::unload))]
fn unload(alloc: Global, n: u32, number: u32, place: u32) -> Result<Operator, AllocError>
    requires { n ≤ 100 }
    ensures { IfOk result (λ o. o ≡ the_unload n number place) }
{
    let name = format!(in alloc; "unload {number} {place}")?;
    let truck = Fact { var: 0, val: place };
    let there = Fact {
        var: number,
        val: place,
    };
    let inside = Fact {
        var: number,
        val: n + 1,
    };
    operator(alloc, name, &[truck, inside], there)
}

#[tactic(auto, using(crate::proofs::Ranges::ranges))]
fn push_loads(
    alloc: Global,
    operators: &mut Vec<Operator>,
    n: u32,
    number: u32,
) -> Result<(), AllocError>
    requires { n ≤ 100 }
    ensures { OnOk result (operators.new.items ≡ operators.old.items ++ loads_of n number) }
{
    for place in 0..n + 1 {
        operators.push(load(alloc, n, number, place)?)?;
        operators.push(unload(alloc, n, number, place)?)?;
    }
    Ok(())
}

#[tactic(auto, using(crate::proofs::Ranges::ranges))]
fn operators(alloc: Global, n: u32) -> Result<Vec<Operator>, AllocError>
    requires { n ≤ 100 }
    ensures { IfOk result (λ operators. operators.items ≡ moves n ++ loads n) }
{
    let mut operators = Vec::new(alloc);
    push_moves(alloc, &mut operators, n)?;
    for number in 1..n + 1 {
        push_loads(alloc, &mut operators, n, number)?;
    }
    Ok(operators)
}

#[tactic(auto, unfolding(crate::specs::Delivery::delivery))]
fn parts(alloc: Global, n: u32) -> Result<Parts, AllocError>
    requires { n ≤ 100 }
    ensures { IfOk result (λ parts. parts ≡ delivery n) }
{
    let variables = variables(alloc, n)?;
    let init = init(alloc, n)?;
    let goal = goal(alloc, n)?;
    let operators = operators(alloc, n)?;
    Ok(Parts {
        metric: false,
        variables: Seq::from(variables),
        groups: Seq::new(alloc),
        init: Seq::from(init),
        goal: Seq::from(goal),
        operators: Seq::from(operators),
        rules: Seq::new(alloc),
    })
}

/// The delivery task of `n` packages, 1 to 100, and `n + 1` places along a road.
///
/// A truck goes from place to place, loads packages and unloads them; it starts at place 0. Every
/// operator costs 1, and each of these tasks has a plan.
#[tactic(auto, using(crate::proofs::Delivered::delivered))]
pub fn generate(alloc: Global, n: u32) -> Result<Task, NoMemory>
    requires { IsPackageCount n }
    ensures task { IfOk result (λ task. task ≡ delivery n) }
    // Lines can hold its names, so that its text is read back.
    ensures names { IfOk result (λ task. IsTrue (has_line_names task)) }
{
    let parts = parts(alloc, n)?;
    Ok(accepted(parts))
}
