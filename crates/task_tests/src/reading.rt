// Texts of tasks that are read.
use crate::changing::{followed, layers, places, with_line, with_returns, without_last};
use lama_num::Seq;
use sas_reader::read;
use sas_task::{Fact, Operator, Parts, Variable};
use std::alloc::{AllocError, Global};

fn at(var: u32, val: u32) -> Fact {
    Fact { var, val }
}

/// The operator goes from one of the places to another.
fn goes(operator: &Operator, name: &[u8], from: u32, to: u32, cost: u32) -> bool {
    let effects = match operator.effects.as_slice() {
        [effect] => effect.conds.is_empty() && effect.fact == at(0, to),
        _ => false,
    };
    effects
        && operator.name.as_slice() == name
        && operator.pre.as_slice() == [at(0, from)].as_slice()
        && operator.cost == cost
}

fn are_the_values(values: &[Seq<u8>]) -> bool {
    match values {
        [first, second, third] => {
            first.as_slice() == b"Atom at(p0)".as_slice()
                && second.as_slice() == b"Atom at(p1)".as_slice()
                && third.as_slice() == b"Atom at(p2)".as_slice()
        }
        _ => false,
    }
}

fn have_the_variable(variables: &[Variable]) -> bool {
    match variables {
        [variable] => {
            are_the_values(&variable.values)
                && variable.name.as_slice() == b"var0".as_slice()
                && variable.layer.is_none()
        }
        _ => false,
    }
}

fn are_the_operators(operators: &[Operator], costs: (u32, u32, u32)) -> bool {
    match operators {
        [first, second, third] => {
            goes(first, b"go01", 0, 1, costs.0)
                && goes(second, b"go12", 1, 2, costs.1)
                && goes(third, b"jump", 0, 2, costs.2)
        }
        _ => false,
    }
}

/// The parts are those of the three places, with these costs.
fn are_the_places(parts: &Parts, metric: bool, costs: (u32, u32, u32)) -> bool {
    parts.metric == metric
        && have_the_variable(&parts.variables)
        && parts.groups.is_empty()
        && parts.init.as_slice() == [0].as_slice()
        && parts.goal.as_slice() == [at(0, 2)].as_slice()
        && are_the_operators(&parts.operators, costs)
        && parts.rules.is_empty()
}

fn gives_places(alloc: Global, text: &[u8], metric: bool, costs: (u32, u32, u32)) -> bool {
    match read(alloc, text) {
        Ok(task) => are_the_places(task.parts(), metric, costs),
        Err(_) => false,
    }
}

/// The same of the three places with another line.
fn gives_changed_places(
    alloc: Global,
    number: u32,
    line: &[u8],
    metric: bool,
    costs: (u32, u32, u32),
) -> bool {
    match with_line(alloc, places(), number, line) {
        Ok(text) => gives_places(alloc, &text, metric, costs),
        Err(AllocError) => false,
    }
}

#[test]
fn three_places_are_read(rt: HostRuntime) {
    let alloc = rt.alloc();
    assert!(rt; gives_places(alloc, places(), true, (1, 1, 5)));
    let dearest = (1, 1, 2_147_483_647);
    assert!(rt; gives_changed_places(alloc, 44, b"2147483647", true, dearest));
    assert!(rt; gives_changed_places(alloc, 5, b"0", false, (1, 1, 1)));
}

/// Whether the text of the three places in another form, where there was memory for it, gives them.
fn is_same(alloc: Global, text: Result<Vec<u8>, AllocError>) -> bool {
    match text {
        Ok(text) => gives_places(alloc, &text, true, (1, 1, 5)),
        Err(AllocError) => false,
    }
}

#[test]
fn other_forms_are_the_same(rt: HostRuntime) {
    let alloc = rt.alloc();
    let text = places();
    assert!(rt; is_same(alloc, without_last(alloc, text)));
    assert!(rt; is_same(alloc, with_returns(alloc, text)));
    assert!(rt; is_same(alloc, with_line(alloc, text, 29, b"\t 0  0\t0   01 \r")));
    assert!(rt; is_same(alloc, followed(alloc, text, b"\n \t\n\r")));
}

/// What two layers have beside the three places: layers, a mutex group, a condition, and rules.
fn are_two_layers(parts: &Parts) -> bool {
    let layers = match parts.variables.as_slice() {
        [x, d, e] => x.layer.is_none() && d.layer == Some(0) && e.layer == Some(1),
        _ => false,
    };
    let groups = match parts.groups.as_slice() {
        [group] => group.as_slice() == [at(0, 0), at(1, 1)].as_slice(),
        _ => false,
    };
    layers && groups
}

fn has_condition(operators: &[Operator]) -> bool {
    match operators {
        [flip] => match flip.effects.as_slice() {
            [effect] => effect.conds.as_slice() == [at(1, 0)].as_slice() && effect.fact == at(0, 1),
            _ => false,
        },
        _ => false,
    }
}

fn has_two_rules(parts: &Parts) -> bool {
    match parts.rules.as_slice() {
        [first, second] => {
            first.conds.as_slice() == [at(0, 1)].as_slice()
                && first.head == at(1, 1)
                && second.conds.as_slice() == [at(1, 0)].as_slice()
                && second.head == at(2, 1)
        }
        _ => false,
    }
}

fn are_the_layers(parts: &Parts) -> bool {
    are_two_layers(parts) && has_condition(&parts.operators) && has_two_rules(parts)
}

fn gives_layers(alloc: Global, text: &[u8]) -> bool {
    match read(alloc, text) {
        Ok(task) => are_the_layers(task.parts()),
        Err(_) => false,
    }
}

#[test]
fn two_layers_are_read(rt: HostRuntime) {
    assert!(rt; gives_layers(rt.alloc(), layers()));
}
