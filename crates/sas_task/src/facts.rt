// What value names and mutex groups say of facts.
ghost use Rattle.std.specs.Prelude.{◌≡◌, ◌≤◌, ◌&&◌, Option, List, ℕ, option_map, position, length};
ghost use Rattle.std.specs.Prelude.{nat_eq, IfSome};
ghost use Rattle.std.specs.List.{list_any};
ghost use Rattle.sas_task.specs.Facts.{value_name as the_value_name, atom_of as the_atom_of};
ghost use Rattle.sas_task.specs.Facts.{before_arguments as the_front, has_fact};

use crate::contents::{Fact, Parts};
use lama_num::Seq;

/// The name of a fact's value.
pub fn value_name(parts: &Parts, fact: Fact) -> Option<&[u8]>
    ensures { option_map (λ p. p.now) result ≡ the_value_name parts.now fact }
{
    let variable = parts.variables.as_slice().get(fact.var as usize)?;
    let name = variable.values.as_slice().get(fact.val as usize)?;
    Some(name.as_slice())
}

/// What stands in a value name after `Atom `.
pub fn atom_of(name: &[u8]) -> Option<&[u8]>
    ensures { option_map (λ p. p.now) result ≡ the_atom_of name.now }
{
    name.strip_prefix(b"Atom ")
}

fn opening(atom: &[u8]) -> Option<usize>
    ensures place { result ≡ position (λ byte. nat_eq byte 40) atom.now }
    ensures within { IfSome result (λ place. place ≤ length atom.now) }
{
    atom.iter().position(|byte| *byte == b'(')
}

/// What stands in an atom before its arguments.
pub fn before_arguments(atom: &[u8]) -> Option<&[u8]>
    ensures { option_map (λ p. p.now) result ≡ the_front atom.now }
{
    match opening(atom) {
        Some(place) => Some(&atom[..place]),
        None => None,
    }
}

/// Whether a list has a fact.
pub fn has(facts: &[Fact], fact: Fact) -> bool
    ensures { result ≡ has_fact facts.now fact }
{
    facts.iter().any(|other| *other == fact)
}

fn has_both(group: &Seq<Fact>, a: Fact, b: Fact) -> bool
    ensures { result ≡ (has_fact group.now a && has_fact group.now b) }
{
    has(group, a) && has(group, b)
}

/// Whether a group has two facts.
pub fn have_both(groups: &[Seq<Fact>], a: Fact, b: Fact) -> bool
    ensures { result ≡ list_any (λ group. has_fact group a && has_fact group b) groups.now }
{
    groups.iter().any(|group| has_both(group, a, b))
}
