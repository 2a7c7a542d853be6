// Lists of facts.
ghost use Rattle.std.specs.Prelude.{◌≡◌, ◌<◌, ◌&&◌, ◌||◌, ℕ, length, not, IsTrue, OnOk};
ghost use Rattle.std.specs.List.{list_all};
ghost use Rattle.sas_task.specs.Facts.{same_fact};
ghost use Rattle.sas_task.specs.Runs.{start_of};
ghost use Rattle.sas_task.specs.States.{holds as fact_holds};
ghost use Rattle.sas_task.specs.WellFormed.{is_fact, is_derived as derived};
ghost use Rattle.sas_task.specs.declared.contents.Fact.{Fact as TheFact};
ghost use Rattle.lm_graph.specs.Nodes.{is_less as less, is_ascending};
ghost use Rattle.lm_backchain.specs.Backchain.{has as has_fact, is_open as open_test};
ghost use Rattle.lm_backchain.specs.Backchain.{is_open_fact as open_fact};
ghost use Rattle.lm_backchain.specs.Places.{IsPlaceFor, is_at as at_place};

use sas_task::{Fact, Task, holds, is_derived};
use std::alloc::AllocError;

/// Whether a fact is one of some.
pub fn has(facts: &[Fact], fact: Fact) -> bool
    ensures { result ≡ has_fact facts.now fact }
{
    facts.iter().any(|other| fact == *other)
}

/// Facts by their variable, and then by their value.
pub fn is_less(a: Fact, b: Fact) -> bool
    ensures { result ≡ less a b }
{
    a.var < b.var || (a.var == b.var && a.val < b.val)
}

/// Where a fact stands or would stand among ascending ones.
fn place_of(facts: &[Fact], fact: Fact) -> usize
    ensures { IsPlaceFor facts.now fact result }
{
    for (place, other) in facts.iter().enumerate() {
        if !is_less(*other, fact) {
            return place;
        }
    }
    facts.len()
}

fn is_at(facts: &[Fact], place: usize, fact: Fact) -> bool
    ensures { result ≡ at_place facts.now place fact }
{
    match facts.get(place) {
        Some(other) => fact == *other,
        None => false,
    }
}

/// Puts a fact among ascending ones, unless it is there.
pub fn put_fact(facts: &mut Vec<Fact>, fact: Fact) -> Result<(), AllocError>
    requires { IsTrue (is_ascending facts.old.items) }
    ensures ascending { OnOk result (IsTrue (is_ascending facts.new.items)) }
    ensures has { OnOk result ((other : TheFact) →
        has_fact facts.new.items other ≡ (same_fact other fact || has_fact facts.old.items other)) }
{
    let place = place_of(facts, fact);
    if is_at(facts, place, fact) {
        return Ok(());
    }
    facts.insert(place, fact)?;
    Ok(())
}

fn is_open_fact(task: &Task, start: &[u32], fact: Fact) -> bool
    requires fact { fact.var < length start.now }
    requires start { start.now ≡ start_of task.now }
    ensures { result ≡ open_fact task.now fact }
{
    !is_derived(&task.parts().variables, fact.var) && !holds(start, fact)
}

/// Whether no fact is derived or holds in the initial state.
pub fn is_open(task: &Task, start: &[u32], facts: &[Fact]) -> bool
    requires facts { IsTrue (list_all (λ fact. is_fact task.now.variables fact) facts.now) }
    requires start { start.now ≡ start_of task.now }
    requires long { length start.now ≡ length task.now.variables }
    ensures { result ≡ open_test task.now facts.now }
{
    for fact in facts {
        if !is_open_fact(task, start, *fact) {
            return false;
        }
    }
    true
}
