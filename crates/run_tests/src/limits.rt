// Runs with a bound, and by configurations with limits.
use crate::folders::plans;
use crate::runs::{End, Told, finished, tell_of};
use lama_num::NoMemory;
use search_log::LimitHit;
use std::alloc::Global;
use std::test::Fail;
use test_tasks::{risen_cost, rivals, three_places};

/// What a run below a bound tells that must leave no plan.
fn below(alloc: Global, bound: &str) -> Result<Told, NoMemory> {
    let words = ["--bound", bound, "t.sas"];
    tell_of(alloc, &words, three_places(), &plans(None, None, None))
}

#[test]
fn no_plan_is_below_the_bound(rt: HostRuntime) -> Result<(), Fail> {
    let told = below(rt.alloc(), "2")?;
    assert!(rt; told == finished(12, End::Best, 3, [2, 4, 4], 10));
    Ok(())
}

#[test]
fn nothing_is_below_zero(rt: HostRuntime) -> Result<(), Fail> {
    let told = below(rt.alloc(), "0")?;
    assert!(rt; told == finished(12, End::Best, 0, [0; 3], 0));
    Ok(())
}

/// What a search by a configuration tells that must leave no plan.
fn searched(alloc: Global, config: &str) -> Result<Told, NoMemory> {
    let words = ["--search", config, "t.sas"];
    tell_of(alloc, &words, rivals(), &plans(None, None, None))
}

#[test]
fn limits_of_pops(rt: HostRuntime) -> Result<(), Fail> {
    let five = searched(rt.alloc(), "lazy_greedy([ff()],max_pops=5)")?;
    assert!(rt; five == finished(23, End::Limit(LimitHit::Pops(5)), 1, [5, 0, 0], 5));
    let six = searched(rt.alloc(), "lazy_greedy([ff()],max_pops=6)")?;
    assert!(rt; six == finished(11, End::Unsolvable { states: 3 }, 1, [6, 0, 0], 6));
    Ok(())
}

#[test]
fn limits_of_states(rt: HostRuntime) -> Result<(), Fail> {
    let two = searched(rt.alloc(), "lazy_greedy([ff()],max_states=2)")?;
    assert!(rt; two == finished(23, End::Limit(LimitHit::States(2)), 1, [3, 0, 0], 3));
    Ok(())
}

/// The real cost of a state rises as it is visited again at fewer steps, so that the fourth pop
/// goes past the bound.
#[test]
fn a_risen_cost_is_known_by_the_bound(rt: HostRuntime) -> Result<(), Fail> {
    let config = "lazy_greedy([ff()],cost_type=one,estimate=one,reopen_closed=true)";
    let words = ["--search", config, "--bound", "12", "t.sas"];
    let told = tell_of(rt.alloc(), &words, risen_cost(), &plans(None, None, None))?;
    assert!(rt; told == finished(12, End::Unsolved, 1, [4, 0, 0], 4));
    Ok(())
}
