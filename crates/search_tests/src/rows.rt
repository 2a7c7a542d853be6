// Searches whose ends were counted by hand.
use crate::ends::{End, greedy, searched, timed};
use host_mem::MemClock;
use lama_host::Clock;
use sas_task::CostKind;
use search_log::{LimitHit, Stop};
use std::test::Fail;
use test_tasks::{door, no_operator, risen_cost, rivals, swap, three_places};

/// Two goals that destroy each other: six pops and nothing is left; fewer are a limit, and the
/// third finds no room for a third state.
#[test]
fn rivals_end_by_their_limits(rt: HostRuntime) -> Result<(), Fail> {
    let mut setting = greedy();
    setting.most_pops = 5;
    let hit = LimitHit::Pops(5);
    assert!(rt; searched(&rt, rivals(), &setting)? == End::Limit { hit, pops: 5 });
    setting.most_pops = 6;
    let all = End::Unsolvable { states: 3, pops: 6 };
    assert!(rt; searched(&rt, rivals(), &setting)? == all);
    setting.most_states = 2;
    let hit = LimitHit::States(2);
    assert!(rt; searched(&rt, rivals(), &setting)? == End::Limit { hit, pops: 3 });
    Ok(())
}

/// Plans through derived variables and conditional effects, and a space of one state.
#[test]
fn small_tasks_are_solved(rt: HostRuntime) -> Result<(), Fail> {
    let end = End::Unsolvable { states: 1, pops: 0 };
    assert!(rt; searched(&rt, no_operator(), &greedy())? == end);
    let end = End::Plan {
        cost: 2,
        steps: 2,
        pops: 2,
    };
    assert!(rt; searched(&rt, door(), &greedy())? == end);
    let end = End::Plan {
        cost: 1,
        steps: 1,
        pops: 1,
    };
    assert!(rt; searched(&rt, swap(), &greedy())? == end);
    Ok(())
}

/// The real cost of a state rises as it is visited again at fewer steps, so that the fourth pop
/// goes past the bound.
#[test]
fn a_risen_cost_is_known_by_the_bound(rt: HostRuntime) -> Result<(), Fail> {
    let mut setting = greedy();
    setting.cost = CostKind::One;
    setting.reopen = true;
    setting.bound = Some(12);
    let end = End::Unsolved { states: 3, pops: 4 };
    assert!(rt; searched(&rt, risen_cost(), &setting)? == end);
    Ok(())
}

/// The clock answers 0 twice, then a phase that begins at 10 and one at 20 find plans, and one at
/// 1000 is over before its first visit.
#[test]
fn time_is_over_at_its_moment(rt: HostRuntime) -> Result<(), Fail> {
    let mut clock = MemClock::new(vec![in rt.alloc(); 0, 0, 10, 20, 1000]?);
    let _start = clock.now();
    let _began = clock.now();
    let mut setting = greedy();
    setting.stop = Some(Stop {
        start: 0,
        limit: 1000,
    });
    let plan = End::Plan {
        cost: 2,
        steps: 2,
        pops: 2,
    };
    assert!(rt; timed(&rt, three_places(), &setting, &mut clock)? == plan);
    assert!(rt; timed(&rt, three_places(), &setting, &mut clock)? == plan);
    let hit = LimitHit::Time {
        start: 0,
        limit: 1000,
        moment: 1000,
    };
    assert!(rt; timed(&rt, three_places(), &setting, &mut clock)? == End::Limit { hit, pops: 0 });
    Ok(())
}
