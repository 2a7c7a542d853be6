// Runs of two entries of equal time.
use driver_core::{Action, Core, Event, actions};
use exit_codes::Part;
use lama_num::NoMemory;
use std::alloc::Global;

/// What a run of two entries is set to.
#[derive(Clone, Copy)]
struct Run {
    limit: Option<u64>,
    bound: Option<u64>,
    single: bool,
    rounds: bool,
}

/// What stands at the end of a run.
#[derive(Clone, Copy)]
struct End {
    over: bool,
    bound: Option<u64>,
    code: u8,
}

fn began(round: u32, entry: u32) -> Event {
    Event::Began {
        round,
        entry,
        moment: 0,
    }
}

fn candidate(round: u32, entry: u32, cost: Option<u64>) -> Event {
    Event::Candidate { round, entry, cost }
}

fn status(round: u32, entry: u32, status: u8, kept: bool) -> Event {
    Event::Ended {
        round,
        entry,
        part: Part::Status { status, kept },
        last: false,
    }
}

fn stands_so(core: &Core, want: End) -> bool {
    core.is_over() == want.over && core.bound() == want.bound && core.code() == want.code
}

fn core_of(alloc: Global, run: &Run) -> Result<Core, NoMemory> {
    let bound = run.bound;
    Core::new(alloc, &[1, 1], 0, run.limit, bound, run.single, run.rounds)
}

fn stands_after(core: Core, events: &[Event], want: End) -> bool {
    let mut core = core;
    for event in events {
        core.step(*event);
    }
    stands_so(&core, want)
}

fn ends_so(alloc: Global, run: &Run, events: &[Event], want: End) -> bool {
    match core_of(alloc, run) {
        Ok(core) => stands_after(core, events, want),
        Err(NoMemory) => false,
    }
}

fn actions_of(alloc: Global, run: &Run, events: &[Event]) -> Result<Vec<Action>, NoMemory> {
    actions(
        alloc,
        &[1, 1],
        0,
        run.limit,
        run.bound,
        run.single,
        run.rounds,
        events,
    )
}

fn answers_are(alloc: Global, run: &Run, events: &[Event], want: &[Action]) -> bool {
    match actions_of(alloc, run, events) {
        Ok(answers) => answers.as_slice() == want,
        Err(NoMemory) => false,
    }
}

#[test]
fn overlapping_turns(rt: HostRuntime) {
    let run = Run {
        limit: None,
        bound: None,
        single: false,
        rounds: false,
    };
    let events = [
        began(1, 1),
        began(1, 2),
        candidate(1, 2, Some(5)),
        candidate(1, 1, Some(5)),
        candidate(1, 1, Some(3)),
        status(1, 2, 0, true),
        status(1, 1, 23, true),
    ];
    let want = [
        Action::Go,
        Action::Go,
        Action::Keep { index: 0 },
        Action::Drop,
        Action::Keep { index: 1 },
        Action::Go,
        Action::Stop,
    ];
    assert!(rt; answers_are(rt.alloc(), &run, &events, &want));
    let end = End {
        over: true,
        bound: Some(3),
        code: 2,
    };
    assert!(rt; ends_so(rt.alloc(), &run, &events, end));
}

#[test]
fn one_plan(rt: HostRuntime) {
    let run = Run {
        limit: Some(10),
        bound: Some(4),
        single: true,
        rounds: false,
    };
    let events = [
        began(1, 1),
        candidate(1, 1, None),
        candidate(1, 1, Some(4)),
        candidate(1, 1, Some(3)),
        candidate(1, 1, Some(2)),
        status(1, 1, 0, true),
    ];
    let want = [
        Action::Go,
        Action::Drop,
        Action::Drop,
        Action::Keep { index: 0 },
        Action::Stop,
        Action::Stop,
    ];
    assert!(rt; answers_are(rt.alloc(), &run, &events, &want));
    let end = End {
        over: true,
        bound: Some(3),
        code: 0,
    };
    assert!(rt; ends_so(rt.alloc(), &run, &events, end));
}

/// A run that was stopped without a plan.
fn stopped(bound: Option<u64>, code: u8) -> End {
    End {
        over: true,
        bound,
        code,
    }
}

/// A run below a bound and with a limit of time.
const LIMITED: Run = Run {
    limit: Some(10),
    bound: Some(4),
    single: false,
    rounds: false,
};

#[test]
fn out_of_time(rt: HostRuntime) {
    let late = [
        began(1, 1),
        Event::OutOfTime { moment: 10 },
        Event::Ended {
            round: 1,
            entry: 1,
            part: Part::Signal { passed: true },
            last: false,
        },
    ];
    let stop = [Action::Go, Action::Stop, Action::Stop];
    assert!(rt; answers_are(rt.alloc(), &LIMITED, &late, &stop));
    assert!(rt; ends_so(rt.alloc(), &LIMITED, &late, stopped(Some(4), 23)));
}

#[test]
fn an_entry_shows_that_no_plan_exists(rt: HostRuntime) {
    let unsolvable = [
        began(1, 1),
        began(1, 2),
        Event::Ended {
            round: 1,
            entry: 1,
            part: Part::Unsolvable,
            last: true,
        },
    ];
    let stop = [Action::Go, Action::Go, Action::Stop];
    assert!(rt; answers_are(rt.alloc(), &LIMITED, &unsolvable, &stop));
    assert!(rt; ends_so(rt.alloc(), &LIMITED, &unsolvable, stopped(Some(4), 11)));
}

#[test]
fn an_entry_that_kept_a_plan_runs_again(rt: HostRuntime) {
    let run = Run {
        limit: None,
        bound: None,
        single: false,
        rounds: true,
    };
    let events = [
        began(1, 1),
        candidate(1, 1, Some(9)),
        status(1, 1, 0, true),
        began(1, 2),
        status(1, 2, 0, false),
        began(2, 1),
        candidate(2, 1, None),
        status(2, 1, 0, false),
    ];
    let want = [
        Action::Go,
        Action::Keep { index: 0 },
        Action::Go,
        Action::Go,
        Action::Go,
        Action::Go,
        Action::Drop,
        Action::Stop,
    ];
    assert!(rt; answers_are(rt.alloc(), &run, &events, &want));
    let end = End {
        over: true,
        bound: Some(9),
        code: 0,
    };
    assert!(rt; ends_so(rt.alloc(), &run, &events, end));
}
