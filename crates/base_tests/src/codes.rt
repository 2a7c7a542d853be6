// Exit codes of parts and of runs.
use exit_codes::{Codes, Part, combine, norm};

/// Whether the code of a part alone is this one, with a plan kept and without.
fn codes_are(part: Part, with_plan: u8, without: u8) -> bool {
    let codes = norm(part);
    combine(codes, true) == with_plan && combine(codes, false) == without
}

fn status_is(status: u8, kept: bool, with_plan: u8, without: u8) -> bool {
    codes_are(Part::Status { status, kept }, with_plan, without)
}

/// The codes of two parts together.
fn both(one: Part, other: Part) -> Codes {
    norm(one).union(norm(other))
}

fn status(status: u8) -> Part {
    Part::Status {
        status,
        kept: false,
    }
}

#[test]
fn codes_of_one_part(rt: HostRuntime) {
    assert!(rt; codes_are(Part::Unsolvable, 0, 11));
    assert!(rt; codes_are(Part::Exhausted, 0, 12));
    assert!(rt; codes_are(Part::Over, 0, 12));
    assert!(rt; codes_are(Part::Limit, 2, 23));
    assert!(rt; codes_are(Part::NoMemory, 1, 22));
    assert!(rt; codes_are(Part::OutOfTime, 2, 23));
    assert!(rt; codes_are(Part::PlanLimit, 2, 23));
    assert!(rt; codes_are(Part::Signal { passed: true }, 2, 23));
    assert!(rt; codes_are(Part::Signal { passed: false }, 32, 32));
}

#[test]
fn codes_of_one_child(rt: HostRuntime) {
    assert!(rt; status_is(0, true, 0, 12));
    assert!(rt; status_is(1, true, 1, 22));
    assert!(rt; status_is(2, true, 2, 23));
    assert!(rt; status_is(3, true, 3, 24));
    assert!(rt; status_is(1, false, 1, 12));
    assert!(rt; status_is(11, false, 0, 12));
    assert!(rt; status_is(12, true, 0, 12));
    assert!(rt; status_is(24, false, 3, 24));
    assert!(rt; status_is(29, false, 32, 32));
    assert!(rt; status_is(30, false, 30, 30));
    assert!(rt; status_is(39, true, 39, 39));
    assert!(rt; status_is(40, false, 32, 32));
    assert!(rt; status_is(255, true, 32, 32));
}

#[test]
fn codes_of_runs(rt: HostRuntime) {
    let limits = both(status(22), status(23));
    assert!(rt; combine(limits, true) == 3 && limits.has(22) && !limits.has(24));
    assert!(rt; combine(both(status(12), status(23)), false) == 12);
    let errors = both(status(33), status(34));
    assert!(rt; combine(errors, true) == 32 && combine(errors, false) == 32);
    assert!(rt; combine(both(status(34), Part::OutOfTime), true) == 34);
    assert!(rt; combine(both(Part::Unsolvable, status(12)), false) == 11);
    assert!(rt; combine(Codes::none(), true) == 0 && combine(Codes::none(), false) == 12);
}
