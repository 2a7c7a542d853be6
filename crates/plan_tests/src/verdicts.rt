// The judge's verdicts on plan files from outside.
use crate::tasks::{same_names_costs, seventeen_steps, seventeen_switches, sixteen_steps};
use lama_num::NoMemory;
use plan_check::{PlanFault, Verdict, judge};
use plan_text::PlanTextFault;
use sas_task::Task;
use std::alloc::Global;
use test_tasks::{one_name, read_task, same_names, three_places};

/// A text, and the bound that a plan's cost must be below.
#[derive(Clone, Copy)]
struct Offer<'a> {
    text: &'a str,
    bound: Option<u64>,
}

fn unbounded(text: &str) -> Offer<'_> {
    Offer { text, bound: None }
}

/// What the judge says. Nothing of what it promises is passed on.
fn judged(alloc: Global, task: &Task, offer: Offer<'_>) -> Result<Verdict, NoMemory> {
    judge(alloc, task, offer.text.as_bytes(), offer.bound)
}

fn is_good_for(alloc: Global, task: &Task, offer: Offer<'_>, want: &[u32], total: u64) -> bool {
    match judged(alloc, task, offer) {
        Ok(Verdict::Good { ops, cost }) => ops.as_slice() == want && cost == total,
        _ => false,
    }
}

fn is_bad_for(alloc: Global, task: &Task, offer: Offer<'_>, fault: PlanFault) -> bool {
    match judged(alloc, task, offer) {
        Ok(Verdict::Bad(found)) => found == fault,
        _ => false,
    }
}

/// Whether a text is judged a plan of these operators, at this cost, for the task of another text.
fn is_good(alloc: Global, text: &str, offer: Offer<'_>, want: &[u32], total: u64) -> bool {
    match read_task(alloc, text) {
        Some(task) => is_good_for(alloc, &task, offer, want, total),
        None => false,
    }
}

/// Whether a text is judged to have this fault for the task of another text.
fn is_bad(alloc: Global, text: &str, offer: Offer<'_>, fault: PlanFault) -> bool {
    match read_task(alloc, text) {
        Some(task) => is_bad_for(alloc, &task, offer, fault),
        None => false,
    }
}

/// Whether a text has this fault for the task of three places, with no bound.
fn has_fault(alloc: Global, text: &str, fault: PlanFault) -> bool {
    is_bad(alloc, three_places(), unbounded(text), fault)
}

/// The text of two steps, with no end of the last line.
const TWO_STEPS: &str = "(go01)\n(go12)\n; cost = 2 (general cost)";

fn below(bound: u64) -> Offer<'static> {
    Offer {
        text: TWO_STEPS,
        bound: Some(bound),
    }
}

#[test]
fn plans_below_the_bound_are_good(rt: HostRuntime) {
    let alloc = rt.alloc();
    let whole = unbounded("(go01)\n(go12)\n; cost = 2 (general cost)\n");
    assert!(rt; is_good(alloc, three_places(), whole, &[0, 1], 2));
    let jump = unbounded("(jump)\n; cost = 5 (general cost)\n");
    assert!(rt; is_good(alloc, three_places(), jump, &[2], 5));
    assert!(rt; is_good(alloc, three_places(), below(3), &[0, 1], 2));
    let dear = PlanFault::NotCheaper { real: 2, bound: 2 };
    assert!(rt; is_bad(alloc, three_places(), below(2), dear));
}

#[test]
fn costs_that_fail(rt: HostRuntime) {
    let alloc = rt.alloc();
    let unit = "( go01 )\n(go12)\n; cost = 2 (unit cost)\n";
    assert!(rt; has_fault(alloc, unit, PlanFault::WrongKind));
    let low = "(go01)\n(go12)\n; cost = 1 (general cost)\n";
    assert!(rt; has_fault(alloc, low, PlanFault::WrongCost { real: 2 }));
}

#[test]
fn steps_that_fail(rt: HostRuntime) {
    let alloc = rt.alloc();
    let short = "(go01)\n; cost = 1 (general cost)\n";
    assert!(rt; has_fault(alloc, short, PlanFault::NoGoal));
    let unit = "(go01)\n; cost = 9 (unit cost)\n";
    assert!(rt; has_fault(alloc, unit, PlanFault::NoGoal));
    let early = "(go12)\n; cost = 1 (general cost)\n";
    assert!(rt; has_fault(alloc, early, PlanFault::NotApplicable { step: 1 }));
    let unknown = "(go01)\n(fly)\n; cost = 1 (general cost)\n";
    assert!(rt; has_fault(alloc, unknown, PlanFault::NoOperator { step: 2 }));
}

#[test]
fn a_text_that_is_no_plan(rt: HostRuntime) {
    let second = PlanFault::Text(PlanTextFault::BadLine { line: 2 });
    assert!(rt; has_fault(rt.alloc(), "(go01)\n(go1\n", second));
}

#[test]
fn operators_of_one_name(rt: HostRuntime) {
    let alloc = rt.alloc();
    let plan = unbounded("(step)\n(fin)\n; cost = 2 (unit cost)\n");
    assert!(rt; is_good(alloc, same_names(), plan, &[1, 2], 2));
    let twice = unbounded("(step)\n(step)\n; cost = 2 (unit cost)\n");
    assert!(rt;
        is_bad(
            alloc,
            same_names(),
            twice,
            PlanFault::NotApplicable { step: 2 }
        )
    );
}

#[test]
fn the_applicable_one_is_chosen(rt: HostRuntime) {
    let plan = unbounded("(go)\n(go)\n; cost = 2 (unit cost)\n");
    assert!(rt; is_good(rt.alloc(), one_name(), plan, &[0, 1], 2));
}

#[test]
fn operators_of_one_name_and_several_costs(rt: HostRuntime) {
    let alloc = rt.alloc();
    let two = unbounded("(go)\n; cost = 2 (general cost)\n");
    assert!(rt; is_good(alloc, same_names_costs(), two, &[0], 2));
    let three = "(go)\n; cost = 3 (general cost)\n";
    assert!(rt; is_good(alloc, same_names_costs(), unbounded(three), &[1], 3));
    let four = unbounded("(go)\n; cost = 4 (general cost)\n");
    assert!(rt;
        is_bad(
            alloc,
            same_names_costs(),
            four,
            PlanFault::WrongCost { real: 2 }
        )
    );
    let bounded = Offer {
        text: three,
        bound: Some(3),
    };
    let dear = PlanFault::NotCheaper { real: 3, bound: 3 };
    assert!(rt; is_bad(alloc, same_names_costs(), bounded, dear));
}

/// Whether the names of some of seventeen switches are judged so.
fn switches_are(alloc: Global, text: &str, fault: PlanFault) -> bool {
    match seventeen_switches(alloc) {
        Some(task) => is_bad_for(alloc, &task, unbounded(text), fault),
        None => false,
    }
}

#[test]
fn too_many_pairs(rt: HostRuntime) {
    let alloc = rt.alloc();
    assert!(rt; switches_are(alloc, sixteen_steps(), PlanFault::NoGoal));
    assert!(rt; switches_are(alloc, seventeen_steps(), PlanFault::TooMany { step: 17 }));
}
