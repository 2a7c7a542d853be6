// Words that make no request.
use crate::words::{has_fault, is_asked, refuses};
use run_words::{Asked, Opt, WordsError, WordsFault};
use std::alloc::Global;

fn is_no_line(alloc: Global, words: &[&str]) -> bool {
    has_fault(alloc, words, WordsFault::Refused)
}

#[test]
fn words_that_are_no_line(rt: HostRuntime) {
    let alloc = rt.alloc();
    assert!(rt; is_no_line(alloc, &["--help"]));
    assert!(rt; is_no_line(alloc, &["t", "-"]));
    assert!(rt; is_no_line(alloc, &["--", "t"]));
    assert!(rt; is_no_line(alloc, &["a", "b"]));
    assert!(rt; is_no_line(alloc, &["t", "--bound"]));
    assert!(rt; is_no_line(alloc, &["--bound=1", "--bound", "2", "t"]));
    assert!(rt; is_no_line(alloc, &["--validate=1", "t"]));
    assert!(rt; is_no_line(alloc, &["--boun=1", "t"]));
}

#[test]
fn requests_that_are_not_served(rt: HostRuntime) {
    let alloc = rt.alloc();
    let translate = WordsError::Asked(Asked::Translate);
    let validate = WordsError::Asked(Asked::Validate);
    assert!(rt; refuses(alloc, &["--translate", "t.sas"], translate));
    assert!(rt; refuses(alloc, &["--validate", "--translate"], translate));
    assert!(rt; refuses(alloc, &["--validate"], validate));
    assert!(rt; refuses(alloc, &["--validate", "--bound=x", "t"], validate));
}

// The first fault of a line with several.
#[test]
fn faults_in_their_order(rt: HostRuntime) {
    let alloc = rt.alloc();
    let no_task = WordsFault::NoTask;
    assert!(rt; has_fault(alloc, &[], no_task));
    assert!(rt; has_fault(alloc, &["t", "--gen=5"], no_task));
    assert!(rt; has_fault(alloc, &["--alias=a", "--search=b"], no_task));
    let two = WordsFault::TwoWorks;
    assert!(rt; has_fault(alloc, &["--alias", "lama", "--search", "x", "t.sas"], two));
    assert!(rt; has_fault(alloc, &["--alias=a", "--portfolio=p", "t"], two));
    assert!(rt; has_fault(alloc, &["--search=a", "--portfolio=p", "t"], two));
    assert!(rt; has_fault(alloc, &["--alias=a", "--search=b", "--bound=x", "t"], two));
    let unknown = WordsFault::UnknownAlias;
    assert!(rt; has_fault(alloc, &["--alias", "seq", "t.sas"], unknown));
    assert!(rt; has_fault(alloc, &["--alias=", "t"], unknown));
    assert!(rt; has_fault(alloc, &["--alias=x", "sas_plan"], unknown));
    let limitless = WordsFault::NeedsTimeLimit;
    assert!(rt; has_fault(alloc, &["--portfolio", "p", "t.sas"], limitless));
    assert!(rt; has_fault(alloc, &["--portfolio=p", "sas_plan"], limitless));
}

fn is_bad(alloc: Global, opt: Opt, words: &[&str]) -> bool {
    has_fault(alloc, words, WordsFault::BadValue(opt))
}

#[test]
fn values_that_are_refused(rt: HostRuntime) {
    let alloc = rt.alloc();
    let long = ["--overall-time-limit=278h", "--child-memory-limit=0", "t"];
    assert!(rt; is_bad(alloc, Opt::PlanFile, &["--plan-file=", "--bound=x", "t"]));
    assert!(rt; is_bad(alloc, Opt::Bound, &["--bound=-1", "t"]));
    assert!(rt; is_bad(alloc, Opt::TimeLimit, &long));
    assert!(rt;
        is_bad(
            alloc,
            Opt::ChildMemory,
            &["--child-memory-limit=0", "--gen=0"]
        )
    );
    assert!(rt; is_bad(alloc, Opt::Gen, &["--gen=101"]));
    assert!(rt; is_bad(alloc, Opt::TaskName, &["", "--portfolio="]));
    assert!(rt; is_bad(alloc, Opt::PortfolioName, &["--portfolio=", "t"]));
}

/// Whether a name is refused as that of a task, and as that of a portfolio.
fn clashes(alloc: Global, name: &str) -> bool {
    let clash = WordsFault::NameClash;
    has_fault(alloc, &[name], clash)
        && has_fault(
            alloc,
            &["t", "--portfolio", name, "--overall-time-limit=1"],
            clash,
        )
}

#[test]
fn names_of_plan_files(rt: HostRuntime) {
    let alloc = rt.alloc();
    assert!(rt; clashes(alloc, "sas_plan"));
    assert!(rt; clashes(alloc, "sas_plan.part"));
    assert!(rt; clashes(alloc, "sas_plan.1"));
    assert!(rt; clashes(alloc, "sas_plan.7"));
    assert!(rt; clashes(alloc, "sas_plan.9999"));
    assert!(rt; clashes(alloc, "sas_plan.c1"));
    assert!(rt; clashes(alloc, "sas_plan.c0x"));
    let clash = WordsFault::NameClash;
    assert!(rt; has_fault(alloc, &["--plan-file=t", "t"], clash));
    assert!(rt; has_fault(alloc, &["t.7", "--plan-file", "t"], clash));
}

#[test]
fn names_like_those_of_plan_files(rt: HostRuntime) {
    let alloc = rt.alloc();
    assert!(rt; is_asked(alloc, &["sas_plan.0"]));
    assert!(rt; is_asked(alloc, &["sas_plan.01"]));
    assert!(rt; is_asked(alloc, &["sas_plan.10000"]));
    assert!(rt; is_asked(alloc, &["sas_plan.c"]));
    assert!(rt; is_asked(alloc, &["sas_plan.cx"]));
    assert!(rt; is_asked(alloc, &["sas_plan."]));
    assert!(rt; is_asked(alloc, &["sas_plans"]));
    assert!(rt; is_asked(alloc, &["sas_pla"]));
    assert!(rt; is_asked(alloc, &["--plan-file", "t", "t.sas"]));
}
