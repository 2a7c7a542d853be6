// Words that make a request.
use crate::words::request;
use portfolio_text::{AliasName, Text};
use run_words::{Chosen, Request};
use std::alloc::Global;

/// The numbers that are asked for: the bound, the limit of time, that of memory, and how many tasks
/// are to be made.
#[derive(Clone, Copy)]
struct Numbers {
    bound: Option<u64>,
    limit: Option<u64>,
    kib: Option<u32>,
    made: Option<u32>,
}

const NONE: Numbers = Numbers {
    bound: None,
    limit: None,
    kib: None,
    made: None,
};

fn have_numbers(alloc: Global, words: &[&str], want: Numbers) -> bool {
    match request(alloc, words) {
        Ok(request) => {
            request.bound == want.bound
                && request.limit == want.limit
                && request.child_kib == want.kib
                && request.made == want.made
        }
        Err(_) => false,
    }
}

fn has_bound(alloc: Global, words: &[&str], bound: u64) -> bool {
    let want = Numbers {
        bound: Some(bound),
        ..NONE
    };
    have_numbers(alloc, words, want)
}

fn has_limit(alloc: Global, words: &[&str], limit: u64) -> bool {
    let want = Numbers {
        limit: Some(limit),
        ..NONE
    };
    have_numbers(alloc, words, want)
}

fn has_kib(alloc: Global, words: &[&str], kib: u32) -> bool {
    let want = Numbers {
        kib: Some(kib),
        ..NONE
    };
    have_numbers(alloc, words, want)
}

#[test]
fn values_of_options(rt: HostRuntime) {
    let alloc = rt.alloc();
    assert!(rt; have_numbers(alloc, &["t"], NONE));
    assert!(rt; has_bound(alloc, &["--bound", "7", "t"], 7));
    assert!(rt; has_bound(alloc, &["t", "--bound=007"], 7));
    assert!(rt; has_bound(alloc, &["--bound=18446744073709551615", "t"], u64::MAX));
    assert!(rt; has_limit(alloc, &["--overall-time-limit", "10", "t"], 10_000));
    assert!(rt; has_limit(alloc, &["--overall-time-limit=10s", "t"], 10_000));
    assert!(rt; has_limit(alloc, &["--overall-time-limit=2m", "t"], 120_000));
    assert!(rt; has_limit(alloc, &["--overall-time-limit=277h", "t"], 997_200_000));
    assert!(rt;
        has_limit(
            alloc,
            &["t", "--overall-time-limit", "1000000"],
            1_000_000_000
        )
    );
    assert!(rt; has_kib(alloc, &["--child-memory-limit", "1", "t"], 1024));
    assert!(rt; has_kib(alloc, &["--child-memory-limit=1048576", "t"], 1_073_741_824));
}

#[test]
fn tasks_that_are_to_be_made(rt: HostRuntime) {
    let one = Numbers {
        made: Some(1),
        ..NONE
    };
    assert!(rt; have_numbers(rt.alloc(), &["--gen", "1"], one));
    let hundred = Numbers {
        bound: Some(0),
        made: Some(100),
        ..NONE
    };
    assert!(rt; have_numbers(rt.alloc(), &["--gen=100", "--bound=0"], hundred));
    let all = Numbers {
        bound: Some(3),
        limit: Some(3_600_000),
        kib: Some(2048),
        made: Some(5),
    };
    let words = [
        "--gen=5",
        "--child-memory-limit=2",
        "--bound=3",
        "--overall-time-limit=1h",
    ];
    assert!(rt; have_numbers(rt.alloc(), &words, all));
}

fn work_is(work: &Chosen, kind: &str, text: &str) -> bool {
    match work {
        Chosen::Alias(alias) => kind == "alias" && alias.text() == text,
        Chosen::Search(config) => kind == "search" && config.as_str() == text,
        Chosen::Portfolio(name) => kind == "portfolio" && name.as_str() == text,
    }
}

fn task_is(task: &Option<Text>, name: &str) -> bool {
    match task {
        Some(text) => text.as_str() == name,
        None => name.is_empty(),
    }
}

/// What is asked for: the task, the kind of the work and its text, and the base.
#[derive(Clone, Copy)]
struct Want<'a> {
    task: &'a str,
    kind: &'a str,
    text: &'a str,
    base: &'a str,
}

fn is_wanted(request: &Request, want: Want<'_>) -> bool {
    task_is(&request.task, want.task)
        && work_is(&request.work, want.kind, want.text)
        && request.base.text() == want.base
}

fn ask_for(alloc: Global, words: &[&str], want: Want<'_>) -> bool {
    match request(alloc, words) {
        Ok(request) => is_wanted(&request, want),
        Err(_) => false,
    }
}

/// Whether words ask for this work on the task `t`.
fn ask_for_work(alloc: Global, words: &[&str], kind: &str, text: &str) -> bool {
    let want = Want {
        task: "t",
        kind,
        text,
        base: "sas_plan",
    };
    ask_for(alloc, words, want)
}

#[test]
fn texts_of_options(rt: HostRuntime) {
    let alloc = rt.alloc();
    assert!(rt; ask_for_work(alloc, &["t"], "alias", "lama"));
    assert!(rt; ask_for_work(alloc, &["--alias", "lama", "t"], "alias", "lama"));
    assert!(rt; ask_for_work(alloc, &["t", "--alias=lama-first"], "alias", "lama-first"));
    let any = "any text (at all)";
    assert!(rt; ask_for_work(alloc, &["--search", any, "t"], "search", any));
    assert!(rt; ask_for_work(alloc, &["--search=", "t"], "search", ""));
    assert!(rt; ask_for_work(alloc, &["--search=-a=b", "t"], "search", "-a=b"));
    let portfolio = ["--portfolio", "p", "--overall-time-limit=1", "t"];
    assert!(rt; ask_for_work(alloc, &portfolio, "portfolio", "p"));
}

#[test]
fn tasks_and_bases(rt: HostRuntime) {
    let alloc = rt.alloc();
    let made = Want {
        task: "",
        kind: "alias",
        text: "lama",
        base: "sas_plan",
    };
    assert!(rt; ask_for(alloc, &["--gen=1"], made));
    let words = [
        "--plan-file",
        "out",
        "--portfolio=-p",
        "t",
        "--overall-time-limit=1",
    ];
    let out = Want {
        task: "t",
        kind: "portfolio",
        text: "-p",
        base: "out",
    };
    assert!(rt; ask_for(alloc, &words, out));
}

fn is_single(alloc: Global, words: &[&str]) -> Option<bool> {
    match request(alloc, words) {
        Ok(request) => Some(request.single),
        Err(_) => None,
    }
}

#[test]
fn the_first_plan_alone(rt: HostRuntime) {
    assert!(rt; is_single(rt.alloc(), &["--portfolio-single-plan", "t"]) == Some(true));
    assert!(rt; is_single(rt.alloc(), &["t"]) == Some(false));
}

#[test]
fn aliases(rt: HostRuntime) {
    assert!(rt; AliasName::named("lama") == Some(AliasName::Lama));
    assert!(rt; AliasName::named("lama-first") == Some(AliasName::LamaFirst));
    assert!(rt; AliasName::named("LAMA").is_none() && AliasName::named("").is_none());
    assert!(rt; AliasName::LamaFirst.text() == "lama-first");
}
