// Command lines.
use crate::folders::{plans, unchanged};
use crate::runs::{Case, Told, stopped, tell};
use conf_text::{ConfBad, ConfKind};
use driver_run::{Input, Opt, Why, WordsFault};
use lama_num::NoMemory;
use std::alloc::Global;
use std::test::Fail;
use test_tasks::three_places;

/// Whether words aren't accepted for this cause, and change nothing.
fn are_refused(alloc: Global, words: &[&str], why: Why) -> Result<bool, NoMemory> {
    let case = Case {
        words,
        task: Some(three_places()),
        failing: None,
        files: &unchanged(),
    };
    let wanted = Told {
        start: 0,
        ..stopped(why, 36)
    };
    Ok(tell(alloc, &case)? == wanted)
}

fn are_no_line(alloc: Global, words: &[&str]) -> Result<bool, NoMemory> {
    are_refused(alloc, words, Why::Words(WordsFault::Refused))
}

fn clashes(alloc: Global, word: &str) -> Result<bool, NoMemory> {
    are_refused(alloc, &[word], Why::Words(WordsFault::NameClash))
}

/// Whether a word is the name of a task that isn't there.
fn is_missing(alloc: Global, word: &str) -> Result<bool, NoMemory> {
    let case = Case {
        words: &[word],
        task: None,
        failing: None,
        files: &plans(None, None, None),
    };
    Ok(tell(alloc, &case)? == stopped(Why::NoFile(Input::Task), 36))
}

#[test]
fn words_that_are_no_line(rt: HostRuntime) -> Result<(), Fail> {
    assert!(rt; are_no_line(rt.alloc(), &[])?);
    assert!(rt; are_no_line(rt.alloc(), &[""])?);
    assert!(rt; are_no_line(rt.alloc(), &["-x"])?);
    assert!(rt; are_no_line(rt.alloc(), &["t.sas", "t.sas"])?);
    assert!(rt; are_no_line(rt.alloc(), &["t\0.sas"])?);
    assert!(rt; are_no_line(rt.alloc(), &["--alias", "lama", "--search", "x", "t.sas"])?);
    Ok(())
}

#[test]
fn values_that_are_refused(rt: HostRuntime) -> Result<(), Fail> {
    let unknown = Why::Words(WordsFault::UnknownAlias);
    assert!(rt; are_refused(rt.alloc(), &["--alias", "seq", "t.sas"], unknown)?);
    let bound = Why::Words(WordsFault::BadValue(Opt::Bound));
    assert!(rt; are_refused(rt.alloc(), &["--bound", "x", "t.sas"], bound)?);
    let guide = Why::Config(ConfBad {
        place: 13,
        kind: ConfKind::UnknownGuide,
    });
    let words = ["--search", "lazy_greedy([hmax()])", "t.sas"];
    assert!(rt; are_refused(rt.alloc(), &words, guide)?);
    Ok(())
}

#[test]
fn names_of_plan_files(rt: HostRuntime) -> Result<(), Fail> {
    assert!(rt; clashes(rt.alloc(), "sas_plan")?);
    assert!(rt; clashes(rt.alloc(), "sas_plan.7")?);
    assert!(rt; clashes(rt.alloc(), "sas_plan.9999")?);
    assert!(rt; clashes(rt.alloc(), "sas_plan.part")?);
    assert!(rt; clashes(rt.alloc(), "sas_plan.c1")?);
    Ok(())
}

#[test]
fn names_like_those_of_plan_files(rt: HostRuntime) -> Result<(), Fail> {
    assert!(rt; is_missing(rt.alloc(), "sas_plan.cut")?);
    assert!(rt; is_missing(rt.alloc(), "sas_plan.10000")?);
    assert!(rt; is_missing(rt.alloc(), "sas_plan.")?);
    assert!(rt; is_missing(rt.alloc(), "sas_pla")?);
    Ok(())
}
