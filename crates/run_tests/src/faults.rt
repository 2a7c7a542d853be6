// Tasks that aren't read, and calls of the folder that fail.
use crate::folders::{drafted, plans};
use crate::runs::{Case, Told, own, stopped, tell, tell_of};
use crate::texts::{jump, two_steps};
use driver_run::{Input, Why};
use host_mem::HostCall;
use lama_num::NoMemory;
use sas_reader::SasFault;
use std::alloc::Global;
use std::test::Fail;
use test_tasks::{cut_short, three_places, wide_derived};

#[test]
fn tasks_that_are_refused(rt: HostRuntime) -> Result<(), Fail> {
    let none = plans(None, None, None);
    let cut = tell_of(rt.alloc(), &["t.sas"], cut_short(), &none)?;
    assert!(rt; cut == stopped(Why::Task(SasFault::CutShort { line: 21 }), 33));
    let wide = tell_of(rt.alloc(), &["t.sas"], wide_derived(), &none)?;
    assert!(rt; wide == stopped(Why::Task(SasFault::WideDerived { var: 0 }), 34));
    Ok(())
}

#[test]
fn a_task_that_is_not_there(rt: HostRuntime) -> Result<(), Fail> {
    let case = Case {
        words: &["t.sas"],
        task: None,
        failing: None,
        files: &plans(None, None, None),
    };
    let told = tell(rt.alloc(), &case)?;
    assert!(rt; told == stopped(Why::NoFile(Input::Task), 36));
    Ok(())
}

/// Whether a run is a fault without a plan where the first call of a kind fails.
fn is_fault(alloc: Global, call: HostCall) -> Result<bool, NoMemory> {
    let case = Case {
        words: &["t.sas"],
        task: Some(three_places()),
        failing: Some((call, 1)),
        files: &[],
    };
    let told = tell(alloc, &case)?;
    Ok(told.code == 35 && told.why == Why::Fault && told.kept == 0)
}

#[test]
fn calls_of_the_folder_may_fail(rt: HostRuntime) -> Result<(), Fail> {
    assert!(rt; is_fault(rt.alloc(), HostCall::ReadSome)?);
    assert!(rt; is_fault(rt.alloc(), HostCall::Create)?);
    assert!(rt; is_fault(rt.alloc(), HostCall::Append)?);
    assert!(rt; is_fault(rt.alloc(), HostCall::Rename)?);
    assert!(rt; is_fault(rt.alloc(), HostCall::Remove)?);
    Ok(())
}

#[test]
fn what_was_kept_before_a_fault_stays(rt: HostRuntime) -> Result<(), Fail> {
    let case = Case {
        words: &["--alias", "lama", "t.sas"],
        task: Some(three_places()),
        failing: Some((HostCall::Rename, 2)),
        files: &drafted(jump(), two_steps()),
    };
    let told = tell(rt.alloc(), &case)?;
    let wanted = Told {
        kept: 1,
        costs: [Some(5), None],
        candidates: [own(0), None],
        ..stopped(Why::Fault, 35)
    };
    assert!(rt; told == wanted);
    Ok(())
}
