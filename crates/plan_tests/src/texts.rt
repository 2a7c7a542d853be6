// Plan files as texts: what is written, what is read of texts from outside, and why these are
// refused.
use lama_num::Seq;
use plan_text::{PlanLines, PlanTextError, PlanTextFault, lines, write};
use sas_task::Task;
use std::alloc::Global;
use test_tasks::{at_the_goal, read_task, three_places};

/// Whether the first two steps of a task of three operators are written so.
fn steps_are(alloc: Global, task: &Task, want: &[u8]) -> bool {
    if task.parts().operators.len() != 3 {
        return false;
    }
    match write(alloc, task, &[0, 1]) {
        Ok(text) => text.as_slice() == want,
        Err(_) => false,
    }
}

/// The same of the task that a text tells.
fn are_written(alloc: Global, text: &str, want: &[u8]) -> bool {
    match read_task(alloc, text) {
        Some(task) => steps_are(alloc, &task, want),
        None => false,
    }
}

#[test]
fn two_steps_are_written(rt: HostRuntime) {
    let alloc = rt.alloc();
    assert!(rt;
        are_written(
            alloc,
            three_places(),
            b"(go01)\n(go12)\n; cost = 2 (general cost)\n"
        )
    );
    assert!(rt;
        are_written(
            alloc,
            at_the_goal(),
            b"(go01)\n(go12)\n; cost = 2 (unit cost)\n"
        )
    );
}

fn are_two_steps(names: &[Seq<u8>]) -> bool {
    match names {
        [first, second] => {
            first.as_slice() == b"go01".as_slice() && second.as_slice() == b"go12".as_slice()
        }
        _ => false,
    }
}

fn is_two_steps(lines: &PlanLines, unit: bool) -> bool {
    are_two_steps(&lines.names) && lines.cost == 2 && lines.unit == unit
}

/// Whether a text tells two steps of the cost 2, of this kind.
fn is_read(alloc: Global, text: &[u8], unit: bool) -> bool {
    match lines(alloc, text) {
        Ok(lines) => is_two_steps(&lines, unit),
        Err(_) => false,
    }
}

#[test]
fn two_steps_are_read(rt: HostRuntime) {
    let alloc = rt.alloc();
    assert!(rt; is_read(alloc, b"(go01)\n(go12)\n; cost = 2 (general cost)\n", false));
    assert!(rt; is_read(alloc, b"(go01)\n(go12)\n; cost = 2 (general cost)", false));
    assert!(rt; is_read(alloc, b"( go01 )\n(go12)\n; cost = 2 (unit cost)\n", true));
    assert!(rt;
        is_read(
            alloc,
            b"\t(go01) \r\n(go12\t)\r\n; cost = 2 (unit cost)\r\n",
            true
        )
    );
    assert!(rt;
        is_read(
            alloc,
            b"(go01)\n(go12)\n; cost = 0002 (unit cost)\n\n \n",
            true
        )
    );
    assert!(rt;
        is_read(
            alloc,
            b"(go01)\n(go12)\n; cost = 2\t(general cost)\n",
            false
        )
    );
}

fn is_refused(alloc: Global, text: &[u8], fault: PlanTextFault) -> bool {
    match lines(alloc, text) {
        Ok(_) => false,
        Err(error) => error == PlanTextError::Bad(fault),
    }
}

fn is_cut_short(alloc: Global, text: &[u8]) -> bool {
    is_refused(alloc, text, PlanTextFault::CutShort)
}

fn is_bad_at(alloc: Global, text: &[u8], line: u64) -> bool {
    is_refused(alloc, text, PlanTextFault::BadLine { line })
}

#[test]
fn texts_that_end_early_are_refused(rt: HostRuntime) {
    let alloc = rt.alloc();
    assert!(rt; is_cut_short(alloc, b""));
    assert!(rt; is_cut_short(alloc, b"(go01)\n(go1"));
    assert!(rt; is_cut_short(alloc, b"(go01)\n(go12)\n"));
    assert!(rt; is_cut_short(alloc, b"(go01)\n  "));
    assert!(rt; is_bad_at(alloc, b"(go01)\n(go1\n", 2));
}

#[test]
fn other_lines_are_refused(rt: HostRuntime) {
    let alloc = rt.alloc();
    assert!(rt; is_bad_at(alloc, b"(jump)\n; cost = 5 (general cost)\nx\n", 3));
    assert!(rt; is_bad_at(alloc, b"(jump)\n; cost = 5 (unit cost)\n\n(jump)\n", 4));
    assert!(rt; is_bad_at(alloc, b"(jump)\n\n; cost = 5 (general cost)\n", 2));
    assert!(rt; is_bad_at(alloc, b"; cost = 5  (general cost)\n", 1));
    assert!(rt; is_bad_at(alloc, b"; cost =  (general cost)\n", 1));
    assert!(rt; is_bad_at(alloc, b"(\n", 1));
}

fn has_bad_cost(alloc: Global, text: &[u8]) -> bool {
    is_refused(alloc, text, PlanTextFault::BadCost)
}

fn has_cost(alloc: Global, text: &[u8], cost: u64) -> bool {
    match lines(alloc, text) {
        Ok(lines) => lines.cost == cost,
        Err(_) => false,
    }
}

#[test]
fn the_cost_has_64_bits(rt: HostRuntime) {
    let alloc = rt.alloc();
    assert!(rt;
        has_bad_cost(
            alloc,
            b"(jump)\n; cost = 99999999999999999999 (general cost)\n"
        )
    );
    assert!(rt; has_bad_cost(alloc, b"; cost = 18446744073709551616 (unit cost)\nx\n"));
    assert!(rt;
        has_cost(
            alloc,
            b"; cost = 18446744073709551615 (unit cost)\n",
            u64::MAX
        )
    );
}
