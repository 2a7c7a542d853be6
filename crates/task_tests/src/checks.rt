// Parts that are checked, and what a task has and answers, by hand.
use crate::samples::{parts, refusal};
use sas_task::{Fact, Operator, Parts, Task, TaskError};
use std::test::Fail;
use test_tasks::task_of;

const A: Fact = Fact { var: 0, val: 0 };

const B: Fact = Fact { var: 0, val: 1 };

const C: Fact = Fact { var: 3, val: 1 };

/// The default of d, which no rule of a task gives, and its other value.
const DEFAULT: Fact = Fact { var: 1, val: 0 };

const OTHER: Fact = Fact { var: 1, val: 1 };

#[test]
fn parts_are_refused(rt: HostRuntime) -> Result<(), Fail> {
    assert!(rt; refusal(rt.alloc(), 2, DEFAULT)? == Some(TaskError::BadCost));
    assert!(rt; refusal(rt.alloc(), 3, OTHER)? == Some(TaskError::BadRule { rule: 0 }));
    Ok(())
}

fn are_in_order(operators: &[Operator]) -> bool {
    match operators {
        [operator] => operator.pre.as_slice() == [B, A, C].as_slice(),
        _ => false,
    }
}

fn is_as_wanted(task: &Task) -> bool {
    task.parts().rules.is_empty()
        && are_in_order(&task.parts().operators)
        && task.predicate(B) == Some(b"at")
        && task.predicate(A).is_none()
}

fn are_right(parts: Parts) -> bool {
    match task_of(parts) {
        Some(task) => is_as_wanted(&task),
        None => false,
    }
}

#[test]
fn tasks_answer(rt: HostRuntime) -> Result<(), Fail> {
    let parts = parts(rt.alloc(), &[A, C, A, B], 3, DEFAULT)?;
    assert!(rt; are_right(parts));
    Ok(())
}
