// Tasks of texts and of parts. Nothing of what the calls promise is passed on, so that the proof of
// a test has nothing of it to carry.
use sas_reader::read;
use sas_task::{Parts, Task, check};
use std::alloc::Global;
use std::test::Fail;

/// The task of a text, if it is that of a task and there is memory.
pub fn read_task(alloc: Global, text: &str) -> Option<Task> {
    match read(alloc, text.as_bytes()) {
        Ok(task) => Some(task),
        Err(_) => None,
    }
}

/// The task of a text, or a failure.
pub fn task(alloc: Global, text: &str) -> Result<Task, Fail> {
    match read(alloc, text.as_bytes()) {
        Ok(task) => Ok(task),
        Err(_) => Err(Fail::from("refused")),
    }
}

/// The task of parts, if nothing refuses them.
pub fn task_of(parts: Parts) -> Option<Task> {
    match check(parts) {
        Ok(task) => Some(task),
        Err(_) => None,
    }
}
