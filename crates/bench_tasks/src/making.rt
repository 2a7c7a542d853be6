// Tasks of parts.
use crate::failing::Failure;
use sas_task::{Parts, Task, check};
use std::alloc::AllocError;

/// The task with these parts, where there was memory for them.
pub fn task(parts: Result<Parts, AllocError>) -> Result<Task, Failure> {
    match parts {
        Ok(parts) => checked(parts),
        Err(_) => Err(Failure::NoMemory),
    }
}

fn checked(parts: Parts) -> Result<Task, Failure> {
    match check(parts) {
        Ok(task) => Ok(task),
        Err(error) => Err(Failure::Task(error)),
    }
}
