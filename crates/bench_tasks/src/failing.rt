// Why a measurement can't be made.
use lama_num::NoMemory;
use sas_task::TaskError;
use std::alloc::{AllocError, AllocFailed};
use std::io;

#[derive(Debug, Drop)]
pub enum Failure {
    Words,
    NoMemory,
    Task(TaskError),
    Io(io::Error),
}

impl From<NoMemory> for Failure {
    fn from(_error: NoMemory) -> Failure {
        Failure::NoMemory
    }
}

impl From<AllocError> for Failure {
    fn from(_error: AllocError) -> Failure {
        Failure::NoMemory
    }
}

impl<T: Drop> From<AllocFailed<T>> for Failure {
    fn from(_error: AllocFailed<T>) -> Failure {
        Failure::NoMemory
    }
}

impl From<TaskError> for Failure {
    fn from(error: TaskError) -> Failure {
        Failure::Task(error)
    }
}

impl From<io::Error> for Failure {
    fn from(error: io::Error) -> Failure {
        Failure::Io(error)
    }
}
