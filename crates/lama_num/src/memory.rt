use std::alloc::{AllocError, AllocFailed};

/// Memory was wanting.
///
/// It is the one answer that comes without a cause in a contract: no clause ties it to a refused
/// growth. A call that answers it leaves its `&mut` arguments as they were unless it says
/// otherwise.
#[derive(Clone, Copy, Debug, PartialEq, Eq)]
pub struct NoMemory;

impl From<AllocError> for NoMemory {
    fn from(_: AllocError) -> NoMemory {
        NoMemory
    }
}

impl<T: Drop> From<AllocFailed<T>> for NoMemory {
    fn from(_: AllocFailed<T>) -> NoMemory {
        NoMemory
    }
}
