// One list.
use crate::queues::Queues;

/// One open list: its entries by key, its counter, and whether it is for preferred operators alone.
#[derive(Drop)]
pub struct OpenList {
    pub(crate) preferred_only: bool,
    pub(crate) counter: i64,
    pub(crate) queues: Queues,
}
