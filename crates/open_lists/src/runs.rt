// Operators of one visit that stand side by side in a queue.
ghost use Rattle.std.specs.Prelude.{◌≡◌, ◌<◌, ◌+◌, ◌≤◌, ◌++◌, length};
ghost use Rattle.std.specs.VecDeque.{deque_len, deque_capacity};
ghost use Rattle.open_lists.specs.Runs.{parent_of, less_one};

use std::collections::VecDeque;

/// So many operators of one visit.
#[derive(Clone, Copy, PartialEq, Eq)]
pub struct Run {
    pub(crate) parent: u64,
    pub(crate) count: u64,
}

/// Takes one operator from the first run, and says of which visit it is.
pub(crate) fn take_one(runs: &mut VecDeque<Run>) -> u64
    requires { 0 < length runs.old.items }
    ensures parent { result ≡ parent_of runs.old.items }
    ensures rest { runs.new.items ≡ less_one runs.old.items }
{
    let Some(first) = runs.pop_front() else {
        unreachable!();
    };
    if 1 < first.count {
        runs.push_front_reserved(Run {
            parent: first.parent,
            count: first.count - 1,
        });
    }
    first.parent
}

/// Puts operators at the end of a row that has room for them.
pub(crate) fn push_all(row: &mut VecDeque<u32>, operators: &[u32])
    requires { deque_len row.old + length operators.now ≤ deque_capacity row.old }
    ensures { row.new.items ≡ row.old.items ++ operators.now }
{
    for operator in operators {
        row.push_back_reserved(*operator);
    }
}
