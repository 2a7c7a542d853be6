// The entries of one key, oldest first.
ghost use Rattle.std.specs.Prelude.{◌≡◌, ◌≢◌, ◌<◌, ◌≤◌, ◌+◌, ℕ, [], ◌∷◌, ◌++◌, length, IsTrue, ◌↔◌};
ghost use Rattle.std.specs.Prelude.{OnOk, OnErr};
ghost use Rattle.open_lists.specs.Runs.{entries_of_visit};

use crate::entry::Entry;
use crate::runs::{Run, push_all, take_one};
use lama_num::NoMemory;
use std::alloc::Global;
use std::collections::VecDeque;
use std::marker::Model;

/// The operators stand in one row, and beside them runs, each of which says how many of them belong
/// to one visit: 4 bytes an entry, and 16 for each visit.
#[derive(Drop)]
pub struct Queue {
    runs: VecDeque<Run>,
    operators: VecDeque<u32>,
}

impl Model for Queue {
    ghost use Rattle.std.specs.Prelude.{List};
    ghost use Rattle.open_lists.specs.declared.entry.Entry.{Entry as TheEntry};
    ghost use Rattle.open_lists.specs.Runs.{entries_in, AreRunsOf};

    ghost Value = { List TheEntry };

    ghost view = { λ q. entries_in q.runs.items q.operators.items };

    ghost invariant = { λ q. AreRunsOf q.runs.items q.operators.items };
}

impl Queue {
    /// An empty queue, which takes no memory.
    pub(crate) fn new(alloc: Global) -> Queue
        ensures { result ≡ [] }
    {
        Queue {
            runs: VecDeque::new(alloc),
            operators: VecDeque::new(alloc),
        }
    }

    /// Puts operators of one visit at the end, in order.
    pub(crate) fn push(&mut self, parent: u64, operators: &[u32]) -> Result<(), NoMemory>
        ensures ok { OnOk result (self.new ≡ self.old ++ entries_of_visit parent operators.now) }
        ensures err { OnErr result (self.new ≡ self.old) }
    {
        if operators.is_empty() {
            return Ok(());
        }
        self.operators.reserve(operators.len())?;
        let count = operators.len() as u64;
        self.runs.push_back(Run { parent, count })?;
        push_all(&mut self.operators, operators);
        Ok(())
    }

    /// Takes the oldest entry.
    pub(crate) fn pop(&mut self) -> Entry
        requires { self.old ≢ [] }
        ensures { self.old ≡ result ∷ self.new }
    {
        let Some(op) = self.operators.pop_front() else {
            unreachable!();
        };
        let parent = take_one(&mut self.runs);
        Entry { parent, op }
    }

    pub(crate) fn is_empty(&self) -> bool
        ensures { IsTrue result ↔ (self.now ≡ []) }
    {
        self.runs.is_empty()
    }
}
