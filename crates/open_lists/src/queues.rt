// The entries of one list, by key.
ghost use Rattle.std.specs.Prelude.{◌≡◌, ◌≢◌, ℕ, ◌<◌, [], ◌∷◌, ◌++◌, IsTrue, ◌↔◌, OnOk, OnErr};
ghost use Rattle.open_lists.specs.Queues.{IsApart};

use crate::entry::Entry;
use crate::map::{put, set_aside, take_least};
use crate::queue::Queue;
use lama_num::NoMemory;
use std::alloc::Global;
use std::collections::BTreeMap;
use std::mem::replace;

/// Of each key a queue, oldest first. That of the least key stands apart, since most calls are
/// about it.
#[derive(Drop)]
pub struct Queues {
    alloc: Global,
    least: u64,
    first: Queue,
    others: BTreeMap<u64, Queue>,
    ghost apart: { IsApart least first others },
}

impl Queues {
    ghost use Rattle.open_lists.specs.Lists.{queue_for};
    ghost use Rattle.open_lists.specs.Runs.{entries_of_visit};

    pub(crate) fn new(alloc: Global) -> Queues
        ensures empty { (key : ℕ) → queue_for result key ≡ [] }
        ensures first { result.first ≡ [] }
    {
        Queues {
            alloc,
            least: 0,
            first: Queue::new(alloc),
            others: BTreeMap::new(alloc),
        }
    }

    pub(crate) fn is_empty(&self) -> bool
        ensures { IsTrue result ↔ (self.now.first ≡ []) }
    {
        self.first.is_empty()
    }

    /// Puts operators under a key below the least.
    fn push_ahead(&mut self, key: u64, parent: u64, operators: &[u32]) -> Result<(), NoMemory>
        requires below { key < self.old.least }
        requires some { operators.now ≢ [] }
        requires filled { self.old.first ≢ [] }
        ensures here { OnOk result
            (queue_for self.new key ≡ entries_of_visit parent operators.now) }
        ensures others { OnOk result
            ((other : ℕ) → other ≢ key → queue_for self.new other ≡ queue_for self.old other) }
        ensures err { OnErr result
            ((other : ℕ) → queue_for self.new other ≡ queue_for self.old other) }
    {
        let mut first = Queue::new(self.alloc);
        first.push(parent, operators)?;
        let before = replace(&mut self.first, first);
        match set_aside(&mut self.others, self.least, before) {
            Ok(()) => {
                self.least = key;
                Ok(())
            }
            Err(before) => {
                self.first = before;
                Err(NoMemory)
            }
        }
    }

    /// Puts operators of one visit at the end of the queue of a key, in order.
    pub(crate) fn push(&mut self, key: u64, parent: u64, operators: &[u32]) -> Result<(), NoMemory>
        ensures here { OnOk result (queue_for self.new key ≡
            queue_for self.old key ++ entries_of_visit parent operators.now) }
        ensures others { OnOk result
            ((other : ℕ) → other ≢ key → queue_for self.new other ≡ queue_for self.old other) }
        ensures err { OnErr result
            ((other : ℕ) → queue_for self.new other ≡ queue_for self.old other) }
    {
        if operators.is_empty() {
            return Ok(());
        }
        if self.first.is_empty() {
            self.first.push(parent, operators)?;
            self.least = key;
            return Ok(());
        }
        if key == self.least {
            return self.first.push(parent, operators);
        }
        if key < self.least {
            return self.push_ahead(key, parent, operators);
        }
        put(self.alloc, &mut self.others, key, parent, operators)
    }

    /// Takes the oldest entry of the least key.
    pub(crate) fn pop(&mut self) -> (u64, Entry)
        requires { self.old.first ≢ [] }
        ensures first { queue_for self.old result.0 ≡ result.1 ∷ queue_for self.new result.0 }
        ensures least { (other : ℕ) → other < result.0 → queue_for self.old other ≡ [] }
        ensures others { (other : ℕ) → other ≢ result.0 →
            queue_for self.new other ≡ queue_for self.old other }
    {
        let key = self.least;
        let entry = self.first.pop();
        if !self.first.is_empty() {
            return (key, entry);
        }
        if let Some((least, first)) = take_least(&mut self.others) {
            self.least = least;
            self.first = first;
        }
        (key, entry)
    }
}
