// The lists and their calls.
ghost use Rattle.std.specs.Prelude.{◌≡◌, ℕ, true, ◌-◌, ◌^◌, ◌<◌, ◌≤◌, ◌↔◌, List, [], ◌∷◌, ◌++◌};
ghost use Rattle.std.specs.Prelude.{IsTrue, IfSome, IfNone, OnOk, IfOk, OnErr, length, vec_len};
ghost use Rattle.std.specs.Prelude.{pos, negsuc, ◌+ℤ◌, ◌≤ℤ◌, ◌<ℤ◌};

use crate::entry::{Entry, Popped};
use crate::list::OpenList;
use crate::picks::{fallen, next_list};
use crate::queues::Queues;
use lama_num::NoMemory;
use std::alloc::Global;

/// One to six open lists. Some are for the entries of preferred operators alone, and those are
/// boosted.
#[derive(Drop)]
pub struct OpenLists {
    lists: Vec<OpenList>,
    boost: u32,
    ghost few: { vec_len lists ≤ 6 },
}

impl OpenLists {
    ghost use Rattle.open_lists.specs.Items.{Item, item_of, items_of_visit};
    ghost use Rattle.open_lists.specs.Lists.{Holds, list_count, boost_of, counter, is_preferred};
    ghost use Rattle.open_lists.specs.Lists.{is_set, Pops, Inserts, Boosts, SameLists};

    /// Empty lists, one for each flag, which says whether it is for preferred operators alone.
    /// A boost lowers the counters of those by `boost`.
    pub fn new(alloc: Global, preferred_only: &[bool], boost: u32) -> Result<OpenLists, NoMemory>
        requires { length preferred_only.now ≤ 6 }
        ensures count { IfOk result (λ lists. list_count lists ≡ length preferred_only.now) }
        ensures empty { IfOk result (λ lists. (k : ℕ) → Holds lists k []) }
        ensures counters { IfOk result (λ lists. (k : ℕ) → counter lists k ≡ pos 0) }
        ensures sorts { IfOk result
            (λ lists. (k : ℕ) → is_preferred lists k ≡ is_set preferred_only.now k) }
        ensures boost { IfOk result (λ lists. boost_of lists ≡ boost) }
    {
        let mut lists = Vec::new(alloc);
        for flag in preferred_only {
            lists.push(OpenList {
                preferred_only: *flag,
                counter: 0,
                queues: Queues::new(alloc),
            })?;
        }
        Ok(OpenLists { lists, boost })
    }

    /// Puts an entry into a list, numbered from 0, under a key of at most 2^62.
    pub fn insert(&mut self, list: u32, key: u64, entry: Entry) -> Result<(), NoMemory>
        requires { list < list_count self.old }
        ensures ok { OnOk result (Inserts self.old list (item_of key entry ∷ []) self.new) }
        ensures err { OnErr result (SameLists self.old self.new) }
    {
        self.insert_all(list, key, entry.parent, &[entry.op])
    }

    /// Puts operators of one visit into a list, in order and under one key.
    pub fn insert_all(
        &mut self,
        list: u32,
        key: u64,
        parent: u64,
        operators: &[u32],
    ) -> Result<(), NoMemory>
        requires { list < list_count self.old }
        ensures ok { OnOk result
            (Inserts self.old list (items_of_visit key parent operators.now) self.new) }
        ensures err { OnErr result (SameLists self.old self.new) }
    {
        let list = &mut self.lists[list as usize];
        match list.queues.push(key, parent, operators) {
            Ok(()) => Ok(()),
            Err(NoMemory) => Err(NoMemory),
        }
    }

    /// Takes from the list of least counter that isn't empty, the lowest number on ties, the oldest
    /// entry of least key.
    pub fn pop(&mut self) -> Option<Popped>
        requires { (k : ℕ) → counter self.old k <ℤ pos (2 ^ 63 - 1) }
        ensures none { IfNone result ((k : ℕ) → Holds self.old k []) }
        ensures same { IfNone result (self.new ≡ self.old) }
        ensures popped { IfSome result (λ popped. Pops self.old popped self.new) }
    {
        let list = next_list(&self.lists)?;
        let open_list = &mut self.lists[list];
        let (key, entry) = open_list.queues.pop();
        open_list.counter += 1;
        Some(Popped {
            list: list as u32,
            key,
            entry,
        })
    }

    /// Lowers the counters of the lists for preferred operators.
    pub fn boost(&mut self)
        requires { (k : ℕ) → is_preferred self.old k ≡ true →
            (negsuc (2 ^ 63 - 1) +ℤ pos (boost_of self.old)) ≤ℤ counter self.old k }
        ensures { Boosts self.old self.new }
    {
        let by = self.boost;
        for i in 0..self.lists.len() {
            let list = &mut self.lists[i];
            list.counter = fallen(list, by);
        }
    }

    /// Whether no list has an entry.
    pub fn is_empty(&self) -> bool
        ensures { IsTrue result ↔ ((k : ℕ) → Holds self.now k []) }
    {
        match next_list(&self.lists) {
            Some(_) => false,
            None => true,
        }
    }
}
