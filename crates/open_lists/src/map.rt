// The queues of the keys above the least one.
ghost use Rattle.std.specs.Prelude.{◌≡◌, ◌≢◌, ◌<◌, ℕ, [], ◌∷◌, ◌++◌, IsSome, IfSome, IfNone, IfErr};
ghost use Rattle.std.specs.Prelude.{OnOk, OnErr, None, Some};
ghost use Rattle.std.specs.Ordering.{nat_cmp};
ghost use Rattle.std.specs.BTreeMap as tree;
ghost use Rattle.open_lists.specs.Queues.{queue_at};
ghost use Rattle.open_lists.specs.Runs.{entries_of_visit};

use crate::queue::Queue;
use lama_num::NoMemory;
use std::alloc::Global;
use std::collections::BTreeMap;

/// Begins the queue of a key.
fn begin(
    alloc: Global,
    map: &mut BTreeMap<u64, Queue>,
    key: u64,
    parent: u64,
    operators: &[u32],
) -> Result<(), NoMemory>
    ensures here { OnOk result
        (tree.get nat_cmp map.new key ≡ Some (entries_of_visit parent operators.now)) }
    ensures others { OnOk result ((other : ℕ) → other ≢ key →
        tree.get nat_cmp map.new other ≡ tree.get nat_cmp map.old other) }
    ensures err { OnErr result (map.new.entries ≡ map.old.entries) }
{
    let mut queue = Queue::new(alloc);
    queue.push(parent, operators)?;
    map.insert(key, queue)?;
    Ok(())
}

/// Puts operators of one visit at the end of the queue of a key.
pub(crate) fn put(
    alloc: Global,
    map: &mut BTreeMap<u64, Queue>,
    key: u64,
    parent: u64,
    operators: &[u32],
) -> Result<(), NoMemory>
    ensures here { OnOk result (tree.get nat_cmp map.new key ≡
        Some (queue_at map.old key ++ entries_of_visit parent operators.now)) }
    ensures others { OnOk result ((other : ℕ) → other ≢ key →
        tree.get nat_cmp map.new other ≡ tree.get nat_cmp map.old other) }
    ensures err { OnErr result
        ((other : ℕ) → tree.get nat_cmp map.new other ≡ tree.get nat_cmp map.old other) }
{
    if let Some(queue) = map.get_mut(&key) {
        return queue.push(parent, operators);
    }
    begin(alloc, map, key, parent, operators)
}

/// Puts a queue under a key that is not there, or gives it back.
pub(crate) fn set_aside(map: &mut BTreeMap<u64, Queue>, key: u64, queue: Queue) -> Result<(), Queue>
    ensures here { OnOk result (tree.get nat_cmp map.new key ≡ Some queue) }
    ensures others { OnOk result ((other : ℕ) → other ≢ key →
        tree.get nat_cmp map.new other ≡ tree.get nat_cmp map.old other) }
    ensures back { IfErr result (λ back. back ≡ queue) }
    ensures err { OnErr result (map.new.entries ≡ map.old.entries) }
{
    match map.insert(key, queue) {
        Ok(_) => Ok(()),
        Err(refused) => Err(refused.value.1),
    }
}

/// Takes the queue of the least key.
pub(crate) fn take_least(map: &mut BTreeMap<u64, Queue>) -> Option<(u64, Queue)>
    ensures none { IfNone result (map.old.entries ≡ []) }
    ensures same { IfNone result (map.new.entries ≡ map.old.entries) }
    ensures taken { IfSome result (λ least. tree.get nat_cmp map.old least.0 ≡ Some least.1) }
    ensures least { IfSome result (λ least. (other : ℕ) → other < least.0 →
        tree.get nat_cmp map.old other ≡ None) }
    ensures gone { IfSome result (λ least. tree.get nat_cmp map.new least.0 ≡ None) }
    ensures others { IfSome result (λ least. (other : ℕ) → other ≢ least.0 →
        tree.get nat_cmp map.new other ≡ tree.get nat_cmp map.old other) }
{
    map.pop_first()
}
