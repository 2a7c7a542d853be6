// Entries that go through open lists.
ghost use Rattle.search_bench.specs.Near.{IsNear};

use bench_tasks::Failure;
use lama_num::NoMemory;
use open_lists::OpenLists;
use std::alloc::Global;

/// Above what a machine counts up to in a day.
const MOST_POPS: u64 = 1_000_000_000_000_000;

/// Four open lists, and how often something was taken out of them.
#[derive(Drop)]
struct Lists {
    lists: OpenLists,
    pops: u64,
    ghost near: { IsNear lists pops },
}

/// How many entries were put in, and how many came out.
#[derive(Clone, Copy)]
struct Counts {
    inserted: u64,
    popped: u64,
}

impl Lists {
    fn new(alloc: Global) -> Result<Lists, NoMemory> {
        match OpenLists::new(alloc, &[false, true, false, true], 1000) {
            Ok(lists) => Ok(Lists { lists, pops: 0 }),
            Err(NoMemory) => Err(NoMemory),
        }
    }

    /// Puts four operators of a visit into one of the lists, and says how many they are.
    fn insert(&mut self, list: u32, key: u64, parent: u64) -> Result<u64, NoMemory> {
        match self.lists.insert_all(list % 4, key, parent, &[0, 1, 2, 3]) {
            Ok(()) => Ok(4),
            Err(NoMemory) => Err(NoMemory),
        }
    }

    /// Takes out an entry, and says how many it took.
    fn pop(&mut self) -> u64 {
        if self.pops >= MOST_POPS {
            return 0;
        }
        match self.lists.pop() {
            Some(_) => {
                self.pops += 1;
                1
            }
            None => 0,
        }
    }
}

/// A key for a round, of so many: they are scattered.
fn key(round: u32, keys: u32) -> u64 {
    let scattered = round.wrapping_mul(2_654_435_761) >> 8;
    u64::from(scattered % keys.max(1))
}

/// A round: four entries go in, and two come out.
fn go_on(lists: &mut Lists, counts: Counts, round: u32, keys: u32) -> Result<Counts, NoMemory> {
    let inserted = lists.insert(round, key(round, keys), u64::from(round))?;
    let first = lists.pop();
    let second = lists.pop();
    Ok(Counts {
        inserted: counts.inserted.wrapping_add(inserted),
        popped: counts.popped.wrapping_add(first).wrapping_add(second),
    })
}

fn fill(lists: &mut Lists, keys: u32, rounds: u32) -> Result<Counts, NoMemory> {
    let mut counts = Counts {
        inserted: 0,
        popped: 0,
    };
    for round in 0..rounds {
        counts = go_on(lists, counts, round, keys)?;
    }
    Ok(counts)
}

/// Takes out so many entries, and says how many there were.
fn drain(lists: &mut Lists, times: u64) -> u64 {
    let mut popped = 0u64;
    for _ in 0..times {
        popped = popped.wrapping_add(lists.pop());
    }
    popped
}

/// How many entries come out, those that are left at the end with them.
fn come_out(lists: &mut Lists, keys: u32, rounds: u32) -> Result<u64, NoMemory> {
    let counts = fill(lists, keys, rounds)?;
    let left = counts.inserted.saturating_sub(counts.popped);
    Ok(counts.popped.wrapping_add(drain(lists, left)))
}

/// Puts entries in and takes them out so many rounds, and then takes out what is left. Tells how
/// many came out.
pub fn go_through(alloc: Global, keys: u32, rounds: u32) -> Result<u64, Failure> {
    match Lists::new(alloc) {
        Ok(mut lists) => Ok(come_out(&mut lists, keys, rounds)?),
        Err(NoMemory) => Err(Failure::NoMemory),
    }
}
