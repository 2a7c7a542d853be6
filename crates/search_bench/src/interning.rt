// States of so many words that are looked for.
ghost use Rattle.std.specs.Prelude.{◌≡◌, vec_len};

use bench_tasks::{Failure, bits};
use lama_num::NoMemory;
use packed_state::Layout;
use sas_task::Task;
use state_registry::{Interned, Registry};
use std::alloc::Global;

/// Visited states, and room for the words of one.
#[derive(Drop)]
struct States {
    registry: Registry,
    words: Vec<u64>,
    ghost wide: { vec_len words ≡ registry.layout.words },
}

/// Words that no other number gives.
fn write(words: &mut [u64], number: u64) {
    let mut scattered = number;
    for word in words.iter_mut() {
        scattered = scattered.wrapping_mul(0x9e37_79b9_7f4a_7c15);
        *word = scattered;
    }
}

impl States {
    fn of(alloc: Global, layout: Layout, most: u32) -> Result<States, NoMemory> {
        let words = vec![in alloc; 0; layout.words()]?;
        match Registry::new(alloc, layout, most) {
            Ok(registry) => Ok(States { registry, words }),
            Err(NoMemory) => Err(NoMemory),
        }
    }

    /// Whether a state is known.
    fn knows(&mut self, number: u64) -> Result<bool, NoMemory> {
        write(&mut self.words, number);
        match self.registry.intern(&self.words) {
            Ok(Interned::Known(_)) => Ok(true),
            Ok(_) => Ok(false),
            Err(NoMemory) => Err(NoMemory),
        }
    }
}

/// Looks once for each of so many states, in a scattered order, and counts those that are known.
fn look(states: &mut States, most: u32) -> Result<u64, NoMemory> {
    let mut known = 0u64;
    for place in 0..most {
        let number = u64::from(place).wrapping_mul(2_654_435_761) % u64::from(most);
        known = known.wrapping_add(u64::from(states.knows(number)?));
    }
    Ok(known)
}

fn three_times(states: &mut States, most: u32) -> Result<u64, NoMemory> {
    let mut known = 0u64;
    for _ in 0..3 {
        known = known.wrapping_add(look(states, most)?);
    }
    Ok(known)
}

fn look_by(alloc: Global, layout: Layout, most: u32) -> Result<u64, NoMemory> {
    match States::of(alloc, layout, most) {
        Ok(mut states) => three_times(&mut states, most),
        Err(NoMemory) => Err(NoMemory),
    }
}

fn look_through(alloc: Global, task: &Task, most: u32) -> Result<u64, NoMemory> {
    match Layout::new(alloc, task) {
        Ok(layout) => look_by(alloc, layout, most),
        Err(NoMemory) => Err(NoMemory),
    }
}

/// Looks three times for each of so many states of so many words. Tells how often one was known.
pub fn look_three_times(alloc: Global, words: u32, most: u32) -> Result<u64, Failure> {
    match bits(alloc, words) {
        Ok(task) => Ok(look_through(alloc, &task, most)?),
        Err(error) => Err(error),
    }
}
