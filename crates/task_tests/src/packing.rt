// How many words a packed state takes.
use lama_num::{NoMemory, Seq};
use packed_state::Layout;
use sas_task::{Parts, Task};
use std::alloc::{AllocError, Global};
use test_tasks::{read_task, task_of, two_layers, variable};

fn words_of(alloc: Global, task: &Task) -> Option<usize> {
    match Layout::new(alloc, task) {
        Ok(layout) => Some(layout.words()),
        Err(NoMemory) => None,
    }
}

fn words(alloc: Global, task: Option<Task>) -> Option<usize> {
    match task {
        Some(task) => words_of(alloc, &task),
        None => None,
    }
}

/// Seven variables of a thousand values each, which take 70 bits.
fn seven_wide(alloc: Global) -> Result<Parts, AllocError> {
    let mut variables = Seq::new(alloc);
    let mut init = Seq::new(alloc);
    for _ in 0..7u32 {
        variables.push(variable(alloc, None, 1000)?)?;
        init.push(0)?;
    }
    Ok(Parts {
        metric: false,
        variables,
        groups: Seq::new(alloc),
        init,
        goal: Seq::new(alloc),
        operators: Seq::new(alloc),
        rules: Seq::new(alloc),
    })
}

fn words_of_seven_wide(alloc: Global) -> Option<usize> {
    match seven_wide(alloc) {
        Ok(parts) => words(alloc, task_of(parts)),
        Err(AllocError) => None,
    }
}

#[test]
fn few_bits_take_one_word(rt: HostRuntime) {
    assert!(rt; words(rt.alloc(), read_task(rt.alloc(), two_layers())) == Some(1));
}

#[test]
fn seventy_bits_take_two_words(rt: HostRuntime) {
    assert!(rt; words_of_seven_wide(rt.alloc()) == Some(2));
}
