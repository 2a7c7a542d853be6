// Texts of tasks that are printed: those of tasks that were read, and of tasks that were made.
use lama_num::NoMemory;
use sas_task::Task;
use std::alloc::Global;
use std::str::from_utf8;
use task_gen::{generate, print};
use test_tasks::{door, free_moves, no_operator, read_task, swap, three_places, two_layers};

/// Whether a task has this text. Nothing of what printing promises is passed on.
fn has_text(alloc: Global, task: &Task, text: &str) -> bool {
    match print(alloc, task) {
        Ok(bytes) => bytes.as_slice() == text.as_bytes(),
        Err(_) => false,
    }
}

/// Whether the task of a text has this very text.
fn is_printed(alloc: Global, text: &str) -> bool {
    match read_task(alloc, text) {
        Some(task) => has_text(alloc, &task, text),
        None => false,
    }
}

/// The delivery task of one package, which starts where it has to be.
fn one_package() -> &'static str {
    "begin_version
3
end_version
begin_metric
0
end_metric
2
begin_variable
truck
-1
2
Atom truck-at(0)
Atom truck-at(1)
end_variable
begin_variable
package1
-1
3
Atom at(1, 0)
Atom at(1, 1)
Atom in(1)
end_variable
0
begin_state
0
0
end_state
begin_goal
1
1 0
end_goal
6
begin_operator
move 0 1
0
1
0 0 0 1
1
end_operator
begin_operator
move 1 0
0
1
0 0 1 0
1
end_operator
begin_operator
load 1 0
1
0 0
1
0 1 0 2
1
end_operator
begin_operator
unload 1 0
1
0 0
1
0 1 2 0
1
end_operator
begin_operator
load 1 1
1
0 1
1
0 1 1 2
1
end_operator
begin_operator
unload 1 1
1
0 1
1
0 1 2 1
1
end_operator
0
"
}

#[test]
fn texts_that_were_read(rt: HostRuntime) {
    let alloc = rt.alloc();
    assert!(rt; is_printed(alloc, three_places()));
    assert!(rt; is_printed(alloc, no_operator()));
    assert!(rt; is_printed(alloc, door()));
    assert!(rt; is_printed(alloc, two_layers()));
    assert!(rt; is_printed(alloc, swap()));
    assert!(rt; is_printed(alloc, free_moves()));
}

/// The delivery task of so many packages. Nothing of what making it promises is passed on.
fn made(alloc: Global, packages: u32) -> Result<Task, NoMemory> {
    generate(alloc, packages.clamp(1, 100))
}

fn is_made(alloc: Global, packages: u32, text: &str) -> bool {
    match made(alloc, packages) {
        Ok(task) => has_text(alloc, &task, text),
        Err(NoMemory) => false,
    }
}

/// Whether these bytes are a text, whose task has this very text.
fn are_printed(alloc: Global, bytes: &[u8]) -> bool {
    match from_utf8(bytes) {
        Ok(text) => is_printed(alloc, text),
        Err(_) => false,
    }
}

fn is_read_back(alloc: Global, task: &Task) -> bool {
    match print(alloc, task) {
        Ok(bytes) => are_printed(alloc, &bytes),
        Err(_) => false,
    }
}

fn is_made_and_read_back(alloc: Global, packages: u32) -> bool {
    match made(alloc, packages) {
        Ok(task) => is_read_back(alloc, &task),
        Err(NoMemory) => false,
    }
}

#[test]
fn delivery_tasks(rt: HostRuntime) {
    let alloc = rt.alloc();
    assert!(rt; is_made(alloc, 1, one_package()));
    assert!(rt; is_made_and_read_back(alloc, 100));
}
