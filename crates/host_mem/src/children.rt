// Children that follow scripts.
ghost use Rattle.std.specs.Prelude.{◌≡◌, ◌++◌, ◌∷◌, [], map, reverse, filter, not, nat_eq};
ghost use Rattle.std.specs.Prelude.{string_bytes, IfOk, MatchOption};
ghost use Rattle.host_mem.specs.Scripts.{next_script, later_scripts, script_in, idle_script};
ghost use Rattle.host_mem.specs.Scripts.{IsPlaceOf};

use lama_host::{ChildEnd, Limits};
use lama_num::Seq;
use std::alloc::{AllocError, Global};

/// What a child does: its writes, each the new bytes of a name or None to take the name away, and
/// how it ends.
#[derive(Drop)]
pub struct Script {
    pub writes: Seq<(Seq<u8>, Option<Seq<u8>>)>,
    pub outcome: ChildEnd,
}

/// A successful start: the words, the program first, the bytes of standard input, and the limits.
#[derive(Drop)]
pub struct Start {
    pub words: Seq<Seq<u8>>,
    pub input: Seq<u8>,
    pub limits: Limits,
}

/// A child that runs.
#[derive(Drop)]
pub struct Running {
    pub slot: u32,
    pub script: Script,
}

/// The script of a child for which there is none: no writes, and status 127.
fn no_script(alloc: Global) -> Script
    ensures { result ≡ idle_script }
{
    Script {
        writes: Seq::new(alloc),
        outcome: ChildEnd::Status(127),
    }
}

/// Takes the next script, which is kept last.
pub(crate) fn take_script(alloc: Global, scripts: &mut Vec<Script>) -> Script
    ensures next { result ≡ next_script (reverse scripts.old.items) }
    ensures later { reverse scripts.new.items ≡ later_scripts (reverse scripts.old.items) }
{
    match scripts.pop() {
        Some(script) => script,
        None => no_script(alloc),
    }
}

fn copy_words(alloc: Global, words: &[String]) -> Result<Vec<Seq<u8>>, AllocError>
    ensures { IfOk result (λ copies. copies.items ≡ map string_bytes words.now) }
{
    let mut copies = Vec::with_capacity(alloc, words.len())?;
    for word in words {
        copies.push(Seq::from(Vec::from_slice(alloc, word.as_bytes())?))?;
    }
    Ok(copies)
}

/// What is kept of a start.
pub(crate) fn copy_start(
    alloc: Global,
    words: &[String],
    input: &[u8],
    limits: Limits,
) -> Result<Start, AllocError>
    ensures { IfOk result (λ start. start
        ≡ record { words = map string_bytes words.now; input = input.now; limits = limits }) }
{
    Ok(Start {
        words: Seq::from(copy_words(alloc, words)?),
        input: Seq::from(Vec::from_slice(alloc, input)?),
        limits,
    })
}

fn place_of(running: &[Running], slot: u32) -> Option<usize>
    ensures { MatchOption result (script_in running.now slot ≡ idle_script)
        (IsPlaceOf running.now slot) }
{
    for i in 0..running.len() {
        let child = &running[i];
        if child.slot == slot {
            return Some(i);
        }
    }
    None
}

fn free(running: &mut Vec<Running>, slot: u32)
    ensures { running.new.items ≡ filter (λ child. not (nat_eq child.slot slot)) running.old.items }
{
    running.retain(|child| child.slot != slot);
}

/// Frees a slot, and gives the script of its child.
pub(crate) fn end_child(alloc: Global, running: &mut Vec<Running>, slot: u32) -> Script
    ensures script { result ≡ script_in running.old.items slot }
    ensures freed { running.new.items ≡
        filter (λ child. not (nat_eq child.slot slot)) running.old.items }
{
    match place_of(running, slot) {
        Some(place) => {
            let child = running.remove(place);
            free(running, slot);
            let Running { slot: _, script } = child;
            script
        }
        None => {
            free(running, slot);
            no_script(alloc)
        }
    }
}
