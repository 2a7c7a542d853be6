// The children that run, each with its slot.
ghost use Rattle.std.specs.Prelude.{◌≡◌, ◌<◌, [], ◌∷◌, ◌++◌, OnOk, OnErr, nat_eq, position};
ghost use Rattle.std.specs.Prelude.{vec_len, vec_capacity};
ghost use Rattle.host_real.specs.Children.{without};
ghost use Rattle.host_real.specs.Slots.{slots};

use crate::child::{Program, launch};
use std::alloc::Global;
use std::io;
use std::process::{Child, OpenProcess, Processes};

/// A child that runs in a slot.
#[derive(Drop)]
pub struct Running<P: OpenProcess> {
    slot: u32,
    child: Child<P>,
}

/// Keeps a child for which there is room.
fn add<P: OpenProcess + Drop>(running: &mut Vec<Running<P>>, slot: u32, child: Child<P>)
    requires { vec_len running.old < vec_capacity running.old }
    ensures { slots running.new.items ≡ slots running.old.items ++ slot ∷ [] }
{
    let Ok(()) = running.push(Running { slot, child }) else {
        unreachable!()
    };
}

/// Starts a program in a slot. Its room is made first, so that no child runs that can't be kept.
pub fn start_in<R: Processes>(
    alloc: Global,
    rt: &R,
    running: &mut Vec<Running<R::Started>>,
    slot: u32,
    program: &Program,
) -> io::Result<()>
    ensures started { OnOk result (slots running.new.items ≡ slots running.old.items ++ slot ∷ []) }
    ensures failed { OnErr result (slots running.new.items ≡ slots running.old.items) }
{
    running.reserve(1)?;
    let child = launch(alloc, rt, program)?;
    add(running, slot, child);
    Ok(())
}

/// The place of the first child of a slot.
fn place<P: OpenProcess + Drop>(running: &[Running<P>], slot: u32) -> Option<usize>
    ensures { result ≡ position (λ child. nat_eq child.slot slot) running.now }
{
    running.iter().position(|child| child.slot == slot)
}

/// Takes out the first child of a slot.
fn take_first<P: OpenProcess + Drop>(running: &mut Vec<Running<P>>, slot: u32) -> Option<Child<P>>
    ensures { without slot (slots running.new.items) ≡ without slot (slots running.old.items) }
{
    let at = place(running, slot)?;
    let Running { slot: _, child } = running.remove(at);
    Some(child)
}

fn free<P: OpenProcess + Drop>(running: &mut Vec<Running<P>>, slot: u32)
    ensures { slots running.new.items ≡ without slot (slots running.old.items) }
{
    running.retain(|child| child.slot != slot);
}

/// Takes out the child of a slot, and frees the slot.
pub fn take<P: OpenProcess + Drop>(running: &mut Vec<Running<P>>, slot: u32) -> Option<Child<P>>
    ensures { slots running.new.items ≡ without slot (slots running.old.items) }
{
    let child = take_first(running, slot);
    free(running, slot);
    child
}
