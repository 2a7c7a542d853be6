// The states of a search: packed by number, and the two that a turn works on.
ghost use Rattle.std.specs.Prelude.{◌≡◌, ◌<◌, ◌≤◌, ℕ, List, [], length, slice_get, Some};
ghost use Rattle.std.specs.Prelude.{IfOk, OnOk};
ghost use Rattle.sas_task.specs.States.{IsState, step};
ghost use Rattle.sas_task.specs.Runs.{start_of, is_goal as goal_holds};
ghost use Rattle.packed_state.specs.Packing.{packed, IsFor as IsLayoutFor};
ghost use Rattle.state_registry.specs.Interning.{Interns};
ghost use Rattle.state_step.specs.Stepper.{IsFor as IsStepperFor};
ghost use Rattle.succ_gen.specs.Trees.{applicable as operators_in, IsFor as IsTreeFor};
ghost use Rattle.lazy_search.specs.States.{AreFor, HasRoom, Opens, IsKept};

use lama_num::NoMemory;
use packed_state::Layout;
use sas_task::Task;
use state_registry::{Interned, Registry};
use state_step::Stepper;
use std::alloc::Global;
use succ_gen::Tree;

/// The visited states by number, and room for the one that a turn goes on from and the one that it
/// reaches. Only new states take memory.
#[derive(Drop)]
pub(crate) struct States {
    pub registry: Registry,
    stepper: Stepper,
    tree: Tree,
    words: Vec<u64>,
    here: Vec<u32>,
    pub next: Vec<u32>,
    pub applicable: Vec<u32>,
}

/// The room of a turn.
#[derive(Drop)]
struct Room {
    words: Vec<u64>,
    here: Vec<u32>,
    next: Vec<u32>,
    applicable: Vec<u32>,
}

impl Room {
    /// Takes room for so many words, and for the values and operators of a task.
    fn take(&mut self, task: &Task, words: usize) -> Result<(), NoMemory>
        requires words { self.old.words.items ≡ [] }
        requires here { self.old.here.items ≡ [] }
        requires next { self.old.next.items ≡ [] }
        requires applicable { self.old.applicable.items ≡ [] }
        ensures { OnOk result (HasRoom self.new task.now words) }
    {
        let variables = task.parts().variables.len();
        self.words.resize(words, 0)?;
        self.here.resize(variables, 0)?;
        self.next.resize(variables, 0)?;
        self.applicable.reserve(task.parts().operators.len())?;
        Ok(())
    }

    fn new(alloc: Global, task: &Task, words: usize) -> Result<Room, NoMemory>
        ensures { IfOk result (λ room. HasRoom room task.now words) }
    {
        let mut room = Room {
            words: Vec::new(alloc),
            here: Vec::new(alloc),
            next: Vec::new(alloc),
            applicable: Vec::new(alloc),
        };
        match room.take(task, words) {
            Ok(()) => Ok(room),
            Err(e) => Err(e),
        }
    }
}

/// What leads from a state to others.
#[derive(Drop)]
struct Moves {
    stepper: Stepper,
    tree: Tree,
}

impl Moves {
    fn new(alloc: Global, task: &Task) -> Result<Moves, NoMemory>
        ensures stepper { IfOk result (λ moves. IsStepperFor moves.stepper task.now) }
        ensures tree { IfOk result (λ moves. IsTreeFor moves.tree task.now) }
    {
        let stepper = Stepper::new(alloc, task)?;
        let tree = Tree::new(alloc, task)?;
        Ok(Moves { stepper, tree })
    }
}

/// The visited states, and the room of a turn.
#[derive(Drop)]
struct Kept {
    registry: Registry,
    room: Room,
}

impl Kept {
    fn new(alloc: Global, task: &Task, most: u32) -> Result<Kept, NoMemory>
        ensures layout { IfOk result (λ kept. IsLayoutFor kept.registry.layout task.now) }
        ensures room { IfOk result (λ kept. HasRoom kept.room task.now kept.registry.layout.words) }
        ensures states { IfOk result (λ kept. kept.registry.states ≡ []) }
        ensures most { IfOk result (λ kept. kept.registry.most ≡ most) }
    {
        let layout = Layout::new(alloc, task)?;
        let room = Room::new(alloc, task, layout.words())?;
        let registry = Registry::new(alloc, layout, most)?;
        Ok(Kept { registry, room })
    }
}

impl States {
    /// No states of a task, and room for so many.
    pub(crate) fn new(alloc: Global, task: &Task, most: u32) -> Result<States, NoMemory>
        ensures ready { IfOk result (λ states. AreFor states task.now) }
        ensures states { IfOk result (λ states. states.registry.states ≡ []) }
        ensures most { IfOk result (λ states. states.registry.most ≡ most) }
    {
        let Moves { stepper, tree } = Moves::new(alloc, task)?;
        let Kept { registry, room } = Kept::new(alloc, task, most)?;
        Ok(States {
            registry,
            stepper,
            tree,
            words: room.words,
            here: room.here,
            next: room.next,
            applicable: room.applicable,
        })
    }

    /// Gives all up.
    pub(crate) fn release(self) {}

    /// Reaches the initial state.
    pub(crate) fn start(&mut self, task: &Task)
        requires { AreFor self.old task.now }
        ensures ready { AreFor self.new task.now }
        ensures kept { self.new.registry ≡ self.old.registry }
        ensures next { self.new.next.items ≡ start_of task.now }
    {
        self.stepper.initial(task, &mut self.next);
    }

    /// Reaches the state to which an operator leads from a state, which is given by its number.
    pub(crate) fn follow(&mut self, task: &Task, id: u32, op: u32)
        requires ready { AreFor self.old task.now }
        requires opens { Opens self.old task.now id op }
        ensures ready { AreFor self.new task.now }
        ensures kept { self.new.registry ≡ self.old.registry }
        ensures next { (state : List ℕ) → IsState task.now.variables state →
            slice_get self.old.registry.states id ≡ Some (packed self.old.registry.layout state) →
            step task.now state op ≡ Some self.new.next.items }
    {
        let layout = self.registry.layout();
        layout.unpack(self.registry.state(id), &mut self.here);
        self.stepper
            .apply_into(task, &self.here, op, &mut self.next);
    }

    /// Looks for the state that was reached, and adds it where it isn't there and there is room.
    pub(crate) fn intern(&mut self, task: &Task) -> Result<Interned, NoMemory>
        requires ready { AreFor self.old task.now }
        requires state { IsState task.now.variables self.old.next.items }
        ensures ready { AreFor self.new task.now }
        ensures next { self.new.next ≡ self.old.next }
        ensures most { self.new.registry.most ≡ self.old.registry.most }
        ensures layout { self.new.registry.layout ≡ self.old.registry.layout }
        ensures interns { IfOk result (λ interned. Interns self.old.registry.states
            self.old.registry.most (packed self.old.registry.layout self.old.next.items) interned
            self.new.registry.states) }
    {
        self.registry.layout().pack(&self.next, &mut self.words);
        self.registry.intern(&self.words)
    }

    /// Finds the operators that are applicable in the state that was reached, ascending.
    pub(crate) fn find_applicable(&mut self, task: &Task)
        requires { AreFor self.old task.now }
        ensures ready { AreFor self.new task.now }
        ensures kept { self.new.registry ≡ self.old.registry }
        ensures next { self.new.next ≡ self.old.next }
        ensures applicable { self.new.applicable.items ≡ operators_in task.now self.old.next.items }
    {
        self.tree
            .applicable_into(task, &self.next, &mut self.applicable);
    }

    /// Whether the state that was reached is a goal.
    pub(crate) fn is_goal(&self, task: &Task) -> bool
        requires { AreFor self.now task.now }
        ensures { result ≡ goal_holds task.now self.now.next.items }
    {
        self.stepper.is_goal(task, &self.next)
    }

    /// Copies a state by its number.
    pub(crate) fn state_into(&self, task: &Task, id: u32, out: &mut [u32])
        requires ready { AreFor self.now task.now }
        requires kept { IsKept self.now task.now id }
        requires long { length out.old ≡ length task.now.variables }
        ensures { (state : List ℕ) → IsState task.now.variables state →
            slice_get self.now.registry.states id ≡ Some (packed self.now.registry.layout state) →
            out.new ≡ state }
    {
        let layout = self.registry.layout();
        layout.unpack(self.registry.state(id), out);
    }
}
