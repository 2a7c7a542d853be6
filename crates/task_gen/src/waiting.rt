// Which preconditions stand for effects.
ghost use Rattle.std.specs.Prelude.{◌≡◌, ◌<◌, List, Bool, [], length, map, filter};
ghost use Rattle.std.specs.Prelude.{option_map, IfOk, OnOk, IsTrue};
ghost use Rattle.std.specs.VecDeque.{deque_items};
ghost use Rattle.std.specs.List.{list_all, enumerate_from};
ghost use Rattle.sas_task.specs.Order.{distinct, prevail};
ghost use Rattle.sas_task.specs.Within.{is_within};
ghost use Rattle.sas_task.specs.declared.contents.Fact.{Fact as TheFact};
ghost use Rattle.task_gen.specs.Printed.{old_value};
ghost use Rattle.task_gen.specs.Waiting.{Waits, CanWait, is_front};

use sas_task::{Effect, Fact, Operator};
use std::alloc::{AllocError, Global};
use std::collections::VecDeque;

/// Nothing waits on any of so many variables.
pub fn nothing_waits(alloc: Global, variables: usize) -> Result<Vec<VecDeque<Fact>>, AllocError>
    ensures none { IfOk result (λ waiting. Waits deque_items waiting.items []) }
    ensures many { IfOk result (λ waiting. length waiting.items ≡ variables) }
{
    let mut waiting = Vec::with_capacity(alloc, variables)?;
    for _var in 0..variables {
        waiting.push(VecDeque::new(alloc))?;
    }
    Ok(waiting)
}

/// Lets preconditions wait, each on its variable.
fn let_wait(waiting: &mut [VecDeque<Fact>], pre: &[Fact]) -> Result<(), AllocError>
    requires none { Waits deque_items waiting.old [] }
    requires within { IsTrue (list_all (is_within (length waiting.old)) pre.now) }
    ensures { OnOk result (Waits deque_items waiting.new pre.now) }
{
    for fact in pre {
        waiting[fact.var as usize].push_back(*fact)?;
    }
    Ok(())
}

fn value_of(fact: Option<Fact>) -> Option<u32>
    ensures { result ≡ option_map (λ f. f.val) fact }
{
    match fact {
        Some(fact) => Some(fact.val),
        None => None,
    }
}

/// For each effect, the value of the first precondition that waits on its variable. It no longer
/// waits then.
fn take_standing(
    alloc: Global,
    waiting: &mut [VecDeque<Fact>],
    effects: &[Effect],
) -> Result<Vec<Option<u32>>, AllocError>
    requires within { IsTrue (list_all (λ e. is_within (length waiting.old) e.fact) effects.now) }
    ensures { IfOk result (λ olds. (pre : List TheFact) → distinct pre ≡ pre →
        Waits deque_items waiting.old pre →
        (olds.items ≡ map (old_value pre effects.now) (enumerate_from 0 effects.now))
        × Waits deque_items waiting.new (prevail pre effects.now)) }
{
    let mut olds = Vec::with_capacity(alloc, effects.len())?;
    for effect in effects {
        let first = waiting[effect.fact.var as usize].pop_front();
        olds.push(value_of(first))?;
    }
    Ok(olds)
}

/// Whether a fact is the first that waits on its variable.
fn is_first(waiting: &[VecDeque<Fact>], fact: Fact) -> bool
    requires { fact.var < length waiting.now }
    ensures { result ≡ is_front deque_items waiting.now fact }
{
    match waiting[fact.var as usize].front() {
        Some(first) => *first == fact,
        None => false,
    }
}

/// The facts of a list that wait, in its order. They no longer do then.
fn take_left(
    alloc: Global,
    waiting: &mut [VecDeque<Fact>],
    pre: &[Fact],
) -> Result<Vec<Fact>, AllocError>
    requires within { IsTrue (list_all (is_within (length waiting.old)) pre.now) }
    requires once { distinct pre.now ≡ pre.now }
    ensures { IfOk result
        (λ left. (p : TheFact → Bool) → Waits deque_items waiting.old (filter p pre.now) →
        (left.items ≡ filter p pre.now) × Waits deque_items waiting.new []) }
{
    let mut left = Vec::new(alloc);
    for fact in pre {
        if is_first(waiting, *fact) {
            let _first = waiting[fact.var as usize].pop_front();
            left.push(*fact)?;
        }
    }
    Ok(left)
}

/// What the preconditions of an operator stand for: the prevail conditions for no effect, and the
/// others each for one.
#[derive(Drop)]
pub struct Standing {
    pub prevail: Vec<Fact>,
    /// For each effect the value of the precondition that stands for it.
    pub olds: Vec<Option<u32>>,
}

/// Finds what the preconditions of an operator stand for. The queues are empty before and after.
pub fn stand(
    alloc: Global,
    waiting: &mut [VecDeque<Fact>],
    operator: &Operator,
) -> Result<Standing, AllocError>
    requires none { Waits deque_items waiting.old [] }
    requires fits { CanWait (length waiting.old) operator.now }
    ensures prevail { IfOk result (λ s. s.prevail.items
        ≡ prevail operator.now.pre operator.now.effects) }
    ensures olds { IfOk result (λ s. s.olds.items
        ≡ map (old_value operator.now.pre operator.now.effects)
        (enumerate_from 0 operator.now.effects)) }
    ensures none { OnOk result (Waits deque_items waiting.new []) }
{
    let_wait(waiting, &operator.pre)?;
    let olds = take_standing(alloc, waiting, &operator.effects)?;
    let prevail = take_left(alloc, waiting, &operator.pre)?;
    Ok(Standing { prevail, olds })
}
