// A layer of pairs made from the one before it.
ghost use Rattle.std.specs.Prelude.{◌≡◌, ℕ, suc, ◌+◌, ◌<◌, ◌≤◌, ◌^◌, List, [], ◌∷◌, ◌++◌, length};
ghost use Rattle.std.specs.Prelude.{take, if◌then◌else◌, IfOk, OnOk, IfErr, IsTrue, MatchBool};
ghost use Rattle.std.specs.Prelude.{None};
ghost use Rattle.std.specs.List.{list_any, list_all};
ghost use Rattle.std.specs.Str.{bytes_eq};
ghost use Rattle.sas_task.specs.States.{IsState};
ghost use Rattle.packed_state.specs.Packing.{CanHold};
ghost use Rattle.state_step.specs.Steps.{is_applicable};
ghost use Rattle.plan_check.specs.Verdicts.{ends, pairs_after, first_fault};
ghost use Rattle.plan_check.specs.Layers.{pair_words, longer, one_each, LeadOn, IsLayer, IsGrowing};
ghost use Rattle.plan_check.specs.Layers.{IsGrown, IsAfter, IsFirstFault, EndsAt, told_fault};
ghost use Rattle.plan_check.specs.Walking.{IsSetup, IsWalker};
ghost use Rattle.plan_check.specs.declared.widening.TheConstants.{MOST_PAIRS, MOST_TOGETHER};
ghost use Rattle.plan_text.specs.declared.reading.TheConstants.{MOST_PLAN_BYTES};

use crate::layers::Layer;
use crate::refusals::Refusal;
use crate::setup::Setup;
use crate::tracing::Link;
use crate::verdicts::PlanFault;
use crate::walker::Walker;
use lama_num::Seq;
use packed_state::Layout;
use std::alloc::{AllocError, Global};

/// The most pairs of a layer.
pub const MOST_PAIRS: usize = 65_536;

/// The most pairs of all layers together.
pub const MOST_TOGETHER: usize = 67_108_864;

/// The layer after the last name, and where its links begin.
#[derive(Drop)]
pub struct Last {
    pub layer: Layer,
    pub first: usize,
}

/// Adds a pair with its link where it isn't there.
fn add_pair(
    alloc: Global,
    layout: &Layout,
    state: &[u32],
    cost: u64,
    link: Link,
    links: &mut Vec<Link>,
    layer: &mut Layer,
) -> Result<(), AllocError>
    requires { CanHold layout.now state.now }
    ensures pairs { OnOk result (layer.new ≡
        (if list_any (bytes_eq (pair_words layout.now state.now cost)) layer.old
        then layer.old else (layer.old ++ pair_words layout.now state.now cost ∷ []))) }
    ensures links { OnOk result (links.new.items ≡
        (if list_any (bytes_eq (pair_words layout.now state.now cost)) layer.old
        then links.old.items else (links.old.items ++ link ∷ []))) }
{
    if layer.add(alloc, layout, state, cost)? {
        links.push(link)?;
    }
    Ok(())
}

/// Adds the pair after an operator that can be taken in the state of one pair.
fn add_after(
    setup: &Setup,
    walker: &mut Walker,
    cost: u64,
    link: Link,
    links: &mut Vec<Link>,
    layer: &mut Layer,
) -> Result<(), AllocError>
    requires made { IsSetup setup.now }
    requires ready { IsWalker walker.old setup.now.task.now }
    requires state { IsState setup.now.task.now.variables walker.old.here.items }
    requires low { cost < 2 ^ 63 }
    requires applicable { IsTrue (is_applicable setup.now.task.now walker.old.here.items link.op) }
    ensures ready { IsWalker walker.new setup.now.task.now }
    ensures here { walker.new.here ≡ walker.old.here }
    ensures candidates { walker.new.candidates ≡ walker.old.candidates }
    ensures kept { OnOk result (LeadOn links.old.items links.new.items) }
    ensures grown { OnOk result ((choice : List ℕ) (done : List (List ℕ)) (first steps : ℕ) →
        EndsAt setup.now.task.now links.old.items steps link.from choice
        walker.old.here.items cost →
        IsGrowing setup.now.task.now setup.now.layout links.old.items first
        (suc steps) layer.old done →
        IsGrowing setup.now.task.now setup.now.layout links.new.items first (suc steps) layer.new
        (done ++ (choice ++ link.op ∷ []) ∷ [])) }
{
    let cost = cost + walker.make_next(setup.task, link.op);
    let layout = &setup.layout;
    add_pair(setup.alloc, layout, &walker.next, cost, link, links, layer)?;
    Ok(())
}

/// Adds the pairs after each operator that can be taken in the state of one pair. Answers whether
/// there is room for them.
fn widen(
    setup: &Setup,
    walker: &mut Walker,
    from: u32,
    cost: u64,
    links: &mut Vec<Link>,
    layer: &mut Layer,
) -> Result<bool, AllocError>
    requires made { IsSetup setup.now }
    requires ready { IsWalker walker.old setup.now.task.now }
    requires state { IsState setup.now.task.now.variables walker.old.here.items }
    requires low { cost < 2 ^ 63 }
    requires found { IsTrue (list_all
        (is_applicable setup.now.task.now walker.old.here.items) walker.old.candidates.items) }
    requires few { length layer.old ≤ MOST_PAIRS }
    ensures ready { IsWalker walker.new setup.now.task.now }
    ensures kept { OnOk result (LeadOn links.old.items links.new.items) }
    ensures few { IfOk result (λ room. IsTrue room → length layer.new ≤ MOST_PAIRS) }
    ensures wider { IfOk result (λ room.
        (choice : List ℕ) (done : List (List ℕ)) (first steps : ℕ) →
        EndsAt setup.now.task.now links.old.items steps from choice walker.old.here.items cost →
        IsGrowing setup.now.task.now setup.now.layout links.old.items first
        (suc steps) layer.old done →
        MatchBool room
        (IsGrowing setup.now.task.now setup.now.layout links.new.items first (suc steps) layer.new
        (done ++ longer choice walker.old.candidates.items))
        (MOST_PAIRS < length (one_each setup.now.task.now
        (done ++ longer choice walker.old.candidates.items)))) }
{
    for i in 0..walker.candidates.len() {
        let op = walker.candidates[i];
        add_after(setup, walker, cost, Link { from, op }, links, layer)?;
        if layer.len() > MOST_PAIRS {
            return Ok(false);
        }
    }
    Ok(true)
}

/// Adds the pairs of the layer after one name more. Answers whether there is room for them.
fn fill(
    setup: &Setup,
    walker: &mut Walker,
    names: &[Seq<u8>],
    count: usize,
    last: &Last,
    links: &mut Vec<Link>,
    layer: &mut Layer,
) -> Result<bool, AllocError>
    requires made { IsSetup setup.now }
    requires ready { IsWalker walker.old setup.now.task.now }
    requires count { count < length names.now }
    requires few { length names.now ≤ MOST_PLAN_BYTES }
    requires low { last.now.first + length last.now.layer < 2 ^ 32 }
    requires last { IsLayer setup.now.task.now setup.now.layout links.old.items last.now.first count
        last.now.layer (ends setup.now.task.now (take count names.now)) }
    requires none { layer.old ≡ [] }
    ensures ready { IsWalker walker.new setup.now.task.now }
    ensures filled { IfOk result (λ room. MatchBool room
        (IsGrown setup.now.task.now setup.now.layout names.now links.new.items
        (length links.old.items)
        (suc count) layer.new)
        (MOST_PAIRS < pairs_after setup.now.task.now names.now (suc count))) }
{
    for place in 0..last.layer.len() {
        let from = (last.first + place) as u32;
        let cost = walker.restore(setup, &last.layer, place);
        walker.find_candidates(setup, &names[count])?;
        if !widen(setup, walker, from, cost, links, layer)? {
            return Ok(false);
        }
    }
    Ok(true)
}

/// What is wrong with a step, if something is: after it there is room or not, and there are so many
/// pairs, and together so many.
fn fault_of_step(
    setup: &Setup,
    name: &[u8],
    step: u32,
    room: bool,
    pairs: usize,
    together: usize,
) -> Option<PlanFault>
    requires { IsSetup setup.now }
    ensures { result ≡ told_fault setup.now.task.now name.now step room pairs together }
{
    if room && pairs == 0 {
        Some(setup.no_candidate(name, step))
    } else if !room || together > MOST_TOGETHER {
        Some(PlanFault::TooMany { step })
    } else {
        None
    }
}

/// The layer after one name more.
pub fn next_layer(
    setup: &Setup,
    walker: &mut Walker,
    names: &[Seq<u8>],
    count: usize,
    last: &Last,
    links: &mut Vec<Link>,
) -> Result<Last, Refusal>
    requires made { IsSetup setup.now }
    requires ready { IsWalker walker.old setup.now.task.now }
    requires count { count < length names.now }
    requires few { length names.now ≤ MOST_PLAN_BYTES }
    requires together { length links.old.items ≤ MOST_TOGETHER }
    requires last { IsAfter setup.now.task.now setup.now.layout names.now links.old.items
        last.now.first count last.now.layer }
    requires no_fault { first_fault setup.now.task.now names.now count ≡ None }
    ensures ready { IsWalker walker.new setup.now.task.now }
    ensures together { OnOk result (length links.new.items ≤ MOST_TOGETHER) }
    ensures next { IfOk result (λ next. IsAfter setup.now.task.now setup.now.layout names.now
        links.new.items next.first (suc count) next.layer) }
    ensures no_fault { OnOk result (first_fault setup.now.task.now names.now (suc count) ≡ None) }
    ensures fault { IfErr result (IsFirstFault setup.now.task.now names.now) }
{
    let first = links.len();
    let step = count as u32 + 1;
    let mut layer = Layer::new(setup.alloc);
    let room = fill(setup, walker, names, count, last, links, &mut layer)?;
    match fault_of_step(setup, &names[count], step, room, layer.len(), links.len()) {
        Some(fault) => Err(Refusal::Bad(fault)),
        None => Ok(Last { layer, first }),
    }
}
