// The operators that are chosen for the names of a plan file.
ghost use Rattle.std.specs.Prelude.{◌≡◌, ◌-◌, ◌≤◌, [], length, option_map, IfOk, OnOk, IfErr, None};
ghost use Rattle.plan_check.specs.Layers.{IsAfter, IsFirstFault};
ghost use Rattle.plan_check.specs.Verdicts.{first_fault, first_plan, least_cost};
ghost use Rattle.plan_check.specs.Walking.{IsSetup, IsWalker};
ghost use Rattle.plan_text.specs.declared.reading.TheConstants.{MOST_PLAN_BYTES};

use crate::alone::go_alone;
use crate::layers::Layer;
use crate::names::ByName;
use crate::picking::pick;
use crate::refusals::Refusal;
use crate::setup::Setup;
use crate::tracing::{Link, trace};
use crate::walker::Walker;
use crate::widening::{Last, next_layer};
use lama_num::Seq;
use packed_state::Layout;
use sas_task::Task;
use std::alloc::Global;

/// What choices lead to: the least cost at which they reach the goal, and the first that is a plan
/// of the stated cost.
#[derive(Drop)]
pub struct Chosen {
    pub least: Option<u64>,
    pub plan: Option<Vec<u32>>,
}

/// Goes on with the names for which there are no links yet, layer by layer.
fn follow_by_layers(
    setup: &Setup,
    walker: &mut Walker,
    names: &[Seq<u8>],
    start: Layer,
    links: &mut Vec<Link>,
) -> Result<Last, Refusal>
    requires made { IsSetup setup.now }
    requires ready { IsWalker walker.old setup.now.task.now }
    requires few { length names.now ≤ MOST_PLAN_BYTES }
    requires done { length links.old.items ≤ length names.now }
    requires start { let done = length links.old.items in
        IsAfter setup.now.task.now setup.now.layout names.now links.old.items (done - 1) done
        start }
    requires no_fault { first_fault setup.now.task.now names.now (length links.old.items) ≡ None }
    ensures ready { IsWalker walker.new setup.now.task.now }
    ensures end { IfOk result (λ last. IsAfter setup.now.task.now setup.now.layout names.now
        links.new.items last.first (length names.now) last.layer) }
    ensures no_fault { OnOk result
        (first_fault setup.now.task.now names.now (length names.now) ≡ None) }
    ensures fault { IfErr result (IsFirstFault setup.now.task.now names.now) }
{
    let done = links.len();
    let mut last = Last {
        layer: start,
        first: done.saturating_sub(1),
    };
    for count in done..names.len() {
        last = next_layer(setup, walker, names, count, &last, links)?;
    }
    Ok(last)
}

/// Goes through the names: with no layer as long as there is one choice, and then layer by layer.
fn follow_names(
    setup: &Setup,
    walker: &mut Walker,
    names: &[Seq<u8>],
    links: &mut Vec<Link>,
) -> Result<Last, Refusal>
    requires made { IsSetup setup.now }
    requires ready { IsWalker walker.old setup.now.task.now }
    requires few { length names.now ≤ MOST_PLAN_BYTES }
    requires none { links.old.items ≡ [] }
    ensures ready { IsWalker walker.new setup.now.task.now }
    ensures end { IfOk result (λ last. IsAfter setup.now.task.now setup.now.layout names.now
        links.new.items last.first (length names.now) last.layer) }
    ensures no_fault { OnOk result
        (first_fault setup.now.task.now names.now (length names.now) ≡ None) }
    ensures fault { IfErr result (IsFirstFault setup.now.task.now names.now) }
{
    let cost = go_alone(setup, walker, names, links)?;
    let mut start = Layer::new(setup.alloc);
    start.add(setup.alloc, &setup.layout, &walker.here, cost)?;
    follow_by_layers(setup, walker, names, start, links)
}

/// What the last layer tells: its goals, and the choice that leads to the first of the wanted cost.
fn choose_plan(
    setup: &Setup,
    walker: &mut Walker,
    names: &[Seq<u8>],
    links: &[Link],
    last: &Last,
    wanted: u64,
) -> Result<Chosen, Refusal>
    requires made { IsSetup setup.now }
    requires ready { IsWalker walker.old setup.now.task.now }
    requires end { IsAfter setup.now.task.now setup.now.layout names.now
        links.now last.now.first (length names.now) last.now.layer }
    ensures least { IfOk result (λ chosen.
        chosen.least ≡ least_cost setup.now.task.now names.now) }
    ensures plan { IfOk result (λ chosen. option_map (λ ops. ops.items) chosen.plan
        ≡ first_plan setup.now.task.now names.now wanted) }
    ensures fault { IfErr result (IsFirstFault setup.now.task.now names.now) }
{
    let goals = pick(setup, walker, &last.layer, wanted);
    let plan = match goals.place {
        Some(place) => Some(trace(setup.alloc, links, names.len(), last.first + place)?),
        None => None,
    };
    Ok(Chosen {
        least: goals.least,
        plan,
    })
}

/// What the choices of operators for names lead to.
fn choose_by(
    setup: &Setup,
    walker: &mut Walker,
    names: &[Seq<u8>],
    wanted: u64,
) -> Result<Chosen, Refusal>
    requires made { IsSetup setup.now }
    requires ready { IsWalker walker.old setup.now.task.now }
    requires few { length names.now ≤ MOST_PLAN_BYTES }
    ensures no_fault { OnOk result
        (first_fault setup.now.task.now names.now (length names.now) ≡ None) }
    ensures least { IfOk result (λ chosen.
        chosen.least ≡ least_cost setup.now.task.now names.now) }
    ensures plan { IfOk result (λ chosen. option_map (λ ops. ops.items) chosen.plan
        ≡ first_plan setup.now.task.now names.now wanted) }
    ensures fault { IfErr result (IsFirstFault setup.now.task.now names.now) }
{
    let mut links = Vec::new(setup.alloc);
    let last = follow_names(setup, walker, names, &mut links)?;
    choose_plan(setup, walker, names, &links, &last, wanted)
}

/// The same, with a walker that is made for it.
fn with_walker(setup: &Setup, names: &[Seq<u8>], wanted: u64) -> Result<Chosen, Refusal>
    requires made { IsSetup setup.now }
    requires few { length names.now ≤ MOST_PLAN_BYTES }
    ensures no_fault { OnOk result
        (first_fault setup.now.task.now names.now (length names.now) ≡ None) }
    ensures least { IfOk result (λ chosen.
        chosen.least ≡ least_cost setup.now.task.now names.now) }
    ensures plan { IfOk result (λ chosen. option_map (λ ops. ops.items) chosen.plan
        ≡ first_plan setup.now.task.now names.now wanted) }
    ensures fault { IfErr result (IsFirstFault setup.now.task.now names.now) }
{
    let mut walker = Walker::new(setup.alloc, setup.task)?;
    choose_by(setup, &mut walker, names, wanted)
}

/// What the choices of operators for names lead to, with what is made for the task.
pub fn choose(alloc: Global, task: &Task, names: &[Seq<u8>], wanted: u64) -> Result<Chosen, Refusal>
    requires { length names.now ≤ MOST_PLAN_BYTES }
    ensures no_fault { OnOk result (first_fault task.now names.now (length names.now) ≡ None) }
    ensures least { IfOk result (λ chosen. chosen.least ≡ least_cost task.now names.now) }
    ensures plan { IfOk result (λ chosen.
        option_map (λ ops. ops.items) chosen.plan ≡ first_plan task.now names.now wanted) }
    ensures fault { IfErr result (IsFirstFault task.now names.now) }
{
    let layout = Layout::new(alloc, task)?;
    let by_name = ByName::new(alloc, &task.parts().operators)?;
    let setup = Setup {
        alloc,
        task,
        by_name,
        layout,
    };
    with_walker(&setup, names, wanted)
}
