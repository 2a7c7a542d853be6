// How a phase of a configuration ends, and which one follows.
ghost use Rattle.std.specs.Prelude.{◌≡◌, ◌<◌, length};
ghost use Rattle.sas_task.specs.Costs.{is_normal as normal};
ghost use Rattle.iterated.specs.Following.{begun, is_exact as exact, is_exact_at as exact_at};
ghost use Rattle.iterated.specs.Following.{place_after, place_after_plan, place_next};
ghost use Rattle.iterated.specs.Closing.{end_with, exhausted_end};

use conf_text::{Config, Phase};
use lama_num::Seq;
use lazy_search::SearchEnd;
use sas_task::CostKind;
use search_log::{LimitHit, Log, Space};

/// What a call for the next phase begins with.
#[derive(Clone, Copy)]
pub enum Begun {
    /// No phase is left.
    Over,
    /// No plan is cheaper than the bound, which is 0; no phase is begun.
    Best,
    /// The phase at a place of the configuration, from 0, is begun.
    Phase(usize),
}

/// The end of a phase, with its log.
#[derive(Drop)]
pub enum PhaseEnd {
    /// A plan below the bound, and what it really costs.
    Plan { ops: Seq<u32>, cost: u64, log: Log },
    /// There is no plan: these are the states that the search visited. From each of them that isn't
    /// dead every step leads to one of them, and none is a goal; a dead one leads to no goal.
    Unsolvable { space: Space, log: Log },
    /// No plan is cheaper than the bound. Below the bound 0 no phase is begun, and both are empty.
    Best { space: Space, log: Log },
    /// Nothing is left to visit below the bound, which doesn't show that no plan is cheaper.
    /// `last`: no phase follows.
    Unsolved { space: Space, log: Log, last: bool },
    /// A limit was reached.
    Limit { hit: LimitHit, log: Log },
    /// No phase is left.
    Over,
    /// Memory was wanting.
    NoMemory,
}

/// Whether costs are counted as they are.
fn is_normal(kind: CostKind) -> bool
    ensures { result ≡ normal kind }
{
    match kind {
        CostKind::Normal => true,
        CostKind::One => false,
        CostKind::PlusOne => false,
    }
}

/// Whether the exhausted space of a phase shows that no plan is cheaper than its bound.
fn is_exact(phase: &Phase) -> bool
    ensures { result ≡ exact phase.now }
{
    phase.reopen && is_normal(phase.cost)
}

fn is_exact_at(config: &Config, place: usize) -> bool
    ensures { result ≡ exact_at config.now place }
{
    match config.phases.as_slice().get(place) {
        Some(phase) => is_exact(phase),
        None => false,
    }
}

/// The place behind one, if a phase is there.
fn after(config: &Config, place: usize) -> Option<usize>
    requires { place < length config.now.phases }
    ensures { result ≡ place_after config.now place }
{
    let count = config.phases.len();
    if place + 1 < count {
        Some(place + 1)
    } else {
        None
    }
}

/// The place of the phase that follows a plan, if one does.
fn after_plan(config: &Config, place: usize) -> Option<usize>
    requires { place < length config.now.phases }
    ensures { result ≡ place_after_plan config.now place }
{
    match after(config, place) {
        Some(next) => Some(next),
        None if config.repeat_last => Some(place),
        None => None,
    }
}

/// What a call begins with, by the place of the phase that is next, if there is one, and a bound on
/// the cost of plans, if there is one.
pub(crate) fn begin(next: Option<usize>, bound: Option<u64>) -> Begun
    ensures { result ≡ begun next bound }
{
    match (next, bound) {
        (None, _) => Begun::Over,
        (Some(_), Some(0)) => Begun::Best,
        (Some(place), _) => Begun::Phase(place),
    }
}

/// How a phase ends whose space is exhausted under a bound.
fn exhausted(config: &Config, place: usize, space: Space, log: Log) -> PhaseEnd
    requires { place < length config.now.phases }
    ensures { result ≡ exhausted_end config.now place space log }
{
    if is_exact_at(config, place) {
        return PhaseEnd::Best { space, log };
    }
    let last = after(config, place).is_none();
    PhaseEnd::Unsolved { space, log, last }
}

impl PhaseEnd {
    /// The end of the phase at a place, by how its search ended.
    pub(crate) fn by(end: SearchEnd, config: &Config, place: usize) -> PhaseEnd
        requires { place < length config.now.phases }
        ensures { result ≡ end_with config.now place end }
    {
        match end {
            SearchEnd::Plan { ops, cost, log } => PhaseEnd::Plan { ops, cost, log },
            SearchEnd::Unsolvable { space, log } => PhaseEnd::Unsolvable { space, log },
            SearchEnd::Unsolved { space, log } => exhausted(config, place, space, log),
            SearchEnd::Limit { hit, log } => PhaseEnd::Limit { hit, log },
            SearchEnd::NoMemory => PhaseEnd::NoMemory,
        }
    }

    /// The place of the phase that follows when the phase at a place ended so, if one does.
    pub(crate) fn next_place(&self, config: &Config, place: usize) -> Option<usize>
        requires { place < length config.now.phases }
        ensures { result ≡ place_next config.now place self.now }
    {
        match self {
            PhaseEnd::Plan { .. } => after_plan(config, place),
            PhaseEnd::Unsolved { .. } => after(config, place),
            _ => None,
        }
    }
}
