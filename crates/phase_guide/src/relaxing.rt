// What a phase takes from the relaxation.
ghost use Rattle.std.specs.Prelude.{◌≡◌, [], true, IsTrue, IfSome, IfNone, ◌⊎◌};
ghost use Rattle.std.specs.Prelude.{if◌then◌else◌};
ghost use Rattle.lama_num.specs.declared.estimates.Estimate.{Estimate as TheEstimate};
ghost use Rattle.sas_task.specs.declared.contents.CostKind.{CostKind as TheKind};
ghost use Rattle.sas_task.specs.States.{IsState};
ghost use Rattle.relaxed_task.specs.Relaxations.{IsRelaxed};
ghost use Rattle.conf_text.specs.Grammar.{has_guide};
ghost use Rattle.conf_text.specs.declared.config.GuideKind.{GuideKind as TheGuide};
ghost use Rattle.phase_guide.specs.Kinds.{is_relaxing as relaxing_test};
ghost use Rattle.phase_guide.specs.Relaxings.{IsRelaxingFor, Tells};
ghost use Rattle.phase_guide.specs.Relaxings.{relaxes as does_relax, plans as does_plan};
ghost use Rattle.phase_guide.specs.Relaxings.{helpful_of};
ghost use Rattle.phase_guide.specs.declared.relaxing.Relaxing.{Relaxing as TheRelaxing};

use crate::kinds::{has, is_relaxing};
use conf_text::{GuideKind, Phase};
use h_add::Add;
use h_ff::Ff;
use lama_num::Estimate;
use sas_task::Task;

/// The additive estimate and that of FF, of a state that isn't dead; 0 where it isn't asked for.
#[derive(Clone, Copy)]
pub(crate) struct RelaxedCosts {
    pub add: u32,
    pub ff: u32,
}

/// What a phase takes from the relaxation.
#[derive(Drop)]
pub(crate) enum Relaxing {
    Nothing,
    Additive(Add),
    /// FF shows the additive estimate of the same state, so that one evaluation serves both.
    Planning(Ff),
}

fn both(add: Estimate, ff: Estimate) -> Option<RelaxedCosts>
    ensures alive { IfSome result (λ costs.
        (add ≡ TheEstimate.Finite costs.add) × (ff ≡ TheEstimate.Finite costs.ff)) }
    ensures dead { IfNone result ((add ≡ TheEstimate.Infinite) ⊎ (ff ≡ TheEstimate.Infinite)) }
{
    match (add, ff) {
        (Estimate::Finite(add), Estimate::Finite(ff)) => Some(RelaxedCosts { add, ff }),
        (Estimate::Infinite, _) => None,
        (_, Estimate::Infinite) => None,
    }
}

fn evaluate_add(add: &mut Add, task: &Task, state: &[u32]) -> Option<RelaxedCosts>
    requires { IsState task.now.variables state.now }
    ensures relaxed { add.new.relaxed ≡ add.old.relaxed }
    ensures tells { (kind : TheKind) → IsRelaxed task.now kind add.old.relaxed →
        Tells task.now kind state.now (TheRelaxing.Additive add.new) result }
{
    both(add.evaluate_goal(state), Estimate::Finite(0))
}

fn evaluate_ff(ff: &mut Ff, task: &Task, state: &[u32]) -> Option<RelaxedCosts>
    requires { IsState task.now.variables state.now }
    ensures relaxed { ff.new.relaxed ≡ ff.old.relaxed }
    ensures kind { ff.new.kind ≡ ff.old.kind }
    ensures tells { IsRelaxed task.now ff.old.kind ff.old.relaxed →
        Tells task.now ff.old.kind state.now (TheRelaxing.Planning ff.new) result }
{
    let value = ff.evaluate(task, state);
    both(ff.additive().goal_value(), value)
}

impl Relaxing {
    /// Evaluates a state. None where it is dead.
    pub(crate) fn evaluate(&mut self, task: &Task, state: &[u32]) -> Option<RelaxedCosts>
        requires { IsState task.now.variables state.now }
        ensures made { (kind : TheKind) → IsRelaxingFor task.now kind self.old →
            IsRelaxingFor task.now kind self.new }
        ensures relaxes { does_relax self.new ≡ does_relax self.old }
        ensures plans { does_plan self.new ≡ does_plan self.old }
        ensures tells { (kind : TheKind) → IsRelaxingFor task.now kind self.old →
            Tells task.now kind state.now self.new result }
    {
        match self {
            Relaxing::Nothing => Some(RelaxedCosts { add: 0, ff: 0 }),
            Relaxing::Additive(add) => evaluate_add(add, task, state),
            Relaxing::Planning(ff) => evaluate_ff(ff, task, state),
        }
    }

    /// Whether a phase needs nothing else. FF serves for the additive estimate too.
    pub(crate) fn serves(&self, phase: &Phase) -> bool
        ensures relaxing { IsTrue result → relaxing_test phase.now ≡ does_relax self.now }
        ensures planning { IsTrue result → has_guide phase.now.guides TheGuide.Ff ≡ true →
            does_plan self.now ≡ true }
    {
        match self {
            Relaxing::Nothing => !is_relaxing(phase),
            Relaxing::Additive(_) => is_relaxing(phase) && !has(&phase.guides, GuideKind::Ff),
            Relaxing::Planning(_) => is_relaxing(phase),
        }
    }

    /// The applicable operators of the relaxed plan that was found last.
    fn helpful(&self) -> &[u32]
        ensures { result.now ≡ helpful_of self.now }
    {
        match self {
            Relaxing::Nothing => &[],
            Relaxing::Additive(_) => &[],
            Relaxing::Planning(ff) => ff.preferred(),
        }
    }

    /// The applicable operators of the relaxed plan that was found last, if they are wanted.
    pub(crate) fn helpful_if(&self, wanted: bool) -> &[u32]
        ensures { result.now ≡ (if wanted then helpful_of self.now else []) }
    {
        if wanted { self.helpful() } else { &[] }
    }
}
