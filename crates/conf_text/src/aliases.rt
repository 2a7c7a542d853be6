// Configurations that are built in.
ghost use Rattle.std.specs.Prelude.{◌≡◌, ◌++◌, map, IfOk, IfSome, OnOk};
ghost use Rattle.conf_text.specs.Accepted.{IsConfig};
ghost use Rattle.conf_text.specs.AliasConfigs.{ff_and_lm as the_guides, greedy as the_greedy};
ghost use Rattle.conf_text.specs.AliasConfigs.{weighted as the_weighted, weighted_phases};
ghost use Rattle.conf_text.specs.AliasConfigs.{lama_phases as the_phases, lama as the_lama};
ghost use Rattle.conf_text.specs.AliasConfigs.{lama_first as the_first, alias_config};

use crate::config::{Config, GuideKind, MOST_POPS, MOST_STATES, Phase, USUAL_BOOST};
use crate::reading::one_phase;
use lama_num::{NoMemory, Seq};
use sas_task::CostKind;
use std::alloc::{AllocError, Global};

fn ff_and_lm(alloc: Global) -> Result<Seq<GuideKind>, AllocError>
    ensures { IfOk result (λ guides. guides ≡ the_guides) }
{
    let mut guides = Seq::new(alloc);
    guides.push(GuideKind::Ff)?;
    guides.push(GuideKind::Lm)?;
    Ok(guides)
}

fn greedy(alloc: Global, cost: CostKind, estimate: CostKind) -> Result<Phase, AllocError>
    ensures { IfOk result (λ phase. phase ≡ the_greedy cost estimate) }
{
    let guides = ff_and_lm(alloc)?;
    let preferred = ff_and_lm(alloc)?;
    Ok(Phase {
        guides,
        preferred,
        cost,
        estimate,
        weight: None,
        reopen: false,
        boost: USUAL_BOOST,
        most_pops: MOST_POPS,
        most_states: MOST_STATES as u32,
    })
}

fn weighted(alloc: Global, estimate: CostKind, weight: u32) -> Result<Phase, AllocError>
    ensures { IfOk result (λ phase. phase ≡ the_weighted estimate weight) }
{
    let phase = greedy(alloc, CostKind::Normal, estimate)?;
    Ok(Phase {
        weight: Some(weight),
        reopen: true,
        ..phase
    })
}

fn push_weighted(
    alloc: Global,
    phases: &mut Seq<Phase>,
    estimate: CostKind,
) -> Result<(), AllocError>
    ensures { OnOk result (phases.new ≡ phases.old ++ weighted_phases estimate) }
{
    phases.push(weighted(alloc, estimate, 5)?)?;
    phases.push(weighted(alloc, estimate, 3)?)?;
    phases.push(weighted(alloc, estimate, 2)?)?;
    phases.push(weighted(alloc, estimate, 1)?)?;
    Ok(())
}

fn lama_phases(alloc: Global, unit_cost: bool) -> Result<Seq<Phase>, AllocError>
    ensures { IfOk result (λ phases. phases ≡ the_phases unit_cost) }
{
    let mut phases = Seq::new(alloc);
    if unit_cost {
        phases.push(greedy(alloc, CostKind::Normal, CostKind::Normal)?)?;
        push_weighted(alloc, &mut phases, CostKind::Normal)?;
        return Ok(phases);
    }
    phases.push(greedy(alloc, CostKind::One, CostKind::One)?)?;
    phases.push(greedy(alloc, CostKind::Normal, CostKind::PlusOne)?)?;
    push_weighted(alloc, &mut phases, CostKind::PlusOne)?;
    Ok(phases)
}

fn lama(alloc: Global, unit_cost: bool) -> Result<Config, AllocError>
    ensures { IfOk result (λ config. config ≡ the_lama unit_cost) }
{
    let phases = lama_phases(alloc, unit_cost)?;
    Ok(Config {
        iterated: true,
        phases,
        repeat_last: true,
    })
}

fn lama_first(alloc: Global) -> Result<Config, AllocError>
    ensures { IfOk result (λ config. config ≡ the_first) }
{
    let phase = greedy(alloc, CostKind::One, CostKind::One)?;
    let phases = one_phase(alloc, phase)?;
    Ok(Config {
        iterated: false,
        phases,
        repeat_last: false,
    })
}

/// The configuration that is built in under a name, `lama` or `lama-first`, for tasks whose
/// operators all cost 1 or for others; `None` exactly for any other name.
///
/// Both are after Richter and Westphal, "The LAMA Planner: Guiding Cost-Based Anytime Planning with
/// Landmarks" (2010).
#[tactic(auto, using(crate::proofs::BuiltIn::alias_accepted))]
pub fn alias(alloc: Global, name: &str, unit_cost: bool) -> Result<Option<Config>, NoMemory>
    ensures exact { IfOk result (λ config. config ≡ alias_config name.now unit_cost) }
    ensures accepted { IfOk result (λ config. IfSome config IsConfig) }
{
    match name {
        "lama" => Ok(Some(lama(alloc, unit_cost)?)),
        "lama-first" => Ok(Some(lama_first(alloc)?)),
        _ => Ok(None),
    }
}
