// The canonical text of a configuration.
ghost use Rattle.std.specs.Prelude.{◌≡◌, ◌++◌, codes, decimal, IfOk, OnOk};
ghost use Rattle.std.specs.Prelude.{is_some, length, nat_eq, string_bytes, unwrap_or, Ok as TheOk};
ghost use Rattle.conf_text.specs.Accepted.{IsConfig};
ghost use Rattle.conf_text.specs.Grammar.{config_of, usual_boost, greatest_pops, greatest_states};
ghost use Rattle.conf_text.specs.Written.{guide_text, guides_text, kind_text as the_kind};
ghost use Rattle.conf_text.specs.Written.{truth_text as the_truth, same_truth};
ghost use Rattle.sas_task.specs.Costs.{is_normal};
ghost use Rattle.conf_text.specs.Written.{option_text, kind_option, number_option, options_text};
ghost use Rattle.conf_text.specs.Written.{search_text, phase_text, phases_text, repeat_text};
ghost use Rattle.conf_text.specs.Written.{behind_commas, config_text};

use crate::config::{Config, GuideKind, MOST_POPS, MOST_STATES, Phase, USUAL_BOOST};
use itoa::Buffer;
use lama_num::{NoMemory, Seq};
use sas_task::CostKind;
use std::alloc::{AllocError, Global};

fn guide_name(guide: GuideKind) -> &'static str
    ensures { result.now ≡ guide_text guide }
{
    match guide {
        GuideKind::Add => "add()",
        GuideKind::Ff => "ff()",
        GuideKind::Lm => "lm()",
    }
}

/// Guides, each behind a comma.
#[tactic(auto, using(crate::proofs::Commas::guides_more))]
fn push_more_guides(text: &mut String, guides: &[GuideKind]) -> Result<(), AllocError>
    ensures { OnOk result (string_bytes text.new
        ≡ string_bytes text.old ++ behind_commas guide_text guides.now) }
{
    for guide in guides {
        text.push_str(",")?;
        text.push_str(guide_name(*guide))?;
    }
    Ok(())
}

fn push_guides(text: &mut String, guides: &[GuideKind]) -> Result<(), AllocError>
    ensures { OnOk result (string_bytes text.new
        ≡ string_bytes text.old ++ guides_text guides.now) }
{
    text.push_str("[")?;
    if let Some((first, rest)) = guides.split_first() {
        text.push_str(guide_name(*first))?;
        push_more_guides(text, rest)?;
    }
    text.push_str("]")
}

/// The name of an option, behind a comma and in front of its value.
fn push_name(text: &mut String, name: &str) -> Result<(), AllocError>
    ensures { OnOk result (string_bytes text.new
        ≡ string_bytes text.old ++ codes "," ++ name.now ++ codes "=") }
{
    text.push_str(",")?;
    text.push_str(name)?;
    text.push_str("=")
}

fn push_preferred(text: &mut String, preferred: &Seq<GuideKind>) -> Result<(), AllocError>
    ensures { OnOk result (string_bytes text.new
        ≡ string_bytes text.old ++ option_text (nat_eq (length preferred.now) 0)
        (codes "preferred") (guides_text preferred.now)) }
{
    if preferred.is_empty() {
        return Ok(());
    }
    push_name(text, "preferred")?;
    push_guides(text, preferred)
}

fn kind_name(kind: CostKind) -> &'static str
    ensures { result.now ≡ the_kind kind }
{
    match kind {
        CostKind::Normal => "normal",
        CostKind::One => "one",
        CostKind::PlusOne => "plusone",
    }
}

fn push_kind(text: &mut String, name: &str, kind: CostKind) -> Result<(), AllocError>
    ensures { OnOk result (string_bytes text.new
        ≡ string_bytes text.old ++ kind_option name.now kind) }
{
    if let CostKind::Normal = kind {
        return Ok(());
    }
    push_name(text, name)?;
    text.push_str(kind_name(kind))
}

fn truth_name(truth: bool) -> &'static str
    ensures { result.now ≡ the_truth truth }
{
    if truth { "true" } else { "false" }
}

fn push_reopen(text: &mut String, reopen: bool, weight: Option<u32>) -> Result<(), AllocError>
    ensures { OnOk result (string_bytes text.new
        ≡ string_bytes text.old ++ option_text (same_truth reopen (is_some weight))
        (codes "reopen_closed") (the_truth reopen)) }
{
    if reopen == weight.is_some() {
        return Ok(());
    }
    push_name(text, "reopen_closed")?;
    text.push_str(truth_name(reopen))
}

/// A number, where it isn't the usual one.
fn push_number(text: &mut String, name: &str, usual: u64, number: u64) -> Result<(), AllocError>
    ensures { OnOk result (string_bytes text.new
        ≡ string_bytes text.old ++ number_option name.now usual number) }
{
    if number == usual {
        return Ok(());
    }
    let mut buffer = Buffer::new();
    push_name(text, name)?;
    text.push_str(buffer.format(number))
}

fn push_short(text: &mut String, name: &str, usual: u32, number: u32) -> Result<(), AllocError>
    ensures { OnOk result (string_bytes text.new
        ≡ string_bytes text.old ++ number_option name.now usual number) }
{
    push_number(text, name, u64::from(usual), u64::from(number))
}

fn push_weight(text: &mut String, weight: Option<u32>) -> Result<(), AllocError>
    ensures { OnOk result (string_bytes text.new
        ≡ string_bytes text.old ++ number_option (codes "w") 1 (unwrap_or weight 1)) }
{
    match weight {
        None => Ok(()),
        Some(weight) => push_short(text, "w", 1, weight),
    }
}

/// The options that haven't their defaults.
fn push_options(text: &mut String, phase: &Phase) -> Result<(), AllocError>
    ensures { OnOk result (string_bytes text.new
        ≡ string_bytes text.old ++ options_text phase.now) }
{
    push_preferred(text, &phase.preferred)?;
    push_kind(text, "cost_type", phase.cost)?;
    push_kind(text, "estimate", phase.estimate)?;
    push_weight(text, phase.weight)?;
    push_reopen(text, phase.reopen, phase.weight)?;
    push_short(text, "boost", USUAL_BOOST, phase.boost)?;
    push_number(text, "max_pops", MOST_POPS, phase.most_pops)?;
    push_short(text, "max_states", MOST_STATES as u32, phase.most_states)?;
    Ok(())
}

fn search_name(weighted: bool) -> &'static str
    ensures { result.now ≡ search_text weighted }
{
    if weighted {
        "lazy_wastar"
    } else {
        "lazy_greedy"
    }
}

#[tactic(auto, unfolding(crate::specs::Written::phase_text))]
fn push_phase(text: &mut String, phase: &Phase) -> Result<(), AllocError>
    ensures { OnOk result (string_bytes text.new
        ≡ string_bytes text.old ++ phase_text phase.now) }
{
    text.push_str(search_name(phase.weight.is_some()))?;
    text.push_str("(")?;
    push_guides(text, &phase.guides)?;
    push_options(text, phase)?;
    text.push_str(")")
}

/// Phases, each behind a comma.
#[tactic(auto, using(crate::proofs::Commas::phases_more))]
fn push_more_phases(text: &mut String, phases: &[Phase]) -> Result<(), AllocError>
    ensures { OnOk result (string_bytes text.new
        ≡ string_bytes text.old ++ behind_commas phase_text phases.now) }
{
    for phase in phases {
        text.push_str(",")?;
        push_phase(text, phase)?;
    }
    Ok(())
}

fn push_phases(text: &mut String, phases: &[Phase]) -> Result<(), AllocError>
    ensures { OnOk result (string_bytes text.new
        ≡ string_bytes text.old ++ phases_text phases.now) }
{
    let Some((first, rest)) = phases.split_first() else {
        return Ok(());
    };
    push_phase(text, first)?;
    push_more_phases(text, rest)
}

fn repeat_name(repeat_last: bool) -> &'static str
    ensures { result.now ≡ repeat_text repeat_last }
{
    if repeat_last {
        ",repeat_last=true)"
    } else {
        ")"
    }
}

#[tactic(auto, unfolding(crate::specs::Written::config_text))]
fn push_config(text: &mut String, config: &Config) -> Result<(), AllocError>
    ensures { OnOk result (string_bytes text.new
        ≡ string_bytes text.old ++ config_text config.now) }
{
    if !config.iterated {
        return push_phases(text, &config.phases);
    }
    text.push_str("iterated([")?;
    push_phases(text, &config.phases)?;
    text.push_str("]")?;
    text.push_str(repeat_name(config.repeat_last))
}

/// The canonical text of a configuration: without blanks, each phase with its guides and the
/// options that haven't their defaults.
///
/// It is read back as the same configuration.
#[tactic(auto, using(crate::proofs::ReadingBack::read_back))]
pub fn write(alloc: Global, config: &Config) -> Result<String, NoMemory>
    ensures text { IfOk result (λ text. string_bytes text ≡ config_text config.now) }
    ensures read_back { IfOk result (λ text.
        IsConfig config.now → config_of (string_bytes text) ≡ TheOk config.now) }
{
    let mut text = String::new(alloc);
    push_config(&mut text, config)?;
    Ok(text)
}
