// The options of a phase.
ghost use Rattle.std.specs.Prelude.{◌≡◌, codes};
ghost use Rattle.lama_num.specs.Gives.{Gives};
ghost use Rattle.conf_text.specs.Grammar.{option_of as the_option, is_given as given_test};
ghost use Rattle.conf_text.specs.Grammar.{option_name as the_name, value as the_value};
ghost use Rattle.conf_text.specs.Grammar.{next_option as the_next, no_options};
ghost use Rattle.conf_text.specs.Grammar.{options as the_options};
ghost use Rattle.conf_text.specs.Grammar.{phase_of};
ghost use Rattle.conf_text.specs.Rules.{member_and_more, members, refusal};

use crate::config::{
    GuideKind, HIGHEST_BOOST, HIGHEST_WEIGHT, MOST_POPS, MOST_STATES, Phase, USUAL_BOOST,
};
use crate::faults::{ConfBad, ConfError, ConfKind};
use crate::guides::read_preferred;
use crate::tokens::{Cursor, Token, another, fixed};
use crate::values::{read_cost_kind, read_number, read_short, read_truth};
use lama_num::Seq;
use sas_task::CostKind;
use std::alloc::Global;

/// There are eight options, so a phase has at most so many.
const TURNS: u64 = 9;

/// An option by its name.
#[derive(Clone, Copy)]
pub enum OptionName {
    Preferred,
    CostType,
    Estimate,
    Weight,
    Reopen,
    Boost,
    MostPops,
    MostStates,
}

/// The options that a phase gives.
#[derive(Drop)]
pub struct Options {
    pub preferred: Option<Seq<GuideKind>>,
    pub cost: Option<CostKind>,
    pub estimate: Option<CostKind>,
    pub weight: Option<u32>,
    pub reopen: Option<bool>,
    pub boost: Option<u32>,
    pub most_pops: Option<u64>,
    pub most_states: Option<u32>,
}

impl Options {
    fn new() -> Options
        ensures { result ≡ no_options }
    {
        Options {
            preferred: None,
            cost: None,
            estimate: None,
            weight: None,
            reopen: None,
            boost: None,
            most_pops: None,
            most_states: None,
        }
    }

    fn is_given(&self, name: OptionName) -> bool
        ensures { result ≡ given_test self.now name }
    {
        match name {
            OptionName::Preferred => self.preferred.is_some(),
            OptionName::CostType => self.cost.is_some(),
            OptionName::Estimate => self.estimate.is_some(),
            OptionName::Weight => self.weight.is_some(),
            OptionName::Reopen => self.reopen.is_some(),
            OptionName::Boost => self.boost.is_some(),
            OptionName::MostPops => self.most_pops.is_some(),
            OptionName::MostStates => self.most_states.is_some(),
        }
    }

    /// The phase with these options; those that aren't given have their defaults.
    pub fn into_phase(self, alloc: Global, weighted: bool, guides: Seq<GuideKind>) -> Phase
        ensures { result ≡ phase_of weighted guides self }
    {
        let Options {
            preferred,
            cost,
            estimate,
            weight,
            reopen,
            boost,
            most_pops,
            most_states,
        } = self;
        Phase {
            guides,
            preferred: preferred.unwrap_or(Seq::new(alloc)),
            cost: cost.unwrap_or(CostKind::Normal),
            estimate: estimate.unwrap_or(CostKind::Normal),
            weight: if weighted {
                Some(weight.unwrap_or(1))
            } else {
                None
            },
            reopen: reopen.unwrap_or(weighted),
            boost: boost.unwrap_or(USUAL_BOOST),
            most_pops: most_pops.unwrap_or(MOST_POPS),
            most_states: most_states.unwrap_or(MOST_STATES as u32),
        }
    }
}

/// The option that a token names; a weight is an option of weighted searches alone.
fn option_of(weighted: bool, token: &Token) -> Option<OptionName>
    ensures { result ≡ the_option weighted
        (record { place = token.now.place; text = token.now.text.now }) }
{
    if token.is("preferred") {
        Some(OptionName::Preferred)
    } else if token.is("cost_type") {
        Some(OptionName::CostType)
    } else if token.is("estimate") {
        Some(OptionName::Estimate)
    } else if token.is("w") && weighted {
        Some(OptionName::Weight)
    } else if token.is("reopen_closed") {
        Some(OptionName::Reopen)
    } else if token.is("boost") {
        Some(OptionName::Boost)
    } else if token.is("max_pops") {
        Some(OptionName::MostPops)
    } else if token.is("max_states") {
        Some(OptionName::MostStates)
    } else {
        None
    }
}

/// The option that a token names, where it wasn't given yet.
fn option_name(weighted: bool, options: &Options, token: &Token) -> Result<OptionName, ConfBad>
    ensures { result ≡ the_name weighted options.now
        (record { place = token.now.place; text = token.now.text.now }) }
{
    if !token.is_word() {
        return Err(token.refused(ConfKind::Unexpected));
    }
    match option_of(weighted, token) {
        None => Err(token.refused(ConfKind::UnknownOption)),
        Some(name) if options.is_given(name) => Err(token.refused(ConfKind::TwiceOption)),
        Some(name) => Ok(name),
    }
}

/// The value of an option.
fn read_value(
    alloc: Global,
    guides: &[GuideKind],
    name: OptionName,
    options: &mut Options,
    cursor: &mut Cursor,
) -> Result<(), ConfError>
    ensures { Gives refusal (λ _. (options.new, cursor.new)) result
        (the_value guides.now options.old name cursor.old) }
{
    match name {
        OptionName::Preferred => {
            options.preferred = Some(read_preferred(alloc, guides, cursor)?);
            Ok(())
        }
        OptionName::CostType => {
            options.cost = Some(read_cost_kind(cursor)?);
            Ok(())
        }
        OptionName::Estimate => {
            options.estimate = Some(read_cost_kind(cursor)?);
            Ok(())
        }
        OptionName::Weight => {
            options.weight = Some(read_short(cursor, 1, HIGHEST_WEIGHT)?);
            Ok(())
        }
        OptionName::Reopen => {
            options.reopen = Some(read_truth(cursor)?);
            Ok(())
        }
        OptionName::Boost => {
            options.boost = Some(read_short(cursor, 0, HIGHEST_BOOST)?);
            Ok(())
        }
        OptionName::MostPops => {
            options.most_pops = Some(read_number(cursor, 0, MOST_POPS)?);
            Ok(())
        }
        OptionName::MostStates => {
            options.most_states = Some(read_short(cursor, 1, MOST_STATES)?);
            Ok(())
        }
    }
}

/// One more option.
#[tactic(auto, unfolding(crate::specs::Grammar::next_option))]
fn read_option(
    alloc: Global,
    weighted: bool,
    guides: &[GuideKind],
    options: &mut Options,
    cursor: &mut Cursor,
) -> Result<(), ConfError>
    ensures { Gives refusal (λ _. (options.new, cursor.new)) result
        (the_next weighted guides.now options.old cursor.old) }
{
    let token = cursor.next_token();
    let name = option_name(weighted, options, &token)?;
    fixed(cursor, "=")?;
    read_value(alloc, guides, name, options, cursor)
}

/// One more option, and whether another follows.
fn option_and_more(
    alloc: Global,
    weighted: bool,
    guides: &[GuideKind],
    options: &mut Options,
    cursor: &mut Cursor,
) -> Result<bool, ConfError>
    ensures { Gives refusal (λ more. ((options.new, more), cursor.new)) result
        (member_and_more (codes ")") (the_next weighted guides.now) options.old cursor.old) }
{
    read_option(alloc, weighted, guides, options, cursor)?;
    let more = another(cursor, ")")?;
    Ok(more)
}

/// Options up to the end of the phase.
#[tactic(auto, using(crate::proofs::Turns::turns))]
fn options_behind(
    alloc: Global,
    weighted: bool,
    guides: &[GuideKind],
    cursor: &mut Cursor,
) -> Result<Options, ConfError>
    ensures { Gives refusal (λ options. (options, cursor.new)) result
        (members (codes ")") (the_next weighted guides.now) 9 no_options cursor.old) }
{
    let mut options = Options::new();
    for _turn in 0..TURNS {
        match option_and_more(alloc, weighted, guides, &mut options, cursor) {
            Ok(true) => {}
            Ok(false) => return Ok(options),
            Err(e) => return Err(e),
        }
    }
    Ok(options)
}

/// The options behind a phase's guides, if there are any.
#[tactic(auto, unfolding(crate::specs::Grammar::options))]
pub fn read_options(
    alloc: Global,
    weighted: bool,
    guides: &[GuideKind],
    cursor: &mut Cursor,
) -> Result<Options, ConfError>
    ensures { Gives refusal (λ options. (options, cursor.new)) result
        (the_options weighted guides.now cursor.old) }
{
    if another(cursor, ")")? {
        options_behind(alloc, weighted, guides, cursor)
    } else {
        Ok(Options::new())
    }
}
