// What a run searches by.
ghost use Rattle.std.specs.Prelude.{◌≡◌, IfOk};
ghost use Rattle.lama_num.specs.Gives.{Gives};
ghost use Rattle.conf_text.specs.Accepted.{IsConfig};
ghost use Rattle.conf_text.specs.Rules.{refusal};
ghost use Rattle.driver_run.specs.Seen.{seen_work};
ghost use Rattle.driver_run.specs.Requests.{chosen_of, config_for, is_many as many_test, IsChosen};

use crate::words::Work;
use conf_text::{AliasName, ConfError, Config, alias, read};
use lama_num::NoMemory;
use std::alloc::Global;

/// A configuration, or one that is built in, which depends on the task.
#[derive(Drop)]
pub enum Chosen {
    Alias(AliasName),
    Search(Config),
}

/// What a run searches by, and what a plan must cost less than.
#[derive(Drop)]
pub struct Aim {
    pub chosen: Chosen,
    pub bound: Option<u64>,
}

/// What a line asks for, with its configuration read.
pub fn choose(alloc: Global, work: Work<'_>) -> Result<Chosen, ConfError>
    ensures exact { Gives refusal (λ chosen. chosen) result (chosen_of (seen_work work.entry)) }
    ensures accepted { IfOk result IsChosen }
{
    match work {
        Work::Alias(name) => Ok(Chosen::Alias(name)),
        Work::Search(text) => match read(alloc, text) {
            Ok(config) => Ok(Chosen::Search(config)),
            Err(e) => Err(e),
        },
    }
}

/// The configuration of an alias.
fn built_in(alloc: Global, name: AliasName, unit_cost: bool) -> Result<Config, NoMemory>
    ensures exact { IfOk result (λ config. config ≡ config_for (Chosen.Alias name) unit_cost) }
    ensures accepted { IfOk result IsConfig }
{
    match alias(alloc, name.text(), unit_cost) {
        Ok(Some(config)) => Ok(config),
        Ok(None) => unreachable!(),
        Err(NoMemory) => Err(NoMemory),
    }
}

impl Chosen {
    /// Whether plan after plan is looked for, so that the plans are numbered.
    pub fn is_many(&self) -> bool
        ensures { result ≡ many_test self.now }
    {
        match self {
            Chosen::Alias(AliasName::Lama) => true,
            Chosen::Alias(AliasName::LamaFirst) => false,
            Chosen::Search(config) => config.iterated,
        }
    }

    /// The configuration, for a task whose operators all cost 1 or for another.
    pub fn into_config(self, alloc: Global, unit_cost: bool) -> Result<Config, NoMemory>
        requires { IsChosen self }
        ensures exact { IfOk result (λ config. config ≡ config_for self unit_cost) }
        ensures accepted { IfOk result IsConfig }
    {
        match self {
            Chosen::Alias(name) => built_in(alloc, name, unit_cost),
            Chosen::Search(config) => Ok(config),
        }
    }
}
