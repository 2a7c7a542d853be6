// Copies of configurations.
use crate::config::{Config, GuideKind, Phase};
use lama_num::{Duplicate, Seq};
use std::alloc::{AllocError, Global};

impl Duplicate for GuideKind {
    fn duplicate(&self, _alloc: Global) -> Result<Self, AllocError> {
        Ok(*self)
    }
}

impl Duplicate for Phase {
    fn duplicate(&self, alloc: Global) -> Result<Self, AllocError> {
        let guides = self.guides.duplicate(alloc)?;
        let preferred = self.preferred.duplicate(alloc)?;
        Ok(Phase {
            guides,
            preferred,
            cost: self.cost,
            estimate: self.estimate,
            weight: self.weight,
            reopen: self.reopen,
            boost: self.boost,
            most_pops: self.most_pops,
            most_states: self.most_states,
        })
    }
}

impl Duplicate for Config {
    fn duplicate(&self, alloc: Global) -> Result<Self, AllocError> {
        let phases = self.phases.duplicate(alloc)?;
        Ok(Config {
            iterated: self.iterated,
            phases,
            repeat_last: self.repeat_last,
        })
    }
}
