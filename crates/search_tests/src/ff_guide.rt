// A guide that gives FF and prefers no operators.
ghost use Rattle.std.specs.Prelude.{◌≡◌, IfOk, [], false};
ghost use Rattle.relaxed_task.specs.Relaxations.{IsRelaxed};

use guide::{Guide, Seen};
use h_ff::Ff;
use lama_num::{Estimate, NoMemory, Seq};
use sas_task::{CostKind, Task};
use std::alloc::Global;

/// FF, without its preferred operators.
#[derive(Drop)]
pub struct FfGuide {
    ff: Ff,
}

impl FfGuide {
    pub fn new(alloc: Global, task: &Task, kind: CostKind) -> Result<FfGuide, NoMemory>
        ensures { IfOk result (λ guide. IsRelaxed task.now guide.ff.kind guide.ff.relaxed) }
    {
        let ff = Ff::new(alloc, task, kind)?;
        Ok(FfGuide { ff })
    }
}

impl Guide for FfGuide {
    ghost use Rattle.std.specs.Prelude.{false};
    ghost use Rattle.relaxed_task.specs.Relaxations.{IsRelaxed};

    ghost guides = { λ _. 1 };

    ghost preferring = { λ _. false };

    ghost is_for = { λ g parts. IsRelaxed parts g.ff.kind g.ff.relaxed };

    ghost keeps = { λ _ _ _. Unit {0} };

    ghost fits = { λ _ _ _ _. Unit {0} };

    fn guides(&self) -> u32 {
        let _ff = &self.ff;
        1
    }

    fn has_preferred(&self) -> bool {
        let _ff = &self.ff;
        false
    }

    fn visit(
        &mut self,
        alloc: Global,
        task: &Task,
        _parent: Option<u32>,
        _id: u32,
        state: &[u32],
        _applicable: &[u32],
        out: &mut Seen,
    ) -> Result<(), NoMemory> {
        out.preferred = Seq::new(alloc);
        match self.ff.evaluate(task, state) {
            Estimate::Finite(estimate) => {
                out.dead = false;
                out.estimates = [estimate, 0, 0];
            }
            Estimate::Infinite => {
                out.dead = true;
                out.estimates = [0; 3];
            }
        }
        Ok(())
    }
}
