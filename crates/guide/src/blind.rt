// A guide that says nothing.
ghost use Rattle.std.specs.Prelude.{◌≡◌, false, []};

use crate::guide::Guide;
use crate::seen::Seen;
use lama_num::{NoMemory, Seq};
use sas_task::Task;
use std::alloc::Global;

/// A guide whose one estimate is 0 everywhere: no state is dead, and it prefers no operator.
#[derive(Clone, Copy)]
pub struct Blind;

impl Guide for Blind {
    ghost use Rattle.std.specs.Prelude.{◌≡◌, ◌∷◌, false, []};

    ghost guides = { λ _. 1 };

    ghost preferring = { λ _. false };

    ghost is_for = { λ _ _. Unit {0} };

    ghost keeps = { λ _ _ _. Unit {0} };

    ghost fits = { λ _ _ _ seen. (seen.dead ≡ false) × (seen.estimates ≡ 0 ∷ 0 ∷ 0 ∷ []) ×
        (seen.preferred ≡ []) };

    fn guides(&self) -> u32 {
        1
    }

    fn has_preferred(&self) -> bool {
        false
    }

    fn visit(
        &mut self,
        alloc: Global,
        _task: &Task,
        _parent: Option<u32>,
        _id: u32,
        _state: &[u32],
        _applicable: &[u32],
        out: &mut Seen,
    ) -> Result<(), NoMemory> {
        out.dead = false;
        out.estimates = [0; 3];
        out.preferred = Seq::new(alloc);
        Ok(())
    }
}
