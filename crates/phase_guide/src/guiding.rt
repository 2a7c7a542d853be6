// The guide of a phase.
ghost use Rattle.std.specs.Prelude.{◌≡◌, ◌≤◌, length};

use crate::answers::{emptied, fill_answer};
use crate::kinds::{Values, estimates, has};
use crate::preferring::prefer_into;
use crate::relaxing::{RelaxedCosts, Relaxing};
use conf_text::{GuideKind, Phase};
use guide::{Guide, Seen};
use lama_num::NoMemory;
use lm_tracks::Tracks;
use sas_task::Task;
use std::alloc::Global;
use std::marker::Model;

/// The guide of one phase of a configuration, as `guide` makes it.
///
/// A visit evaluates the relaxation at most once, and keeps for the state's number the row of the
/// landmarks that are accepted on the way to it.
#[derive(Drop)]
pub struct PhaseGuide {
    pub(crate) phase: Phase,
    pub(crate) relaxing: Relaxing,
    /// By a graph without a node where the phase doesn't go by landmarks.
    pub(crate) tracks: Tracks,
}

impl Model for PhaseGuide {
    ghost use Rattle.phase_guide.specs.Kinds.{HasFew};
    ghost use Rattle.phase_guide.specs.Guides.{Guiding};

    ghost Value = { Guiding };

    ghost view = { λ g. record { phase = g.phase; relaxing = g.relaxing; tracks = g.tracks } };

    ghost invariant = { λ g. HasFew g.phase.guides };
}

impl PhaseGuide {
    ghost use Rattle.std.specs.Prelude.{OnOk, Option};
    ghost use Rattle.guide.specs.Operators.{applicable_operators};
    ghost use Rattle.bit_rows.specs.Rows.{has as has_bit};
    ghost use Rattle.phase_guide.specs.Relaxings.{Tells};
    ghost use Rattle.phase_guide.specs.Fits.{Answers};
    ghost use Rattle.phase_guide.specs.Guides.{IsFor};

    /// Says what was found of a state, whose row was made last.
    fn answer_into(
        &self,
        alloc: Global,
        task: &Task,
        found: Option<RelaxedCosts>,
        state: &[u32],
        applicable: &[u32],
        out: &mut Seen,
    ) -> Result<(), NoMemory>
        requires task { IsFor self.now task.now }
        requires found { Tells task.now self.now.phase.estimate state.now self.now.relaxing found }
        requires applicable { applicable.now ≡ applicable_operators task.now state.now }
        ensures { OnOk result (Answers task.now self.now.phase self.now.tracks.status.graph
            (has_bit self.now.tracks.row) state.now out.new) }
    {
        let mut preferred = emptied(alloc, out);
        let Some(costs) = found else {
            fill_answer(out, true, [0; 3], preferred);
            return Ok(());
        };
        let by_ff = has(&self.phase.preferred, GuideKind::Ff);
        let by_lm = has(&self.phase.preferred, GuideKind::Lm);
        let helpful = self.relaxing.helpful_if(by_ff);
        prefer_into(
            &self.tracks,
            by_lm,
            helpful,
            task,
            state,
            applicable,
            &mut preferred,
        )?;
        let values = Values {
            add: costs.add,
            ff: costs.ff,
            lm: self.tracks.estimate(state),
        };
        fill_answer(out, false, estimates(&self.phase.guides, values), preferred);
        Ok(())
    }
}

impl Guide for PhaseGuide {
    ghost use Rattle.std.specs.Prelude.{length, nat_lt};
    ghost use Rattle.lm_tracks.specs.Tracks.{Keeps};
    ghost use Rattle.phase_guide.specs.Fits.{Fits};
    ghost use Rattle.phase_guide.specs.Guides.{IsFor};

    ghost guides = { λ g. length g.phase.guides };

    ghost preferring = { λ g. nat_lt 0 (length g.phase.preferred) };

    ghost is_for = { λ g parts. IsFor g parts };

    ghost keeps = { λ g n states. Keeps g.tracks n states };

    ghost fits = { λ g parts states seen. Fits parts g.phase g.tracks.status.graph states seen };

    fn guides(&self) -> u32 {
        self.phase.guides.len() as u32
    }

    fn has_preferred(&self) -> bool {
        0 < self.phase.preferred.len()
    }

    fn visit(
        &mut self,
        alloc: Global,
        task: &Task,
        parent: Option<u32>,
        id: u32,
        state: &[u32],
        applicable: &[u32],
        out: &mut Seen,
    ) -> Result<(), NoMemory> {
        self.tracks.advance(parent, id, state)?;
        let found = self.relaxing.evaluate(task, state);
        self.answer_into(alloc, task, found, state, applicable, out)
    }
}
