// Making the guide of a phase.
ghost use Rattle.std.specs.Prelude.{◌≡◌, [], true, IsTrue, IfOk, OnOk};
ghost use Rattle.conf_text.specs.Accepted.{IsPhase};
ghost use Rattle.conf_text.specs.Grammar.{has_guide};
ghost use Rattle.conf_text.specs.declared.config.GuideKind.{GuideKind as TheGuide};
ghost use Rattle.phase_guide.specs.Guides.{IsFor};
ghost use Rattle.phase_guide.specs.Landmarks.{IsLandmarkGraph, AreLandmarksFor};
ghost use Rattle.phase_guide.specs.Relaxings.{IsRelaxingFor, Serves};

use crate::guiding::PhaseGuide;
use crate::kinds::{has, is_same_cost};
use crate::relaxing::Relaxing;
use conf_text::{GuideKind, Phase};
use h_add::Add;
use h_ff::Ff;
use lama_num::{Duplicate, NoMemory};
use lm_backchain::landmarks;
use lm_graph::Graph;
use lm_orders::add_reasonable;
use lm_status::Status;
use lm_tracks::Tracks;
use sas_task::Task;
use std::alloc::Global;
use std::mem::replace;

/// The landmarks of a task by backchaining, with reasonable orders added.
fn landmark_graph(alloc: Global, task: &Task) -> Result<Graph, NoMemory>
    ensures { IfOk result (IsLandmarkGraph task.now) }
{
    let mut graph = landmarks(alloc, task)?;
    add_reasonable(alloc, task, &mut graph)?;
    Ok(graph)
}

/// The rows of a phase's landmarks: of none where the phase doesn't go by them.
fn tracks_for(alloc: Global, task: &Task, phase: &Phase) -> Result<Tracks, NoMemory>
    ensures landmarks { IfOk result (λ tracks. AreLandmarksFor task.now phase.now tracks.status) }
    ensures rows { IfOk result (λ tracks. tracks.rows ≡ []) }
{
    let graph = if has(&phase.guides, GuideKind::Lm) {
        landmark_graph(alloc, task)?
    } else {
        Graph::new(alloc)
    };
    let status = Status::new(alloc, task, graph, phase.estimate)?;
    Tracks::new(alloc, status)
}

/// What a phase takes from the relaxation.
fn new_relaxing(alloc: Global, task: &Task, phase: &Phase) -> Result<Relaxing, NoMemory>
    ensures { IfOk result (Serves task.now phase.now) }
{
    if has(&phase.guides, GuideKind::Ff) {
        Ok(Relaxing::Planning(Ff::new(alloc, task, phase.estimate)?))
    } else if has(&phase.guides, GuideKind::Add) {
        Ok(Relaxing::Additive(Add::new(alloc, task, phase.estimate)?))
    } else {
        Ok(Relaxing::Nothing)
    }
}

/// Whether the landmarks of the phase before serve a phase.
fn has_landmarks_for(phase: &Phase, had: &Phase) -> bool
    ensures { IsTrue result → has_guide phase.now.guides TheGuide.Lm ≡ true →
        has_guide had.now.guides TheGuide.Lm ≡ true }
{
    !has(&phase.guides, GuideKind::Lm) || has(&had.guides, GuideKind::Lm)
}

/// Makes the rows of the phase before those of a phase.
fn renew_tracks(
    alloc: Global,
    task: &Task,
    phase: &Phase,
    had: &Phase,
    tracks: &mut Tracks,
) -> Result<(), NoMemory>
    requires { AreLandmarksFor task.now had.now tracks.old.status }
    ensures landmarks { OnOk result (AreLandmarksFor task.now phase.now tracks.new.status) }
    ensures rows { OnOk result (tracks.new.rows ≡ []) }
{
    if has_landmarks_for(phase, had) {
        tracks.restart(task, phase.estimate);
    } else {
        release_tracks(replace(tracks, tracks_for(alloc, task, phase)?));
    }
    Ok(())
}

/// Makes what the phase before took from the relaxation what a phase takes.
fn renew_relaxing(
    alloc: Global,
    task: &Task,
    phase: &Phase,
    had: &Phase,
    relaxing: &mut Relaxing,
) -> Result<(), NoMemory>
    requires { IsRelaxingFor task.now had.now.estimate relaxing.old }
    ensures { OnOk result (Serves task.now phase.now relaxing.new) }
{
    if !is_same_cost(had.estimate, phase.estimate) || !relaxing.serves(phase) {
        release_relaxing(replace(relaxing, new_relaxing(alloc, task, phase)?));
    }
    Ok(())
}

/// The guide of a phase of a task: the estimates of the phase's guides, in their order, and the
/// operators that its preferred guides prefer. Nothing is kept in it yet.
///
/// The graph of landmarks and the tables of the relaxation are made here, as far as the phase goes
/// by them; a visit takes no other memory than that of the rows that it keeps and of the list that
/// it fills.
pub fn guide(alloc: Global, task: &Task, phase: &Phase) -> Result<PhaseGuide, NoMemory>
    requires { IsPhase phase.now }
    ensures phase { IfOk result (λ guide. guide.phase ≡ phase.now) }
    ensures task { IfOk result (λ guide. IsFor guide task.now) }
    ensures rows { IfOk result (λ guide. guide.tracks.rows ≡ []) }
{
    let phase_of_guide = phase.duplicate(alloc)?;
    let relaxing = new_relaxing(alloc, task, phase)?;
    match tracks_for(alloc, task, phase) {
        Ok(tracks) => Ok(PhaseGuide {
            phase: phase_of_guide,
            relaxing,
            tracks,
        }),
        Err(e) => {
            release_relaxing(relaxing);
            Err(e)
        }
    }
}

impl PhaseGuide {
    /// Makes it the guide of another phase of its task. The graph of landmarks stays, and where
    /// estimates are by the same kind of cost the tables of the relaxation; nothing else is kept.
    ///
    /// After want of memory nothing is said of the guide.
    pub fn switch_to_phase(
        &mut self,
        alloc: Global,
        task: &Task,
        phase: &Phase,
    ) -> Result<(), NoMemory>
        requires phase { IsPhase phase.now }
        requires task { IsFor self.old task.now }
        ensures phase { OnOk result (self.new.phase ≡ phase.now) }
        ensures task { OnOk result (IsFor self.new task.now) }
        ensures rows { OnOk result (self.new.tracks.rows ≡ []) }
    {
        let phase_of_guide = phase.duplicate(alloc)?;
        renew_relaxing(alloc, task, phase, &self.phase, &mut self.relaxing)?;
        renew_tracks(alloc, task, phase, &self.phase, &mut self.tracks)?;
        self.phase = phase_of_guide;
        Ok(())
    }

    /// Gives back its memory, part by part. A caller that drops a guide whole has much to prove.
    pub fn release(self) {
        let PhaseGuide {
            phase: _,
            relaxing,
            tracks,
        } = self;
        release_relaxing(relaxing);
        release_tracks(tracks);
    }
}

fn release_relaxing(relaxing: Relaxing) {
    match relaxing {
        Relaxing::Nothing => {}
        Relaxing::Additive(add) => release_add(add),
        Relaxing::Planning(ff) => release_ff(ff),
    }
}

fn release_add(_add: Add) {}

fn release_ff(_ff: Ff) {}

fn release_tracks(_tracks: Tracks) {}
