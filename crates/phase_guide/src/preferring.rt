// Which applicable operators are preferred.
ghost use Rattle.std.specs.Prelude.{◌≡◌, ◌++◌, ◌∷◌, ◌&&◌, ◌||◌, [], filter, drop, OnOk};
ghost use Rattle.std.specs.Prelude.{if◌then◌else◌};
ghost use Rattle.guide.specs.Operators.{is_among};
ghost use Rattle.lm_status.specs.Preferred.{leads_on};
ghost use Rattle.bit_rows.specs.Rows.{has};
ghost use Rattle.phase_guide.specs.Kinds.{is_first};

use lama_num::NoMemory;
use lm_tracks::Tracks;
use sas_task::Task;

/// Whether a list begins with an operator.
fn begins(ops: &[u32], op: u32) -> bool
    ensures { result ≡ is_first ops.now op }
{
    match ops.first() {
        Some(first) => *first == op,
        None => false,
    }
}

/// What is behind an operator, if a list begins with it.
fn behind(ops: &[u32], op: u32) -> &[u32]
    ensures { result.now ≡ (if is_first ops.now op then drop 1 ops.now else ops.now) }
{
    if begins(ops, op) { &ops[1..] } else { ops }
}

/// Whether landmarks prefer an operator, if they are to.
fn is_landmark(tracks: &Tracks, by_lm: bool, task: &Task, state: &[u32], op: u32) -> bool
    ensures { result ≡ (by_lm &&
        leads_on task.now tracks.now.status.graph (has tracks.now.row) state.now op) }
{
    by_lm && tracks.leads_on(task, state, op)
}

/// Whether an operator is the next helpful one, or landmarks prefer it, if they are to.
fn is_preferred(
    tracks: &Tracks,
    by_lm: bool,
    helpful: &[u32],
    task: &Task,
    state: &[u32],
    op: u32,
) -> bool
    ensures { result ≡ (is_first helpful.now op || (by_lm &&
        leads_on task.now tracks.now.status.graph (has tracks.now.row) state.now op)) }
{
    begins(helpful, op) || is_landmark(tracks, by_lm, task, state, op)
}

fn push_if(ops: &mut Vec<u32>, op: u32, wanted: bool) -> Result<(), NoMemory>
    ensures { OnOk result
        (ops.new.items ≡ (if wanted then ops.old.items ++ op ∷ [] else ops.old.items)) }
{
    if wanted {
        ops.push(op)?;
    }
    Ok(())
}

/// Adds the applicable operators that are helpful, or that landmarks prefer, if they are to. Both
/// lists ascend, so they are gone through side by side.
pub(crate) fn prefer_into(
    tracks: &Tracks,
    by_lm: bool,
    helpful: &[u32],
    task: &Task,
    state: &[u32],
    applicable: &[u32],
    ops: &mut Vec<u32>,
) -> Result<(), NoMemory>
    requires empty { ops.old.items ≡ [] }
    requires helpful { helpful.now ≡ filter (is_among helpful.now) applicable.now }
    ensures { OnOk result (ops.new.items ≡ filter (λ op. is_among helpful.now op || (by_lm &&
        leads_on task.now tracks.now.status.graph (has tracks.now.row) state.now op))
        applicable.now) }
{
    let mut rest = helpful;
    for op in applicable {
        push_if(
            ops,
            *op,
            is_preferred(tracks, by_lm, rest, task, state, *op),
        )?;
        rest = behind(rest, *op);
    }
    Ok(())
}
