// Which landmarks are accepted along the paths to the states of a search.
ghost use Rattle.std.specs.Prelude.{◌≡◌, ◌≢◌, ◌++◌, ◌∷◌, [], ℕ, List, length, IfOk, OnOk};
ghost use Rattle.std.specs.Prelude.{None, Some};
ghost use Rattle.lm_status.specs.Estimates.{landmark_estimate};
ghost use Rattle.lm_status.specs.Preferred.{leads_on as op_leads_on};
ghost use Rattle.lm_status.specs.Rows.{StandsFor, words_of};
ghost use Rattle.bit_rows.specs.Rows.{has};
ghost use Rattle.lm_status.specs.Statuses.{IsStatusOf};
ghost use Rattle.lm_tracks.specs.Rows.{row_in, IsThere};
ghost use Rattle.lm_tracks.specs.Tracks.{Keeps};

use crate::rows::{row_of, store};
use lama_num::NoMemory;
use lm_status::Status;
use sas_task::{CostKind, Task};
use std::alloc::Global;
use std::marker::Model;

/// Which landmarks are accepted along the path to each state of a search, by the state's number.
///
/// The rows lie in one vector, one after the other, so that a state that is visited takes no other
/// memory than its row.
#[derive(Drop)]
pub struct Tracks {
    status: Status,
    rows: Vec<u64>,
    /// The row that was made last.
    row: Vec<u64>,
}

impl Model for Tracks {
    ghost use Rattle.std.specs.Prelude.{◌≡◌, ◌≤◌, length};
    ghost use Rattle.lm_status.specs.Rows.{words_of};
    ghost use Rattle.lm_tracks.specs.Tracks.{Tracked};

    ghost Value = { Tracked };

    ghost view = { λ t. record {
      status = t.status;
      rows = t.rows.items;
      row = t.row.items;
    } };

    ghost invariant = { λ t. (length t.row.items ≡ words_of t.status.graph) ×
        (words_of t.status.graph ≤ 1024) };
}

/// Makes the row of a path that goes on by a state, or of one that begins there where nothing is
/// kept for a parent.
fn make_row(status: &Status, rows: &[u64], parent: Option<u32>, state: &[u32], row: &mut [u64])
    requires { length row.old ≡ words_of status.now.graph }
    ensures first { parent ≡ None → StandsFor status.now.graph row.new (state.now ∷ []) }
    ensures next { (p : ℕ) (states : List (List ℕ)) → parent ≡ Some p →
        IsThere rows.now (words_of status.now.graph) p →
        StandsFor status.now.graph (row_in rows.now (words_of status.now.graph) p) states →
        StandsFor status.now.graph row.new (states ++ state.now ∷ []) }
{
    let before = match parent {
        Some(number) => row_of(rows, status.row_words(), number),
        None => None,
    };
    match before {
        Some(before) => status.progress_into(before, state, row),
        None => status.first_into(state, row),
    }
}

impl Tracks {
    /// The tracks by a status of landmarks. Nothing is kept yet.
    pub fn new(alloc: Global, status: Status) -> Result<Tracks, NoMemory>
        ensures status { IfOk result (λ tracks. tracks.status ≡ status) }
        ensures rows { IfOk result (λ tracks. tracks.rows ≡ []) }
    {
        let row = vec![in alloc; 0; status.row_words()]?;
        Ok(Tracks {
            status,
            rows: Vec::new(alloc),
            row,
        })
    }

    /// Forgets what is kept, so that another search can begin, whose estimates are by a kind of
    /// cost. The graph stays, and the memory too.
    pub fn restart(&mut self, task: &Task, kind: CostKind)
        ensures status { IsStatusOf task.now self.old.status.graph kind self.new.status }
        ensures rows { self.new.rows ≡ [] }
    {
        self.status.reweigh(task, kind);
        self.rows.clear();
    }

    /// Makes the row of a state and keeps it for the state's number: that of the path to its
    /// parent, which goes on by the state. What was kept for the number before is replaced.
    ///
    /// After want of memory nothing is said of what is kept.
    pub fn advance(
        &mut self,
        parent: Option<u32>,
        number: u32,
        state: &[u32],
    ) -> Result<(), NoMemory>
        ensures status { self.new.status ≡ self.old.status }
        ensures first { parent ≡ None →
            OnOk result (StandsFor self.old.status.graph self.new.row (state.now ∷ [])) }
        ensures next { (p : ℕ) (states : List (List ℕ)) → parent ≡ Some p →
            Keeps self.old p states →
            OnOk result (StandsFor self.old.status.graph self.new.row (states ++ state.now ∷ [])) }
        ensures kept { (states : List (List ℕ)) →
            OnOk result (StandsFor self.old.status.graph self.new.row states →
            Keeps self.new number states) }
        ensures others { (n : ℕ) (states : List (List ℕ)) → n ≢ number →
            Keeps self.old n states → OnOk result (Keeps self.new n states) }
    {
        make_row(&self.status, &self.rows, parent, state, &mut self.row);
        store(&mut self.rows, &self.row, number)?;
        Ok(())
    }

    /// The landmark estimate of the state whose row was made last.
    pub fn estimate(&self, state: &[u32]) -> u32
        ensures { result ≡ landmark_estimate self.now.status.graph self.now.status.weights
            (has self.now.row) state.now }
    {
        self.status.estimate(&self.row, state)
    }

    /// Whether an operator leads to a next landmark, in the state whose row was made last.
    pub fn leads_on(&self, task: &Task, state: &[u32], op: u32) -> bool
        ensures { result ≡ op_leads_on task.now self.now.status.graph (has self.now.row)
            state.now op }
    {
        self.status.leads_on(task, &self.row, state, op)
    }
}
