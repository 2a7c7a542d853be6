// The trait of what guides a search.
ghost use Rattle.std.specs.Prelude.{◌≡◌, ◌≢◌, ◌≤◌, ◌↔◌, ℕ, Bool, true, List, [], ◌∷◌, ◌++◌};
ghost use Rattle.std.specs.Prelude.{None, Some, OnOk, filter};
ghost use Rattle.sas_task.specs.declared.contents.Parts.{Parts};
ghost use Rattle.sas_task.specs.States.{IsState};
ghost use Rattle.relaxed_task.specs.Reached.{IsDead};
ghost use Rattle.guide.specs.Operators.{applicable_operators, is_among};
ghost use Rattle.guide.specs.declared.seen.Seen.{Seen as TheSeen};

use crate::seen::Seen;
use lama_num::NoMemory;
use sas_task::Task;
use std::alloc::Global;

/// What guides a search: it gives a state up to three estimates, and may prefer operators.
///
/// A search numbers its states. A guide may keep something for a number, such as which landmarks
/// were accepted on the path to the state: contracts see that as the lists of states, the oldest
/// first, that are kept for the number. The guide stores no such list.
pub trait Guide {
    // How many estimates there are.
    ghost guides: { Self → ℕ };

    // Whether some of them prefer operators.
    ghost preferring: { Self → Bool };

    // For which task the guide was made.
    ghost is_for: { Self → Parts → Type 0 };

    // Which lists of states are kept for which number.
    ghost keeps: { Self → ℕ → List (List ℕ) → Type 0 };

    // Which answers fit which list of states of a task: they speak of the last state.
    ghost fits: { Self → Parts → List (List ℕ) → TheSeen → Type 0 };

    /// How many estimates there are.
    fn guides(&self) -> u32
        ensures guides { result ≡ guides self.now }
        ensures some { 1 ≤ result }
        ensures few { result ≤ 3 };

    /// Whether some of the guides prefer operators.
    fn has_preferred(&self) -> bool
        ensures { result ≡ preferring self.now };

    /// Says what guides on from a state, and keeps for the state's number `id` what was kept for
    /// the number of its parent, with the state behind it. The first state of a search has no
    /// parent. What was kept for `id` before is replaced.
    ///
    /// After want of memory nothing is said of the guide and of `out`.
    fn visit(
        &mut self,
        alloc: Global,
        task: &Task,
        parent: Option<u32>,
        id: u32,
        state: &[u32],
        applicable: &[u32],
        out: &mut Seen,
    ) -> Result<(), NoMemory>
        requires same_task { is_for self.old task.now }
        requires state { IsState task.now.variables state.now }
        requires applicable { applicable.now ≡ applicable_operators task.now state.now }
        ensures same_task { OnOk result (is_for self.new task.now) }
        ensures first_kept { parent ≡ None → OnOk result (keeps self.new id (state.now ∷ [])) }
        ensures first_fits { parent ≡ None →
            OnOk result (fits self.new task.now (state.now ∷ []) out.new) }
        ensures kept { (p : ℕ) (states : List (List ℕ)) → parent ≡ Some p →
            keeps self.old p states → OnOk result (keeps self.new id (states ++ state.now ∷ [])) }
        ensures answer_fits { (p : ℕ) (states : List (List ℕ)) → parent ≡ Some p →
            keeps self.old p states →
            OnOk result (fits self.new task.now (states ++ state.now ∷ []) out.new) }
        ensures others { (n : ℕ) (states : List (List ℕ)) → n ≢ id → keeps self.old n states →
            OnOk result (keeps self.new n states) }
        ensures fits_stay { (parts : Parts) (states : List (List ℕ)) (seen : TheSeen) →
            OnOk result (fits self.new parts states seen ↔ fits self.old parts states seen) }
        ensures guides { OnOk result (guides self.new ≡ guides self.old) }
        ensures preferring { OnOk result (preferring self.new ≡ preferring self.old) }
        ensures dead { OnOk result (out.new.dead ≡ true → IsDead task.now state.now) }
        ensures preferred { OnOk result
            (out.new.preferred ≡ filter (is_among out.new.preferred) applicable.now) };
}
