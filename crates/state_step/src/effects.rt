// What effects make of a state.
ghost use Rattle.std.specs.Prelude.{◌≡◌, ◌<◌, [], length, map, IsTrue};
ghost use Rattle.std.specs.List.{list_all};
ghost use Rattle.lama_num.specs.Rows.{row_at};
ghost use Rattle.sas_task.specs.States.{fires as effect_fires, written};
ghost use Rattle.axiom_eval.specs.Within.{is_within};
ghost use Rattle.state_step.specs.Steps.{effect_is_within};
ghost use Rattle.state_step.specs.Tables.{effect_of, is_row};

use crate::tables::Change;
use lama_num::Rows;
use sas_task::{Fact, all_hold};

/// Whether the conditions of a change hold.
fn fires(state: &[u32], conds: &Rows<Fact>, change: &Change) -> bool
    requires none { row_at conds.now 0 ≡ [] }
    requires row { change.now.conds < length conds.now }
    requires facts { IsTrue
        (list_all (is_within (length state.now)) (row_at conds.now change.now.conds)) }
    ensures { result ≡ effect_fires state.now (effect_of conds.now change.now) }
{
    change.conds == 0 || all_hold(state, conds.row(change.conds as usize))
}

/// Makes the state after changes, which all see the state before.
pub fn write_changes(state: &[u32], conds: &Rows<Fact>, changes: &[Change], out: &mut [u32])
    requires long { length out.old ≡ length state.now }
    requires none { row_at conds.now 0 ≡ [] }
    requires rows { IsTrue (list_all (is_row (length conds.now)) changes.now) }
    requires facts { IsTrue
        (list_all (effect_is_within (length state.now)) (map (effect_of conds.now) changes.now)) }
    ensures { out.new ≡ written state.now (map (effect_of conds.now) changes.now) }
{
    out.copy_from_slice(state);
    for change in changes {
        if fires(state, conds, change) {
            out[change.fact.var as usize] = change.fact.val;
        }
    }
}
