// What the pairs at the end are.
ghost use Rattle.std.specs.Prelude.{◌≡◌, ℕ, ◌<◌, List, length, map, filter, slice_get, Some, min};
ghost use Rattle.std.specs.Prelude.{option_and_then, IfSome, if◌then◌else◌, ◌&&◌};
ghost use Rattle.std.specs.List.{find};
ghost use Rattle.std.specs.Option.{option_map_or, option_or};
ghost use Rattle.sas_task.specs.Runs.{cost_of};
ghost use Rattle.plan_check.specs.Verdicts.{reaches_goal, least as the_least, is_plan_at};
ghost use Rattle.plan_check.specs.Layers.{AreEnds};
ghost use Rattle.plan_check.specs.Walking.{IsSetup, IsWalker};

use crate::layers::Layer;
use crate::setup::Setup;
use crate::walker::Walker;

/// What the pairs are whose states are goals.
#[derive(Clone, Copy)]
pub struct Goals {
    /// Their least cost.
    pub least: Option<u64>,
    /// The first of a cost.
    pub place: Option<usize>,
}

fn lower(least: Option<u64>, cost: u64) -> u64
    ensures { result ≡ option_map_or (min cost) least cost }
{
    match least {
        Some(other) => cost.min(other),
        None => cost,
    }
}

impl Goals {
    /// With a pair at a place, which may be a goal and of the wanted cost.
    fn with(self, place: usize, cost: u64, goal: bool, wanted: bool) -> Goals
        ensures least { result.least ≡ (if goal
            then Some (option_map_or (min cost) self.least cost) else self.least) }
        ensures place { result.place ≡ (if goal && wanted
            then option_or self.place (Some place) else self.place) }
    {
        Goals {
            least: if goal {
                Some(lower(self.least, cost))
            } else {
                self.least
            },
            place: if goal && wanted {
                self.place.or(Some(place))
            } else {
                self.place
            },
        }
    }
}

/// Looks for the goals in a layer, and for one of a cost.
pub fn pick(setup: &Setup, walker: &mut Walker, layer: &Layer, wanted: u64) -> Goals
    requires made { IsSetup setup.now }
    requires ready { IsWalker walker.old setup.now.task.now }
    requires ends { (choices : List (List ℕ)) ×
        AreEnds setup.now.task.now setup.now.layout layer.now choices }
    ensures least { (choices : List (List ℕ)) →
        AreEnds setup.now.task.now setup.now.layout layer.now choices →
        result.least ≡ the_least
        (map (cost_of setup.now.task.now) (filter (reaches_goal setup.now.task.now) choices)) }
    ensures first { (choices : List (List ℕ)) →
        AreEnds setup.now.task.now setup.now.layout layer.now choices →
        option_and_then (slice_get choices) result.place
        ≡ find (is_plan_at setup.now.task.now wanted) choices }
    ensures within { IfSome result.place (λ place. place < length layer.now) }
{
    let mut goals = Goals {
        least: None,
        place: None,
    };
    for place in 0..layer.len() {
        let cost = walker.restore(setup, layer, place);
        let goal = walker.is_goal(setup.task);
        goals = goals.with(place, cost, goal, cost == wanted);
    }
    goals
}
