// A phase of a search as one value.
ghost use Rattle.std.proofs.Props.{props};
ghost use Rattle.search_log.specs.Phases.{IsPhase};
ghost use Rattle.lazy_search.specs.Phases.{phase_of};

use crate::shape::Shape;
use sas_task::Task;
use search_log::Setting;

/// What a search is of: a task, what is asked, and which lists there are by the guides.
#[derive(Clone, Copy)]
pub(crate) struct Phase<'a> {
    pub task: &'a Task,
    pub setting: &'a Setting,
    pub shape: Shape,
    ghost is_phase: { IsPhase (phase_of task.now setting.now shape) } by { Prim.hlevel props },
}
