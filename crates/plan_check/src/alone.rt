// Names for which there is one operator each.
ghost use Rattle.std.specs.Prelude.{◌≡◌, ◌≤◌, [], length, IfOk, IfErr};
ghost use Rattle.plan_check.specs.Layers.{IsAlone, IsFirstFault};
ghost use Rattle.plan_check.specs.Walking.{IsSetup, IsWalker};
ghost use Rattle.plan_text.specs.declared.reading.TheConstants.{MOST_PLAN_BYTES};

use crate::refusals::Refusal;
use crate::setup::Setup;
use crate::tracing::Link;
use crate::walker::Walker;
use lama_num::Seq;

/// Goes on as long as one operator can be taken for each name, and leaves the walker in the state
/// that was reached and the operators in `links`. Answers their cost.
pub fn go_alone(
    setup: &Setup,
    walker: &mut Walker,
    names: &[Seq<u8>],
    links: &mut Vec<Link>,
) -> Result<u64, Refusal>
    requires made { IsSetup setup.now }
    requires ready { IsWalker walker.old setup.now.task.now }
    requires few { length names.now ≤ MOST_PLAN_BYTES }
    requires none { links.old.items ≡ [] }
    ensures ready { IsWalker walker.new setup.now.task.now }
    ensures few { length links.new.items ≤ length names.now }
    ensures alone { IfOk result (λ cost. IsAlone setup.now.task.now names.now links.new.items
        (length links.new.items) walker.new.here.items cost) }
    ensures fault { IfErr result (IsFirstFault setup.now.task.now names.now) }
{
    let mut cost = 0;
    walker.begin(setup.task);
    for (i, name) in names.iter().enumerate() {
        walker.find_candidates(setup, name)?;
        match walker.candidates.as_slice() {
            [] => return Err(Refusal::Bad(setup.no_candidate(name, i as u32 + 1))),
            [op] => {
                let op = *op;
                cost += walker.apply(setup.task, op);
                let from = (i as u32).saturating_sub(1);
                links.push(Link { from, op })?;
            }
            _ => return Ok(cost),
        }
    }
    Ok(cost)
}
