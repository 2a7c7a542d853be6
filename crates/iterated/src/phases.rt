// The phases of a configuration, one after another.
ghost use Rattle.std.specs.Prelude.{◌≡◌, ◌≢◌, ◌≤◌, ◌<◌, IfOk, IfSome, length};
ghost use Rattle.conf_text.specs.Accepted.{IsConfig};
ghost use Rattle.phase_guide.specs.Guides.{IsFor as GuideIsFor};
ghost use Rattle.iterated.specs.declared.ends.Begun.{Begun as TheBegun};
ghost use Rattle.iterated.specs.Following.{begun};
ghost use Rattle.lazy_search.specs.Ends.{IsBetween, TellsOn, moment_by};
ghost use Rattle.iterated.specs.Ends.{PhaseEnds, EndsFrom, AsksFrom, ShowsOfPlans, next_from};
ghost use Rattle.iterated.specs.Ends.{search_end};

use crate::ends::{Begun, PhaseEnd, begin};
use crate::searches::search_by;
use conf_text::Config;
use lama_host::Clock;
use lama_num::{Duplicate, NoMemory};
use phase_guide::{PhaseGuide, guide};
use sas_task::Task;
use search_log::{Log, Space, Stop};
use std::alloc::Global;
use std::marker::Model;

/// The phases of a configuration of a task, one after another.
///
/// One guide serves them all: it is turned to each phase, so that landmarks are found once, and
/// what a phase goes by is made again only where it counts costs otherwise.
#[derive(Drop)]
pub struct Iterated {
    config: Config,
    next: Option<usize>,
    guide: PhaseGuide,
}

impl Model for Iterated {
    ghost use Rattle.std.specs.Prelude.{◌<◌, length, IfSome};
    ghost use Rattle.conf_text.specs.Accepted.{IsConfig};
    ghost use Rattle.iterated.specs.Iterating.{Iterating};

    ghost Value = { Iterating };

    ghost view = { λ p. record { config = p.config; next = p.next; guide = p.guide } };

    ghost invariant = { λ p. IsConfig p.config ×
        IfSome p.next (λ place. place < length p.config.phases) };
}

/// Searches as the phase at a place says, and tells how the phase ends.
fn run_phase<C: Clock>(
    alloc: Global,
    task: &Task,
    config: &Config,
    place: usize,
    guide: &mut PhaseGuide,
    bound: Option<u64>,
    stop: Option<Stop>,
    clock: &mut C,
) -> PhaseEnd
    requires config { IsConfig config.now }
    requires place { place < length config.now.phases }
    requires bound { IfSome bound (λ least. 0 < least) }
    requires task { GuideIsFor guide.old task.now }
    ensures task { result ≢ PhaseEnd.NoMemory → GuideIsFor guide.new task.now }
    ensures ends { PhaseEnds task.now config.now place bound stop result }
    ensures shows { ShowsOfPlans task.now bound result }
    ensures clock { AsksFrom task.now config.now bound stop (TheBegun.Phase place)
        (C.answers clock.old) (C.answers clock.new) result }
    ensures moment { IsBetween (C.last clock.old) (C.last clock.new)
        (moment_by (search_end result)) }
    ensures later { C.last clock.old ≤ C.last clock.new }
    ensures tells { TellsOn (C.answers clock.old) (C.answers clock.new) }
{
    // The call tells that the task is well formed.
    let _ = task.parts();
    let phase = &config.phases[place];
    let end = search_by(alloc, task, phase, guide, bound, stop, clock);
    PhaseEnd::by(end, config, place)
}

impl Iterated {
    ghost use Rattle.iterated.specs.Iterating.{IsFor};

    /// The phases of a configuration, of which the first is next, with the guide of that phase.
    pub fn new(alloc: Global, task: &Task, config: &Config) -> Result<Iterated, NoMemory>
        requires { IsConfig config.now }
        ensures config { IfOk result (λ phases. phases.config ≡ config.now) }
        ensures next { IfOk result (λ phases. phases.next ≡ Some 0) }
        ensures task { IfOk result (λ phases. IsFor phases task.now) }
    {
        let config_of_phases = config.duplicate(alloc)?;
        let guide = guide(alloc, task, &config.phases[0])?;
        Ok(Iterated {
            config: config_of_phases,
            next: Some(0),
            guide,
        })
    }

    /// Begins the phase that is next, and answers how it ends: it looks for a plan that costs less
    /// than the bound, as long as `stop` allows.
    ///
    /// A phase follows a plan, and an end that leaves open whether there is a plan below the bound,
    /// if the configuration has one. After any other end none does.
    pub fn next_phase<C: Clock>(
        &mut self,
        alloc: Global,
        task: &Task,
        bound: Option<u64>,
        stop: Option<Stop>,
        clock: &mut C,
    ) -> PhaseEnd
        requires { IsFor self.old task.now }
        ensures config { self.new.config ≡ self.old.config }
        ensures task { IsFor self.new task.now }
        ensures ends { EndsFrom task.now self.old.config bound stop
            (begun self.old.next bound) result }
        ensures next { self.new.next ≡
            next_from self.old.config (begun self.old.next bound) result }
        ensures shows { ShowsOfPlans task.now bound result }
        ensures clock { AsksFrom task.now self.old.config bound stop (begun self.old.next bound)
            (C.answers clock.old) (C.answers clock.new) result }
        ensures moment { IsBetween (C.last clock.old) (C.last clock.new)
            (moment_by (search_end result)) }
        ensures later { C.last clock.old ≤ C.last clock.new }
        ensures tells { TellsOn (C.answers clock.old) (C.answers clock.new) }
    {
        match begin(self.next, bound) {
            Begun::Over => PhaseEnd::Over,
            Begun::Best => {
                self.next = None;
                PhaseEnd::Best {
                    space: Space::empty(alloc),
                    log: Log::new(alloc),
                }
            }
            Begun::Phase(place) => {
                let end = run_phase(
                    alloc,
                    task,
                    &self.config,
                    place,
                    &mut self.guide,
                    bound,
                    stop,
                    clock,
                );
                self.next = end.next_place(&self.config, place);
                end
            }
        }
    }

    /// Gives back its memory, part by part. A caller that drops it whole has much to prove.
    pub fn release(self) {
        let Iterated {
            config,
            next: _,
            guide,
        } = self;
        release_config(config);
        guide.release();
    }
}

fn release_config(_config: Config) {}
