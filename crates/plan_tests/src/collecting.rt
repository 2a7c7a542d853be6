// What a child left, and what is kept of it. Each big value is given up in a function of its own.
ghost use Rattle.std.specs.Prelude.{◌≡◌, ◌≤◌, List, [], length, IfOk, OnOk};
ghost use Rattle.host_mem.specs.Memory.{told_of};
ghost use Rattle.driver_core.specs.declared.events.Event.{Event as TheEvent};
ghost use Rattle.driver_core.specs.Turns.{turn_of};
ghost use Rattle.candidates.specs.Collecting.{IsInTurn};

use candidates::{Candidate, Found, collect};
use driver_core::{Core, Event};
use host_mem::{MemHost, Script, written};
use lama_host::{ChildEnd, Failed, Host, Limits};
use lama_num::{NameBuf, NoMemory, Seq};
use plan_check::PlanFault;
use plan_text::PlanTextFault;
use sas_task::Task;
use std::alloc::{AllocError, Global};
use test_tasks::{read_task, three_places};

const TWO_STEPS: &str = "(go01)\n(go12)\n; cost = 2 (general cost)\n";

const JUMP: &str = "(jump)\n; cost = 5 (general cost)\n";

/// A child that writes these files.
fn script(alloc: Global, writes: &[(&str, &str)]) -> Result<Script, AllocError> {
    let mut list = Vec::new(alloc);
    for (name, text) in writes {
        list.push(written(alloc, name, Some(text.as_bytes()))?)?;
    }
    Ok(Script {
        writes: Seq::from(list),
        outcome: ChildEnd::Status(0),
    })
}

/// A host with that child.
fn host(alloc: Global, writes: &[(&str, &str)]) -> Result<MemHost, AllocError>
    ensures { IfOk result (λ host. (told_of host).busy ≡ []) }
{
    let mut scripts = Vec::new(alloc);
    scripts.push(script(alloc, writes)?)?;
    Ok(MemHost::new(alloc, Vec::new(alloc), scripts, Vec::new(alloc)))
}

/// Runs the child to its end.
fn run_child(alloc: Global, host: &mut MemHost) -> Result<ChildEnd, Failed>
    requires { (told_of host.old).busy ≡ [] }
    ensures { OnOk result ((told_of host.new).busy ≡ []) }
{
    let limits = Limits {
        seconds: None,
        kib: None,
    };
    host.start(0, &Vec::new(alloc), b"", limits)?;
    host.wait(0)
}

/// A core of one entry, which has begun.
fn begun(alloc: Global) -> Result<Core, NoMemory>
    ensures { IfOk result (λ core. (events : List TheEvent)
        × IsInTurn core events (turn_of 1 1) []) }
{
    let mut core = Core::new(alloc, &[1], 0, None, None, false, false)?;
    core.step(Event::Began {
        round: 1,
        entry: 1,
        moment: 0,
    });
    Ok(core)
}

/// What must come of a child: the candidates, and how many plans are kept.
#[derive(Clone, Copy)]
struct Wanted<'a> {
    candidates: &'a [Candidate],
    count: usize,
}

fn has(host: &MemHost, name: &str, text: &str) -> bool {
    match host.holds(name) {
        Some(held) => held == text.as_bytes(),
        None => false,
    }
}

/// Whether the first plan is the jump, and the second the two steps.
fn has_plans(host: &MemHost, count: usize) -> bool {
    has(host, "sas_plan.1", JUMP) == (count > 0)
        && has(host, "sas_plan.2", TWO_STEPS) == (count > 1)
}

fn comes_to(
    alloc: Global,
    host: &mut MemHost,
    task: &Task,
    base: &NameBuf,
    core: &mut Core,
    wanted: Wanted<'_>,
) -> bool
    requires idle { (told_of host.old).busy ≡ [] }
    requires short { length base.now ≤ 200 }
    requires turn { (events : List TheEvent) × IsInTurn core.old events (turn_of 1 1) [] }
{
    let mut plans = Vec::new(alloc);
    let mut found = Vec::new(alloc);
    let end = collect(
        alloc, host, task, base, true, 1, 1, core, &mut plans, &mut found,
    );
    end.is_ok()
        && found.as_slice() == wanted.candidates
        && plans.len() == wanted.count
        && has_plans(host, wanted.count)
}

fn comes_in_turn(
    alloc: Global,
    host: &mut MemHost,
    task: &Task,
    base: &NameBuf,
    wanted: Wanted<'_>,
) -> bool
    requires idle { (told_of host.old).busy ≡ [] }
    requires short { length base.now ≤ 200 }
{
    match begun(alloc) {
        Ok(mut core) => comes_to(alloc, host, task, base, &mut core, wanted),
        Err(NoMemory) => false,
    }
}

fn comes_under(alloc: Global, host: &mut MemHost, task: &Task, wanted: Wanted<'_>) -> bool
    requires { (told_of host.old).busy ≡ [] }
{
    match NameBuf::new("sas_plan") {
        Some(base) => comes_in_turn(alloc, host, task, &base, wanted),
        None => false,
    }
}

fn comes_from(alloc: Global, host: &mut MemHost, task: &Task, wanted: Wanted<'_>) -> bool
    requires { (told_of host.old).busy ≡ [] }
{
    match run_child(alloc, host) {
        Ok(_) => comes_under(alloc, host, task, wanted),
        Err(Failed) => false,
    }
}

fn comes_for(alloc: Global, writes: &[(&str, &str)], task: &Task, wanted: Wanted<'_>) -> bool {
    match host(alloc, writes) {
        Ok(mut host) => comes_from(alloc, &mut host, task, wanted),
        Err(AllocError) => false,
    }
}

/// Whether these candidates come of the one entry, whose child writes these files, and so many
/// plans are kept.
fn comes(alloc: Global, writes: &[(&str, &str)], candidates: &[Candidate], count: usize) -> bool {
    match read_task(alloc, three_places()) {
        Some(task) => comes_for(alloc, writes, &task, Wanted { candidates, count }),
        None => false,
    }
}

fn offered(file: u32, found: Found) -> Candidate {
    Candidate {
        round: 1,
        entry: 1,
        file: Some(file),
        found,
    }
}

#[test]
fn a_file_that_is_cut_short(rt: HostRuntime) {
    let cut = PlanFault::Text(PlanTextFault::CutShort);
    let writes = [
        ("sas_plan.c1.1", JUMP),
        ("sas_plan.c1.2", "(go01)\n(go12)\n; cost = 2 (gen"),
    ];
    let wanted = [
        offered(1, Found::Kept { index: 0 }),
        offered(2, Found::Dropped(cut)),
    ];
    assert!(rt; comes(rt.alloc(), &writes, &wanted, 1));
}

#[test]
fn each_file_has_its_own_bound(rt: HostRuntime) {
    let writes = [
        ("sas_plan.c1", JUMP),
        ("sas_plan.c1.1", TWO_STEPS),
        ("sas_plan.c1.2", JUMP),
        ("sas_plan.c1.4", TWO_STEPS),
    ];
    let dear = PlanFault::NotCheaper { real: 5, bound: 2 };
    let wanted = [
        offered(0, Found::Kept { index: 0 }),
        offered(1, Found::Kept { index: 1 }),
        offered(2, Found::Dropped(dear)),
    ];
    assert!(rt; comes(rt.alloc(), &writes, &wanted, 2));
}
