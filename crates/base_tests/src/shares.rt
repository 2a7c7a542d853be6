// Shares of the time and entries of rounds, of three entries of the relative times 3, 2 and 5.
ghost use Rattle.std.specs.Prelude.{◌≡◌, ◌≤◌, length, IfOk};

use driver_core::{Core, Event};
use exit_codes::Part;
use lama_num::NoMemory;
use std::alloc::Global;

fn three_entries(alloc: Global, limit: Option<u64>) -> Result<Core, NoMemory>
    ensures { IfOk result (λ core. (length core.setting.shares ≡ 3) × (core.setting.start ≡ 0)) }
{
    Core::new(alloc, &[3, 2, 5], 0, limit, None, false, true)
}

/// A whole turn of round 1, which offers a plan of this cost.
fn turn(core: &mut Core, entry: u32, cost: Option<u64>)
    ensures { core.new.setting ≡ core.old.setting }
{
    core.step(Event::Began {
        round: 1,
        entry,
        moment: 0,
    });
    core.step(Event::Candidate {
        round: 1,
        entry,
        cost,
    });
    core.step(Event::Ended {
        round: 1,
        entry,
        part: Part::Over,
        last: false,
    });
}

fn round_one(core: &mut Core)
    ensures { core.new.setting ≡ core.old.setting }
{
    turn(core, 1, None);
    turn(core, 2, Some(9));
    turn(core, 3, Some(5));
}

/// Entries 2 and 3 kept a plan in round 1, and entry 1 offered none.
fn after_round_one(alloc: Global) -> Result<Core, NoMemory>
    ensures { IfOk result (λ core. (length core.setting.shares ≡ 3) × (core.setting.start ≡ 0)) }
{
    let mut core = three_entries(alloc, Some(10_000))?;
    round_one(&mut core);
    Ok(core)
}

fn share_is(core: &Core, round: u32, entry: u32, moment: u64, want: Option<u64>) -> bool
    requires first { 1 ≤ entry }
    requires last { entry ≤ 3 }
    requires three { length core.now.setting.shares ≡ 3 }
    requires start { core.now.setting.start ≡ 0 }
{
    core.share(round, entry, moment) == want
}

fn has_first_shares(core: &Core) -> bool
    requires three { length core.now.setting.shares ≡ 3 }
    requires start { core.now.setting.start ≡ 0 }
{
    share_is(core, 1, 1, 0, Some(3_000))
        && share_is(core, 1, 2, 3_500, Some(1_857))
        && share_is(core, 1, 3, 4_000, Some(6_000))
        && share_is(core, 1, 2, 10_000, Some(1))
        && share_is(core, 1, 3, 25_000, Some(1))
}

fn first_round(alloc: Global) -> bool {
    match three_entries(alloc, Some(10_000)) {
        Ok(core) => has_first_shares(&core),
        Err(NoMemory) => false,
    }
}

fn shares_without_a_limit(alloc: Global) -> bool {
    match three_entries(alloc, None) {
        Ok(core) => share_is(&core, 1, 2, 9, None),
        Err(NoMemory) => false,
    }
}

#[test]
fn shares_of_the_first_round(rt: HostRuntime) {
    assert!(rt; first_round(rt.alloc()));
    assert!(rt; shares_without_a_limit(rt.alloc()));
}

fn has_second_shares(core: &Core) -> bool
    requires three { length core.now.setting.shares ≡ 3 }
    requires start { core.now.setting.start ≡ 0 }
{
    share_is(core, 2, 2, 4_000, Some(1_714))
        && share_is(core, 2, 3, 4_000, Some(6_000))
        && share_is(core, 1, 1, 0, Some(3_000))
}

fn has_entries(core: &Core) -> bool {
    core.runs(1, 1)
        && core.runs(1, 3)
        && !core.runs(1, 4)
        && !core.runs(1, 0)
        && !core.runs(2, 1)
        && core.runs(2, 2)
        && core.runs(2, 3)
        && !core.runs(3, 2)
        && !core.runs(0, 1)
        && !core.is_over()
}

fn second_round(alloc: Global) -> bool {
    match after_round_one(alloc) {
        Ok(core) => has_second_shares(&core) && has_entries(&core),
        Err(NoMemory) => false,
    }
}

#[test]
fn the_second_round(rt: HostRuntime) {
    assert!(rt; second_round(rt.alloc()));
}
