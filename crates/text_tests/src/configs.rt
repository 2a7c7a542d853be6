// Texts that are configurations, and what they are written as.
use conf_text::{Config, alias, read, write};
use std::alloc::Global;

fn has_text(alloc: Global, config: &Config, want: &str) -> bool {
    match write(alloc, config) {
        Ok(text) => text.as_str() == want,
        Err(_) => false,
    }
}

// Whether a text is a configuration that is written so.
fn is_written(alloc: Global, text: &str, want: &str) -> bool {
    match read(alloc, text) {
        Ok(config) => has_text(alloc, &config, want),
        Err(_) => false,
    }
}

fn is_canonical(alloc: Global, text: &str) -> bool {
    is_written(alloc, text, text)
}

fn alias_has_text(alloc: Global, name: &str, unit_cost: bool, want: &str) -> bool {
    match alias(alloc, name, unit_cost) {
        Ok(Some(config)) => has_text(alloc, &config, want),
        _ => false,
    }
}

// Whether an alias is written so, and read back.
fn alias_is(alloc: Global, name: &str, unit_cost: bool, want: &str) -> bool {
    alias_has_text(alloc, name, unit_cost, want) && is_canonical(alloc, want)
}

fn is_no_alias(alloc: Global, name: &str) -> bool {
    match alias(alloc, name, true) {
        Ok(None) => true,
        _ => false,
    }
}

#[test]
fn canonical_texts(rt: HostRuntime) {
    let alloc = rt.alloc();
    assert!(rt; is_canonical(alloc, "lazy_greedy([ff()])"));
    let all = "lazy_wastar([add(),ff(),lm()],preferred=[lm(),ff()],\
        cost_type=one,estimate=plusone,w=1000)";
    assert!(rt; is_canonical(alloc, all));
    let limits = "lazy_greedy([lm()],reopen_closed=true,boost=0,max_pops=0,max_states=1)";
    assert!(rt; is_canonical(alloc, limits));
    assert!(rt;
        is_canonical(
            alloc,
            "lazy_wastar([add()],reopen_closed=false,boost=1000000)"
        )
    );
    assert!(rt; is_canonical(alloc, "iterated([lazy_greedy([ff()])])"));
    let two = "iterated([lazy_greedy([ff()]),lazy_wastar([lm()],w=2)],repeat_last=true)";
    assert!(rt; is_canonical(alloc, two));
}

#[test]
fn other_texts(rt: HostRuntime) {
    let alloc = rt.alloc();
    let blanks = "\tlazy_wastar ( [ lm ( ) , add ( ) ] , w = 007 , cost_type = normal ) ";
    assert!(rt; is_written(alloc, blanks, "lazy_wastar([lm(),add()],w=7)"));
    let defaults = "lazy_greedy([ff()],max_states=2147483647,max_pops=1099511627776,\
        boost=01000,estimate=one)";
    assert!(rt; is_written(alloc, defaults, "lazy_greedy([ff()],estimate=one)"));
    let reopening = "lazy_wastar([ff()],reopen_closed=true,w=1)";
    assert!(rt; is_written(alloc, reopening, "lazy_wastar([ff()])"));
    let once = "iterated([lazy_greedy([ff()])],repeat_last=false)";
    assert!(rt; is_written(alloc, once, "iterated([lazy_greedy([ff()])])"));
}

#[test]
fn lama_for_unit_costs(rt: HostRuntime) {
    let alloc = rt.alloc();
    let want = "iterated([lazy_greedy([ff(),lm()],preferred=[ff(),lm()]),\
        lazy_wastar([ff(),lm()],preferred=[ff(),lm()],w=5),\
        lazy_wastar([ff(),lm()],preferred=[ff(),lm()],w=3),\
        lazy_wastar([ff(),lm()],preferred=[ff(),lm()],w=2),\
        lazy_wastar([ff(),lm()],preferred=[ff(),lm()])],repeat_last=true)";
    assert!(rt; alias_is(alloc, "lama", true, want));
}

#[test]
fn lama_for_other_costs(rt: HostRuntime) {
    let alloc = rt.alloc();
    let want =
        "iterated([lazy_greedy([ff(),lm()],preferred=[ff(),lm()],cost_type=one,estimate=one),\
        lazy_greedy([ff(),lm()],preferred=[ff(),lm()],estimate=plusone),\
        lazy_wastar([ff(),lm()],preferred=[ff(),lm()],estimate=plusone,w=5),\
        lazy_wastar([ff(),lm()],preferred=[ff(),lm()],estimate=plusone,w=3),\
        lazy_wastar([ff(),lm()],preferred=[ff(),lm()],estimate=plusone,w=2),\
        lazy_wastar([ff(),lm()],preferred=[ff(),lm()],estimate=plusone)],repeat_last=true)";
    assert!(rt; alias_is(alloc, "lama", false, want));
}

#[test]
fn the_first_of_lama(rt: HostRuntime) {
    let alloc = rt.alloc();
    let want = "lazy_greedy([ff(),lm()],preferred=[ff(),lm()],cost_type=one,estimate=one)";
    assert!(rt; alias_is(alloc, "lama-first", true, want));
    assert!(rt; alias_is(alloc, "lama-first", false, want));
    assert!(rt; is_no_alias(alloc, "x"));
}
