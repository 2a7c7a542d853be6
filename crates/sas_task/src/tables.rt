// The order of many preconditions, by tables.
ghost use Rattle.std.specs.Prelude.{filter, ◌≡◌, ◌+◌, ◌<◌, ◌^◌, ◌++◌, [], ◌∷◌, ℕ, IfOk, IfSome};
ghost use Rattle.std.specs.Prelude.{length, nat_eq, not, if◌then◌else◌};
ghost use Rattle.sas_task.specs.Facts.{has_fact};
ghost use Rattle.sas_task.specs.Order.{prevail, standing, arranged};
ghost use Rattle.std.specs.BTreeSet.{contains};
ghost use Rattle.sas_task.specs.Tables.{Remembers, pair_cmp, Knows, Places, CountsFacts};
ghost use Rattle.sas_task.specs.Tables.{CountsEffects, count_of};

use crate::contents::{Effect, Fact};
use crate::facts::has;
use std::alloc::{AllocError, Global};
use std::collections::{BTreeMap, BTreeSet};

/// So many facts or effects are looked through sooner than tables are made of them.
const FEW: usize = 32;

/// Counts a variable once more, and says how often it was counted before.
fn count_up(counts: &mut BTreeMap<u32, usize>, var: u32) -> Result<usize, AllocError>
    requires { count_of counts.old var < 2 ^ 63 }
    ensures before { IfOk result (λ count. count ≡ count_of counts.old var) }
    ensures after { IfOk result (λ count. (q : ℕ) → count_of counts.new q
        ≡ (if nat_eq var q then count_of counts.old q + 1 else count_of counts.old q)) }
{
    let count = counts.get(&var).copied().unwrap_or(0);
    counts.insert(var, count + 1)?;
    Ok(count)
}

/// The facts by their variables, and by how many facts on them stand before.
fn places(alloc: Global, facts: &[Fact]) -> Result<BTreeMap<(u32, usize), Fact>, AllocError>
    ensures { IfOk result (λ placed. Places placed facts.now) }
{
    let mut placed = BTreeMap::new(alloc);
    let mut counts = BTreeMap::new(alloc);
    for fact in facts {
        let place = count_up(&mut counts, fact.var)?;
        placed.insert((fact.var, place), *fact)?;
    }
    Ok(placed)
}

/// The preconditions that stand for effects.
#[derive(Drop)]
struct Standing {
    facts: Vec<Fact>,
    known: BTreeSet<(u32, u32)>,
}

fn standing_facts(alloc: Global, pre: &[Fact], effects: &[Effect]) -> Result<Standing, AllocError>
    ensures facts { IfOk result (λ s. s.facts.items ≡ standing pre.now effects.now) }
    ensures known { IfOk result (λ s. Knows s.known s.facts.items) }
{
    let placed = places(alloc, pre)?;
    let mut facts = Vec::new(alloc);
    let mut known = BTreeSet::new(alloc);
    let mut counts = BTreeMap::new(alloc);
    for effect in effects {
        let var = effect.fact.var;
        let place = count_up(&mut counts, var)?;
        if let Some(fact) = placed.get(&(var, place)) {
            known.insert((fact.var, fact.val))?;
            facts.push(*fact)?;
        }
    }
    Ok(Standing { facts, known })
}

/// Preconditions in order, and how many of them are prevail conditions.
#[derive(Drop)]
pub struct Arranged {
    pub facts: Vec<Fact>,
    pub prevail: usize,
}

/// Brings distinct preconditions into order, where there is memory for its tables.
fn arranged_facts(alloc: Global, pre: &[Fact], effects: &[Effect]) -> Result<Arranged, AllocError>
    ensures order { IfOk result (λ a. a.facts.items ≡ arranged pre.now effects.now) }
    ensures front { IfOk result (λ a. a.prevail ≡ length (prevail pre.now effects.now)) }
{
    let standing = standing_facts(alloc, pre, effects)?;
    let mut facts = Vec::from_slice(alloc, pre)?;
    keep_unknown(&standing.known, &mut facts);
    let prevail = facts.len();
    facts.extend_from_slice(&standing.facts)?;
    Ok(Arranged { facts, prevail })
}

fn is_known(known: &BTreeSet<(u32, u32)>, fact: Fact) -> bool
    ensures { result ≡ contains pair_cmp known.now (fact.var, fact.val) }
{
    known.contains(&(fact.var, fact.val))
}

fn keep_unknown(known: &BTreeSet<(u32, u32)>, facts: &mut Vec<Fact>)
    ensures { facts.new.items
        ≡ filter (λ f. not (contains pair_cmp known.now (f.var, f.val))) facts.old.items }
{
    facts.retain(|fact| !is_known(known, *fact));
}

/// Whether a fact is new to a list that was seen; it is then seen.
pub fn is_new(seen: &mut Option<BTreeSet<(u32, u32)>>, kept: &[Fact], fact: Fact) -> bool
    requires { Remembers seen.old kept.now }
    ensures new { result ≡ not (has_fact kept.now fact) }
    ensures seen { Remembers seen.new
        (if has_fact kept.now fact then kept.now else kept.now ++ fact ∷ []) }
{
    match seen {
        Some(known) => match known.insert((fact.var, fact.val)) {
            Ok(new) => new,
            Err(_) => {
                *seen = None;
                true
            }
        },
        None => !has(kept, fact),
    }
}

/// Nothing is seen yet of a list of so many facts.
pub fn nothing_seen(alloc: Global, count: usize) -> Option<BTreeSet<(u32, u32)>>
    ensures { Remembers result [] }
{
    if count > FEW {
        Some(BTreeSet::new(alloc))
    } else {
        None
    }
}

/// Brings distinct preconditions into order, where they are many and there is memory for tables.
pub fn by_tables(alloc: Global, pre: &[Fact], effects: &[Effect]) -> Option<Arranged>
    ensures order { IfSome result (λ a. a.facts.items ≡ arranged pre.now effects.now) }
    ensures front { IfSome result (λ a. a.prevail ≡ length (prevail pre.now effects.now)) }
{
    if pre.len() <= FEW || effects.len() <= FEW {
        return None;
    }
    match arranged_facts(alloc, pre, effects) {
        Ok(arranged) => Some(arranged),
        Err(_) => None,
    }
}
