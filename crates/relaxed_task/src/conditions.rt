// Lists of facts by number, each fact once.
ghost use Rattle.std.specs.Prelude.{◌≡◌, ◌<◌, ◌≤◌, ◌++◌, ◌^◌, [], length};
ghost use Rattle.std.specs.Prelude.{IsTrue, IfOk, OnOk};
ghost use Rattle.std.specs.List.{list_all};
ghost use Rattle.relaxed_task.specs.Numbers.{number_by, distinct, is_below};
ghost use Rattle.relaxed_task.specs.Making.{AreMarked, with_one, with_all};
ghost use Rattle.relaxed_task.specs.Making.{have_numbers, all_numbers_by};
ghost use Rattle.sas_task.specs.declared.limits.TheConstants.{MOST_FACTS};

use lama_num::Seq;
use sas_task::Fact;
use std::alloc::{AllocError, Global};

/// The number of a fact, by where the facts of each variable begin.
pub fn number(offsets: &[u32], fact: Fact) -> u32
    requires variable { fact.var < length offsets.now }
    requires small { number_by offsets.now fact < 2 ^ 32 }
    ensures { result ≡ number_by offsets.now fact }
{
    offsets[fact.var as usize] + fact.val
}

/// Adds a fact unless it is marked, and marks it.
fn add_fact(marks: &mut [bool], facts: &mut Vec<u32>, fact: u32) -> Result<(), AllocError>
    requires within { fact < length marks.old }
    requires marked { AreMarked marks.old facts.old.items }
    ensures facts { OnOk result (facts.new.items ≡ with_one facts.old.items fact) }
    ensures marked { OnOk result (AreMarked marks.new facts.new.items) }
    ensures long { length marks.new ≡ length marks.old }
{
    if !marks[fact as usize] {
        facts.push(fact)?;
        marks[fact as usize] = true;
    }
    Ok(())
}

fn add_facts(
    offsets: &[u32],
    marks: &mut [bool],
    facts: &mut Vec<u32>,
    more: &[Fact],
) -> Result<(), AllocError>
    requires few { length marks.old ≤ MOST_FACTS }
    requires numbers { IsTrue (have_numbers offsets.now (length marks.old) more.now) }
    requires marked { AreMarked marks.old facts.old.items }
    ensures facts { OnOk result
        (facts.new.items ≡ with_all facts.old.items (all_numbers_by offsets.now more.now)) }
    ensures marked { OnOk result (AreMarked marks.new facts.new.items) }
    ensures long { length marks.new ≡ length marks.old }
{
    for fact in more {
        add_fact(marks, facts, number(offsets, *fact))?;
    }
    Ok(())
}

/// Takes the marks of facts away.
fn clear(marks: &mut [bool], facts: &[u32])
    requires within { IsTrue (list_all (is_below (length marks.old)) facts.now) }
    requires marked { AreMarked marks.old facts.now }
    ensures clear { AreMarked marks.new [] }
    ensures long { length marks.new ≡ length marks.old }
{
    for fact in facts {
        marks[*fact as usize] = false;
    }
}

/// The numbers of the facts of two lists, each once, in order of first occurrence.
///
/// Takes time linear in the lists: a mark says whether a fact is there already. The marks are clear
/// before and after.
pub fn conditions(
    alloc: Global,
    offsets: &[u32],
    marks: &mut [bool],
    first: &[Fact],
    second: &[Fact],
) -> Result<Seq<u32>, AllocError>
    requires few { length marks.old ≤ MOST_FACTS }
    requires first { IsTrue (have_numbers offsets.now (length marks.old) first.now) }
    requires second { IsTrue (have_numbers offsets.now (length marks.old) second.now) }
    requires clear { AreMarked marks.old [] }
    ensures facts { IfOk result
        (λ facts. facts ≡ distinct (all_numbers_by offsets.now (first.now ++ second.now))) }
    ensures clear { OnOk result (AreMarked marks.new []) }
    ensures long { length marks.new ≡ length marks.old }
{
    let mut facts = Vec::with_capacity(alloc, first.len() + second.len())?;
    add_facts(offsets, marks, &mut facts, first)?;
    add_facts(offsets, marks, &mut facts, second)?;
    clear(marks, &facts);
    Ok(Seq::from(facts))
}
