// Readers of lists of facts: mutex groups, the goal, and conditions.
ghost use Rattle.std.specs.Prelude.{◌≡◌};
ghost use Rattle.lama_num.specs.Gives.{Gives};
ghost use Rattle.sas_reader.specs.Formats.{FactIn, line, times};
ghost use Rattle.sas_reader.specs.Reading.{AreVariables};
ghost use Rattle.sas_reader.specs.TaskText.{facts as the_facts, group as the_group};
ghost use Rattle.sas_reader.specs.TaskText.{groups as the_groups, goal as the_goal};
ghost use Rattle.sas_reader.specs.Walks.{fault_of, walk};

use crate::facts::read_fact;
use crate::faults::SasError;
use crate::fields::{read_begin, read_count, read_end};
use crate::sections::Section;
use lama_num::Seq;
use sas_task::{Fact, MOST_LISTED, Variable, What};
use std::alloc::Global;
use text_lines::Cursor;

#[tactic(auto, using(crate::proofs::FormatWalks::loop_more, crate::proofs::FormatWalks::loop_none))]
fn read_so_many_facts(
    alloc: Global,
    cursor: &mut Cursor,
    variables: &[Variable],
    count: u64,
) -> Result<Vec<Fact>, SasError>
    requires { AreVariables variables.now }
    ensures { Gives fault_of (λ facts. (facts.items, cursor.new)) result
        (walk (times count (line (FactIn variables.now))) cursor.old) }
{
    let mut facts = Vec::new(alloc);
    for _i in 0..count {
        match read_fact(cursor, variables) {
            Ok(fact) => facts.push(fact)?,
            Err(e) => return Err(e),
        }
    }
    Ok(facts)
}

/// Facts behind their count.
#[tactic(auto, unfolding(crate::specs::TaskText::facts))]
pub fn read_facts(
    alloc: Global,
    cursor: &mut Cursor,
    what: What,
    variables: &[Variable],
) -> Result<Vec<Fact>, SasError>
    requires { AreVariables variables.now }
    ensures { Gives fault_of (λ facts. (facts.items, cursor.new)) result
        (walk (the_facts what variables.now) cursor.old) }
{
    let count = read_count(cursor, what, MOST_LISTED)?;
    read_so_many_facts(alloc, cursor, variables, count)
}

#[tactic(auto, using(crate::proofs::FormatWalks::walk_on), unfolding(crate::specs::TaskText::group))]
fn read_group(
    alloc: Global,
    cursor: &mut Cursor,
    variables: &[Variable],
) -> Result<Seq<Fact>, SasError>
    requires { AreVariables variables.now }
    ensures { Gives fault_of (λ group. (group, cursor.new)) result
        (walk (the_group variables.now) cursor.old) }
{
    read_begin(cursor, Section::MutexGroup)?;
    let facts = read_facts(alloc, cursor, What::GroupFacts, variables)?;
    read_end(cursor, Section::MutexGroup)?;
    Ok(Seq::from(facts))
}

#[tactic(auto, using(crate::proofs::FormatWalks::loops))]
fn read_so_many_groups(
    alloc: Global,
    cursor: &mut Cursor,
    variables: &[Variable],
    count: u64,
) -> Result<Vec<Seq<Fact>>, SasError>
    requires { AreVariables variables.now }
    ensures { Gives fault_of (λ groups. (groups.items, cursor.new)) result
        (walk (times count (the_group variables.now)) cursor.old) }
{
    let mut groups = Vec::new(alloc);
    for _i in 0..count {
        match read_group(alloc, cursor, variables) {
            Ok(group) => groups.push(group)?,
            Err(e) => return Err(e),
        }
    }
    Ok(groups)
}

/// The mutex groups.
#[tactic(auto, unfolding(crate::specs::TaskText::groups))]
pub fn read_groups(
    alloc: Global,
    cursor: &mut Cursor,
    variables: &[Variable],
) -> Result<Seq<Seq<Fact>>, SasError>
    requires { AreVariables variables.now }
    ensures { Gives fault_of (λ groups. (groups, cursor.new)) result
        (walk (the_groups variables.now) cursor.old) }
{
    let count = read_count(cursor, What::Groups, MOST_LISTED)?;
    let groups = read_so_many_groups(alloc, cursor, variables, count)?;
    Ok(Seq::from(groups))
}

/// The goal.
#[tactic(auto, using(crate::proofs::FormatWalks::walk_on), unfolding(crate::specs::TaskText::goal))]
pub fn read_goal(
    alloc: Global,
    cursor: &mut Cursor,
    variables: &[Variable],
) -> Result<Seq<Fact>, SasError>
    requires { AreVariables variables.now }
    ensures { Gives fault_of (λ facts. (facts, cursor.new)) result
        (walk (the_goal variables.now) cursor.old) }
{
    read_begin(cursor, Section::Goal)?;
    let facts = read_facts(alloc, cursor, What::Goals, variables)?;
    read_end(cursor, Section::Goal)?;
    Ok(Seq::from(facts))
}
