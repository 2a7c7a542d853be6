// Readers of the parts up to the variables, and of the initial state.
ghost use Rattle.std.specs.Prelude.{◌≡◌, ◌≤◌, ◌+◌, IfOk, length};
ghost use Rattle.lama_num.specs.Gives.{Gives};
ghost use Rattle.sas_task.specs.Limits.{most_variables, most_listed, most_facts};
ghost use Rattle.sas_reader.specs.Formats.{Name, line, times, each};
ghost use Rattle.sas_reader.specs.Reading.{AreVariables};
ghost use Rattle.sas_reader.specs.TaskText.{version as the_version, metric as the_metric};
ghost use Rattle.sas_reader.specs.TaskText.{variable as the_variable, variables_from};
ghost use Rattle.sas_reader.specs.TaskText.{variables as the_variables, state as the_state};
ghost use Rattle.sas_reader.specs.TaskText.{initial};
ghost use Rattle.sas_reader.specs.Walks.{fault_of, walk};

use crate::faults::SasError;
use crate::fields::{
    read_begin, read_count, read_end, read_layer, read_name, read_range, read_three, read_value,
    read_zero_or_one,
};
use crate::sections::Section;
use lama_num::Seq;
use sas_task::{MOST_VARIABLES, Variable, What};
use std::alloc::Global;
use text_lines::Cursor;

/// Reads the section of the version, which is 3.
#[tactic(auto, unfolding(crate::specs::TaskText::version))]
pub fn read_version(cursor: &mut Cursor) -> Result<(), SasError>
    ensures { Gives fault_of (λ _. (tt, cursor.new)) result (walk the_version cursor.old) }
{
    read_begin(cursor, Section::Version)?;
    read_three(cursor)?;
    read_end(cursor, Section::Version)?;
    Ok(())
}

/// Whether there is a metric.
#[tactic(auto, unfolding(crate::specs::TaskText::metric))]
pub fn read_metric(cursor: &mut Cursor) -> Result<bool, SasError>
    ensures { Gives fault_of (λ m. (m, cursor.new)) result (walk the_metric cursor.old) }
{
    read_begin(cursor, Section::Metric)?;
    let metric = read_zero_or_one(cursor)?;
    read_end(cursor, Section::Metric)?;
    Ok(metric)
}

#[tactic(auto, using(crate::proofs::FormatWalks::loop_more, crate::proofs::FormatWalks::loop_none))]
fn read_names(alloc: Global, cursor: &mut Cursor, count: u64) -> Result<Vec<Seq<u8>>, SasError>
    ensures names { Gives fault_of (λ names. (names.items, cursor.new)) result
        (walk (times count (line Name)) cursor.old) }
    ensures so_many { IfOk result (λ names. length names.items ≡ count) }
{
    let mut names = Vec::new(alloc);
    for _i in 0..count {
        match read_name(alloc, cursor) {
            Ok(name) => names.push(name)?,
            Err(e) => return Err(e),
        }
    }
    Ok(names)
}

/// The variable with this number, behind so many facts.
#[tactic(auto, using(crate::proofs::FormatWalks::walk_on), unfolding(crate::specs::TaskText::variable))]
fn read_variable(
    alloc: Global,
    cursor: &mut Cursor,
    var: u32,
    before: u64,
) -> Result<Variable, SasError>
    requires { before ≤ most_facts }
    ensures variable { Gives fault_of (λ v. (v, cursor.new)) result
        (walk (the_variable var before) cursor.old) }
    ensures few { IfOk result (λ v. before + length v.values ≤ most_facts) }
{
    read_begin(cursor, Section::Variable)?;
    let name = read_name(alloc, cursor)?;
    let layer = read_layer(cursor)?;
    let range = read_range(cursor, var, layer, before)?;
    let values = read_names(alloc, cursor, range)?;
    read_end(cursor, Section::Variable)?;
    Ok(Variable {
        name,
        layer,
        values: Seq::from(values),
    })
}

#[tactic(auto, using(crate::proofs::Parts::variables_loop))]
fn read_so_many_variables(
    alloc: Global,
    cursor: &mut Cursor,
    count: u64,
) -> Result<Vec<Variable>, SasError>
    requires { count ≤ most_variables }
    ensures { Gives fault_of (λ vs. (vs.items, cursor.new)) result
        (walk (variables_from count 0 0) cursor.old) }
{
    let mut variables = Vec::new(alloc);
    let mut facts: u64 = 0;
    for i in 0..count {
        match read_variable(alloc, cursor, i as u32, facts) {
            Ok(variable) => {
                facts += variable.values.len() as u64;
                variables.push(variable)?;
            }
            Err(e) => return Err(e),
        }
    }
    Ok(variables)
}

/// The variables.
#[tactic(auto, unfolding(crate::specs::TaskText::variables))]
pub fn read_variables(alloc: Global, cursor: &mut Cursor) -> Result<Vec<Variable>, SasError>
    ensures variables { Gives fault_of (λ vs. (vs.items, cursor.new)) result
        (walk the_variables cursor.old) }
    ensures known { IfOk result (λ vs. AreVariables vs.items) }
{
    let count = read_count(cursor, What::Variables, MOST_VARIABLES)?;
    read_so_many_variables(alloc, cursor, count)
}

#[tactic(auto, using(crate::proofs::FormatWalks::row_none))]
fn read_values(
    alloc: Global,
    cursor: &mut Cursor,
    variables: &[Variable],
) -> Result<Vec<u32>, SasError>
    requires { AreVariables variables.now }
    ensures { Gives fault_of (λ values. (values.items, cursor.new)) result
        (walk (each initial variables.now) cursor.old) }
{
    let mut values = Vec::new(alloc);
    for variable in variables {
        match read_value(cursor, variable.values.len()) {
            Ok(value) => values.push(value)?,
            Err(e) => return Err(e),
        }
    }
    Ok(values)
}

/// The initial values.
#[tactic(auto, using(crate::proofs::FormatWalks::walk_on), unfolding(crate::specs::TaskText::state))]
pub fn read_state(
    alloc: Global,
    cursor: &mut Cursor,
    variables: &[Variable],
) -> Result<Seq<u32>, SasError>
    requires { AreVariables variables.now }
    ensures { Gives fault_of (λ values. (values, cursor.new)) result
        (walk (the_state variables.now) cursor.old) }
{
    read_begin(cursor, Section::State)?;
    let values = read_values(alloc, cursor, variables)?;
    read_end(cursor, Section::State)?;
    Ok(Seq::from(values))
}
