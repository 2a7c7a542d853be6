// The reader of whole texts.
ghost use Rattle.std.specs.Prelude.{◌≡◌, ◌≤◌, IfOk, None};
ghost use Rattle.lama_num.specs.Gives.{Gives};
ghost use Rattle.text_lines.specs.Lines.{lines_of};
ghost use Rattle.sas_reader.specs.FirstFault.{IsTextOf, IsFirstFaultOf, Reads, ExactlyOne};
ghost use Rattle.sas_reader.specs.Reading.{AreVariables};
ghost use Rattle.sas_reader.specs.TaskText.{opening as the_opening, ends as the_ends};
ghost use Rattle.sas_reader.specs.TaskText.{rest as the_rest, task as the_task};
ghost use Rattle.sas_reader.specs.Walks.{fault_of, walk, trailing, parts_in, parts_of, task_of};
ghost use Rattle.sas_reader.specs.declared.faults.SasFault.{SasFault as TheFault};
ghost use Rattle.sas_task.specs.Refusals.{canonical_parts, refusal_of};

use crate::conditions::{read_goal, read_groups};
use crate::faults::{SasError, SasFault};
use crate::operators::{read_operators, read_rules};
use crate::variables::{read_metric, read_state, read_variables, read_version};
use lama_num::Seq;
use sas_task::{Fact, Parts, Task, Variable, What, accepted};
use std::alloc::Global;
use text_lines::Cursor;

/// The most bytes of a text.
pub const MOST_BYTES: usize = 268_435_456;

/// What stands before the mutex groups.
#[derive(Drop)]
struct Opening {
    metric: bool,
    variables: Vec<Variable>,
}

#[tactic(auto, using(crate::proofs::FormatWalks::walk_on), unfolding(crate::specs::TaskText::opening))]
fn read_opening(alloc: Global, cursor: &mut Cursor) -> Result<Opening, SasError>
    ensures opening { Gives fault_of (λ o. ((o.metric, o.variables.items), cursor.new)) result
        (walk the_opening cursor.old) }
    ensures known { IfOk result (λ o. AreVariables o.variables.items) }
{
    read_version(cursor)?;
    let metric = read_metric(cursor)?;
    let variables = read_variables(alloc, cursor)?;
    Ok(Opening { metric, variables })
}

/// Where a plan begins, and where it leads.
#[derive(Drop)]
struct Ends {
    init: Seq<u32>,
    goal: Seq<Fact>,
}

#[tactic(auto, using(crate::proofs::FormatWalks::walk_on), unfolding(crate::specs::TaskText::ends))]
fn read_ends(alloc: Global, cursor: &mut Cursor, variables: &[Variable]) -> Result<Ends, SasError>
    requires { AreVariables variables.now }
    ensures { Gives fault_of (λ e. ((e.init, e.goal), cursor.new)) result
        (walk (the_ends variables.now) cursor.old) }
{
    let init = read_state(alloc, cursor, variables)?;
    let goal = read_goal(alloc, cursor, variables)?;
    Ok(Ends { init, goal })
}

#[tactic(auto, using(crate::proofs::FormatWalks::walk_on), unfolding(crate::specs::TaskText::rest))]
fn read_rest(alloc: Global, cursor: &mut Cursor, opening: Opening) -> Result<Parts, SasError>
    requires { AreVariables opening.variables.items }
    ensures { Gives fault_of (λ parts. (parts, cursor.new)) result
        (walk (the_rest opening.metric opening.variables.items) cursor.old) }
{
    let Opening { metric, variables } = opening;
    let groups = read_groups(alloc, cursor, &variables)?;
    let ends = read_ends(alloc, cursor, &variables)?;
    let operators = read_operators(alloc, cursor, metric, &variables)?;
    let rules = read_rules(alloc, cursor, &variables, &ends.init)?;
    Ok(Parts {
        metric,
        variables: Seq::from(variables),
        groups,
        init: ends.init,
        goal: ends.goal,
        operators,
        rules,
    })
}

#[tactic(auto, using(crate::proofs::FormatWalks::walk_on), unfolding(crate::specs::TaskText::task))]
fn read_task(alloc: Global, cursor: &mut Cursor) -> Result<Parts, SasError>
    ensures { Gives fault_of (λ parts. (parts, cursor.new)) result (walk the_task cursor.old) }
{
    let opening = read_opening(alloc, cursor)?;
    read_rest(alloc, cursor, opening)
}

/// Only empty lines are left.
fn read_trailing(cursor: &mut Cursor) -> Result<(), SasError>
    ensures { Gives fault_of (λ _. tt) result (trailing cursor.old.line cursor.old.left) }
{
    loop {
        let line = cursor.line();
        match cursor.next_line() {
            None => return Ok(()),
            Some(text) => {
                if !text.is_empty() {
                    return Err(SasError::Bad(SasFault::Trailing { line }));
                }
            }
        }
    }
}

#[tactic(auto, unfolding(crate::specs::Walks::parts_in))]
fn read_lines(alloc: Global, bytes: &[u8]) -> Result<Parts, SasError>
    ensures { Gives fault_of (λ parts. parts) result (parts_in (lines_of bytes.now)) }
{
    let mut cursor = Cursor::new(bytes);
    let parts = read_task(alloc, &mut cursor)?;
    read_trailing(&mut cursor)?;
    Ok(parts)
}

#[tactic(auto, unfolding(crate::specs::Walks::parts_of))]
fn read_parts(alloc: Global, bytes: &[u8]) -> Result<Parts, SasError>
    ensures { Gives fault_of (λ parts. parts) result (parts_of bytes.now) }
{
    if bytes.len() > MOST_BYTES {
        return Err(SasError::Bad(SasFault::TooLarge {
            what: What::Bytes,
            count: bytes.len() as u64,
        }));
    }
    read_lines(alloc, bytes)
}

#[tactic(auto, unfolding(crate::specs::Walks::task_of))]
fn read_accepted(alloc: Global, bytes: &[u8]) -> Result<Task, SasError>
    ensures { Gives fault_of (λ task. task) result (task_of bytes.now) }
{
    let parts = read_parts(alloc, bytes)?;
    Ok(accepted(parts))
}

/// The task that the bytes are the text of, or the first fault.
///
/// The format is that of the translator of Fast Downward, version 3 of its output. Blanks and
/// carriage returns at both ends of a line, several blanks between numbers, a wanting last line
/// feed and empty lines at the end are no faults. The text is read in one pass, and takes no memory
/// that only its counts promise.
pub fn read(alloc: Global, bytes: &[u8]) -> Result<Task, SasError>
    // The task of the text, or its first fault.
    ensures exact { Gives fault_of (λ task. task) result (task_of bytes.now) }
    // Each line is what the lines before it want.
    ensures text { IfOk result (λ task. IsTextOf bytes.now task) }
    // The fault is that of the first line that isn't.
    ensures first { (fault : TheFault) →
        result ≡ Err (SasError.Bad fault) → IsFirstFaultOf bytes.now fault }
    // Bytes are the text of one task or have one first fault, and never both.
    ensures decided { ExactlyOne (Reads bytes.now) }
{
    read_accepted(alloc, bytes)
}
