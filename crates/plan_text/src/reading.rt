// The reader of plan files.
ghost use Rattle.std.specs.Prelude.{◌≡◌, ◌+◌, ◌<◌, ◌≤◌, ◌^◌, ◌++◌, [], ◌∷◌, length, drop};
ghost use Rattle.std.specs.Prelude.{MatchOption, OnOk, IfOk};
ghost use Rattle.std.specs.List.{prefix_len};
ghost use Rattle.lama_num.specs.Decimals.{decimal_of};
ghost use Rattle.lama_num.specs.Gives.{Gives};
ghost use Rattle.text_lines.specs.Lines.{lines_of};
ghost use Rattle.plan_text.specs.PlanLines.{fault_of, is_step, names_in_front, only_empty};
ghost use Rattle.plan_text.specs.PlanLines.{or_fault, no_cost as the_no_cost, ending, plan_lines};
ghost use Rattle.plan_text.specs.PlanLines.{plan_lines_of, is_finished as finished_test};
ghost use Rattle.plan_text.specs.declared.reading.TheConstants.{MOST_PLAN_BYTES};

use crate::faults::{PlanTextError, PlanTextFault};
use crate::forms::{cost_in, step_name};
use lama_num::{Seq, read_decimal};
use std::alloc::{AllocError, Global};
use text_lines::Cursor;

/// The most bytes of a text.
pub const MOST_PLAN_BYTES: usize = 67_108_864;

/// What the lines of a plan file tell: the names of the steps, the cost, and whether every operator
/// is said to cost 1.
#[derive(Drop)]
pub struct PlanLines {
    pub names: Seq<Seq<u8>>,
    pub cost: u64,
    pub unit: bool,
}

fn name_of(alloc: Global, name: &[u8]) -> Result<Seq<u8>, AllocError>
    ensures { IfOk result (λ copy. copy ≡ name.now) }
{
    let bytes = name.to_vec(alloc)?;
    Ok(Seq::from(bytes))
}

/// Takes the steps in front, and the line behind them.
fn read_steps<'a>(
    alloc: Global,
    cursor: &mut Cursor<'a>,
    names: &mut Vec<Seq<u8>>,
) -> Result<Option<&'a [u8]>, AllocError>
    ensures names { OnOk result
        (names.new.items ≡ names.old.items ++ names_in_front cursor.old.left) }
    ensures next { IfOk result (λ next. MatchOption next
        (drop (prefix_len is_step cursor.old.left) cursor.old.left ≡ [])
        (λ line. (drop (prefix_len is_step cursor.old.left) cursor.old.left ≡
        line.now ∷ cursor.new.left)
        × (cursor.new.line ≡ cursor.old.line + prefix_len is_step cursor.old.left + 1))) }
{
    loop {
        let Some(line) = cursor.next_line() else {
            return Ok(None);
        };
        let Some(name) = step_name(line) else {
            return Ok(Some(line));
        };
        names.push(name_of(alloc, name)?)?;
    }
}

fn number_of(digits: &[u8]) -> Result<u64, PlanTextFault>
    ensures { result ≡ or_fault PlanTextFault.BadCost (decimal_of digits.now) }
{
    match read_decimal(digits) {
        Some(cost) => Ok(cost),
        None => Err(PlanTextFault::BadCost),
    }
}

/// The fault of a line that is neither a step nor the cost line, behind so many steps.
fn no_cost(cursor: &mut Cursor, steps: u64, finished: bool) -> PlanTextFault
    requires { steps < 2 ^ 63 }
    ensures { result ≡ the_no_cost finished steps cursor.old.left }
{
    if finished || cursor.next_line().is_some() {
        PlanTextFault::BadLine { line: steps + 1 }
    } else {
        PlanTextFault::CutShort
    }
}

/// Only empty lines are left.
fn read_empty(cursor: &mut Cursor) -> Result<(), PlanTextFault>
    ensures { result ≡ only_empty cursor.old.line cursor.old.left }
{
    loop {
        let line = cursor.line();
        match cursor.next_line() {
            None => return Ok(()),
            Some(text) => {
                if !text.is_empty() {
                    return Err(PlanTextFault::BadLine { line });
                }
            }
        }
    }
}

/// Reads the cost line, which stands behind so many steps, and what follows it.
fn read_ending(
    cursor: &mut Cursor,
    line: &[u8],
    steps: u64,
    finished: bool,
) -> Result<(u64, bool), PlanTextFault>
    requires steps { steps < 2 ^ 63 }
    requires place { cursor.old.line ≡ steps + 2 }
    ensures { result ≡ ending finished steps (line.now ∷ cursor.old.left) }
{
    let Some((digits, unit)) = cost_in(line) else {
        return Err(no_cost(cursor, steps, finished));
    };
    let cost = number_of(digits)?;
    read_empty(cursor)?;
    Ok((cost, unit))
}

/// Whether the last byte is a line feed.
fn is_finished(bytes: &[u8]) -> bool
    ensures { result ≡ finished_test bytes.now }
{
    !bytes.is_empty() && bytes[bytes.len() - 1] == b'\n'
}

fn read_lines(alloc: Global, bytes: &[u8]) -> Result<PlanLines, PlanTextError>
    ensures { Gives fault_of (λ lines. lines) result
        (plan_lines (finished_test bytes.now) (lines_of bytes.now)) }
{
    let mut cursor = Cursor::new(bytes);
    let mut names = Vec::new(alloc);
    let Some(line) = read_steps(alloc, &mut cursor, &mut names)? else {
        return Err(PlanTextError::Bad(PlanTextFault::CutShort));
    };
    let steps = names.len() as u64;
    let (cost, unit) = read_ending(&mut cursor, line, steps, is_finished(bytes))?;
    Ok(PlanLines {
        names: Seq::from(names),
        cost,
        unit,
    })
}

/// What the lines of a plan file tell, or the first fault.
///
/// Lines are cut at line feeds, and blanks and carriage returns at their ends are dropped. Steps
/// come first: lines in parentheses, which have a name between them. Then a line `; cost = N (unit
/// cost)` or `; cost = N (general cost)`, and behind that only empty lines. The text is read in one
/// pass.
#[tactic(auto, unfolding(crate::specs::PlanLines::plan_lines_of))]
pub fn lines(alloc: Global, bytes: &[u8]) -> Result<PlanLines, PlanTextError>
    // What the text gives, or its first fault.
    ensures exact { Gives fault_of (λ lines. lines) result (plan_lines_of bytes.now) }
    // There are no more steps than a text may have bytes.
    ensures few { IfOk result (λ lines. length lines.names ≤ MOST_PLAN_BYTES) }
{
    if bytes.len() > MOST_PLAN_BYTES {
        return Err(PlanTextError::Bad(PlanTextFault::TooLong));
    }
    read_lines(alloc, bytes)
}
