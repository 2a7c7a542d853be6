// The text of a plan, taken piece by piece without memory.
ghost use Rattle.std.specs.Prelude.{◌≡◌, ◌<◌, ◌≤◌, ◌^◌, ◌++◌, [], length, IsTrue, false};
ghost use Rattle.sas_task.specs.Costs.{is_unit_cost};
ghost use Rattle.sas_task.specs.Runs.{cost_of as the_cost};
ghost use Rattle.plan_text.specs.PlanText.{cost_line, name_at, plan_text};
ghost use Rattle.plan_text.specs.PlanText.{kind_of_cost as the_kind};
ghost use Rattle.plan_manager.specs.TextRests.{line_left, lines_left, text_left};

use arrayvec::{ArrayString, ArrayVec};
use itoa::Buffer;
use sas_task::{CostKind, Parts, Task};

/// Bytes on their way to a file, or to be compared with one's.
pub(crate) type Window = ArrayVec<u8, 8192>;

fn kind_of_cost(unit: bool) -> &'static str
    ensures kind { result.now ≡ the_kind unit }
    ensures short { length result.now < 20 }
{
    if unit {
        " (unit cost)\n"
    } else {
        " (general cost)\n"
    }
}

/// What steps cost together. As many as there may be fit 128 bits.
fn cost_of(task: &Task, ops: &[u32]) -> u128
    ensures { result ≡ the_cost task.now ops.now }
{
    let mut cost: u128 = 0;
    for op in ops {
        cost += u128::from(task.adjusted_cost(*op, CostKind::Normal));
    }
    cost
}

/// The last line of a plan's text.
pub(crate) fn last_line(task: &Task, ops: &[u32]) -> ArrayString<64>
    ensures { result.bytes ≡ cost_line (is_unit_cost task.now) (the_cost task.now ops.now) }
{
    let mut digits = Buffer::new();
    let mut text = ArrayString::new();
    text.push_str("; cost = ");
    text.push_str(digits.format(cost_of(task, ops)));
    text.push_str(kind_of_cost(task.is_unit_cost()));
    text
}

/// Moves as many bytes to the window as it has room for, and gives the others back.
fn put_part<'a>(window: &mut Window, part: &'a [u8]) -> &'a [u8]
    ensures moved { window.new.items ++ result.now ≡ window.old.items ++ part.now }
    ensures full { length window.new.items < 8192 → result.now ≡ [] }
    ensures stuck { 8192 ≤ length window.old.items
        → (window.new.items ≡ window.old.items) × (result.now ≡ part.now) }
{
    let count = part.len().min(window.remaining_capacity());
    let _fits = window.try_extend_from_slice(&part[..count]);
    &part[count..]
}

/// What is left of a plan's text: three parts of the line at hand, the steps after it, and the
/// last line, where it isn't at hand.
#[derive(Drop)]
pub(crate) struct TextRest<'a> {
    parts: &'a Parts,
    first: &'a [u8],
    second: &'a [u8],
    third: &'a [u8],
    ops: &'a [u32],
    cost: &'a [u8],
}

/// The name of an operator.
fn name_of(parts: &Parts, op: u32) -> &[u8]
    ensures { result.now ≡ name_at parts.now op }
{
    match parts.operators.as_slice().get(op as usize) {
        Some(operator) => operator.name.as_slice(),
        None => &[],
    }
}

impl<'a> TextRest<'a> {
    /// The whole text of steps, with the last line.
    pub(crate) fn new(task: &'a Task, ops: &'a [u32], cost: &'a [u8]) -> TextRest<'a>
        requires { cost.now ≡ cost_line (is_unit_cost task.now) (the_cost task.now ops.now) }
        ensures text { text_left result ≡ plan_text task.now ops.now }
        ensures short { length ops.now < 2 ^ 32 → length cost.now ≤ 64
            → length (text_left result) < 2 ^ 63 }
    {
        TextRest {
            parts: task.parts(),
            first: &[],
            second: &[],
            third: &[],
            ops,
            cost,
        }
    }

    /// Moves as much of the line at hand as there is room for.
    fn put_line(&mut self, window: &mut Window)
        ensures moved { window.new.items ++ text_left self.new
            ≡ window.old.items ++ text_left self.old }
        ensures full { length window.new.items < 8192 → line_left self.new ≡ [] }
        ensures lines { lines_left self.new ≡ lines_left self.old }
    {
        self.first = put_part(window, self.first);
        self.second = put_part(window, self.second);
        self.third = put_part(window, self.third);
    }

    /// Takes the next line to hand, if there is one.
    fn next_line(&mut self) -> bool
        requires { line_left self.old ≡ [] }
        ensures same { text_left self.new ≡ text_left self.old }
        ensures fewer { IsTrue result → lines_left self.new < lines_left self.old }
        ensures none { result ≡ false → text_left self.old ≡ [] }
    {
        if !self.ops.is_empty() {
            let name = name_of(self.parts, self.ops[0]);
            self.first = b"(";
            self.second = name;
            self.third = b")\n";
            self.ops = &self.ops[1..];
            return true;
        }
        self.first = self.cost;
        self.cost = &[];
        !self.first.is_empty()
    }

    /// Moves bytes to the window until it is full or nothing is left.
    pub(crate) fn fill(&mut self, window: &mut Window)
        ensures moved { window.new.items ++ text_left self.new
            ≡ window.old.items ++ text_left self.old }
        ensures all { length window.new.items < 8192 → text_left self.new ≡ [] }
    {
        self.put_line(window);
        while !window.is_full() {
            if !self.next_line() {
                return;
            }
            self.put_line(window);
        }
    }
}
