// Readers of one line each.
ghost use Rattle.std.specs.Prelude.{◌≡◌, ◌≤◌, ◌+◌, ◌<◌, IfOk, length, option_map, codes};
ghost use Rattle.std.specs.Str.{bytes_eq};
ghost use Rattle.lama_num.specs.Gives.{Gives};
ghost use Rattle.sas_task.specs.Limits.{most_listed, most_facts};
ghost use Rattle.sas_reader.specs.Formats.{Begin, End, Version, ZeroOrOne, Name as AName, Count};
ghost use Rattle.sas_reader.specs.Formats.{Layer as ALayer, Range as ARange, Below};
ghost use Rattle.sas_reader.specs.Reading.{or_fault, one_number as the_number};
ghost use Rattle.sas_reader.specs.Reading.{zero_or_one as the_zero_or_one, only_if, count_line};
ghost use Rattle.sas_reader.specs.Reading.{layer_line, range_line, value_line};
ghost use Rattle.sas_reader.specs.Reading.{at_most as the_limit, is_narrow as narrow_test};
ghost use Rattle.sas_reader.specs.Walks.{fault_of, first_line, next_by, next};

use crate::faults::{SasError, SasFault, Want};
use crate::numbers::{number_or_none, one_number};
use crate::sections::Section;
use lama_num::Seq;
use sas_task::{HIGHEST_LAYER, LONGEST_NAME, MOST_FACTS, MOST_LISTED, What};
use std::alloc::Global;
use text_lines::Cursor;

/// The next line, which has to be there.
pub fn wanted<'a>(cursor: &mut Cursor<'a>) -> Result<&'a [u8], SasError>
    ensures { Gives fault_of (λ line. (line.now, cursor.new)) result (first_line cursor.old) }
{
    let line = cursor.line();
    match cursor.next_line() {
        Some(text) => Ok(text),
        None => Err(SasError::Bad(SasFault::CutShort { line })),
    }
}

/// A quantity within its limit.
pub fn at_most(what: What, most: usize, count: u64) -> Result<(), SasFault>
    ensures { result ≡ the_limit what most count }
{
    if count <= most as u64 {
        Ok(())
    } else {
        Err(SasFault::TooLarge { what, count })
    }
}

fn number(line: u64, text: &[u8]) -> Result<u64, SasFault>
    ensures { result ≡ or_fault (SasFault.BadNumber line) (the_number text.now) }
{
    match one_number(text) {
        Some(n) => Ok(n),
        None => Err(SasFault::BadNumber { line }),
    }
}

/// A line that has to be a text.
#[tactic(auto, unfolding(crate::specs::Walks::next_by))]
fn expected(cursor: &mut Cursor, text: &[u8], want: Want) -> Result<(), SasError>
    ensures { Gives fault_of (λ _. (tt, cursor.new)) result
        (next_by (λ n line. only_if (bytes_eq line text.now) (SasFault.BadLine n want))
        cursor.old) }
{
    let line = cursor.line();
    if wanted(cursor)? == text {
        Ok(())
    } else {
        Err(SasError::Bad(SasFault::BadLine { line, want }))
    }
}

/// The word that begins a part.
#[tactic(auto, unfolding(crate::specs::Walks::next_by, crate::specs::Reading::begin_line))]
pub fn read_begin(cursor: &mut Cursor, section: Section) -> Result<(), SasError>
    ensures { Gives fault_of (λ _. (tt, cursor.new)) result (next (Begin section) cursor.old) }
{
    expected(cursor, section.begin(), Want::Word)
}

/// The word that ends a part.
#[tactic(auto, unfolding(crate::specs::Walks::next_by, crate::specs::Reading::end_line))]
pub fn read_end(cursor: &mut Cursor, section: Section) -> Result<(), SasError>
    ensures { Gives fault_of (λ _. (tt, cursor.new)) result (next (End section) cursor.old) }
{
    expected(cursor, section.end(), Want::Word)
}

/// The version, 3.
#[tactic(auto, unfolding(crate::specs::Walks::next_by, crate::specs::Reading::version_line))]
pub fn read_three(cursor: &mut Cursor) -> Result<(), SasError>
    ensures { Gives fault_of (λ _. (tt, cursor.new)) result (next Version cursor.old) }
{
    expected(cursor, b"3", Want::Version)
}

fn zero_or_one(text: &[u8]) -> Option<bool>
    ensures { result ≡ the_zero_or_one text.now }
{
    if text == b"0".as_slice() {
        Some(false)
    } else if text == b"1".as_slice() {
        Some(true)
    } else {
        None
    }
}

/// Reads a line that is `0` or `1`.
#[tactic(auto, unfolding(crate::specs::Walks::next_by, crate::specs::Reading::metric_line))]
pub fn read_zero_or_one(cursor: &mut Cursor) -> Result<bool, SasError>
    ensures { Gives fault_of (λ b. (b, cursor.new)) result (next ZeroOrOne cursor.old) }
{
    let line = cursor.line();
    match zero_or_one(wanted(cursor)?) {
        Some(b) => Ok(b),
        None => Err(SasError::Bad(SasFault::BadLine {
            line,
            want: Want::Metric,
        })),
    }
}

/// A name, copied.
#[tactic(auto, unfolding(crate::specs::Walks::next_by, crate::specs::Reading::name_line))]
pub fn read_name(alloc: Global, cursor: &mut Cursor) -> Result<Seq<u8>, SasError>
    ensures { Gives fault_of (λ name. (name, cursor.new)) result (next AName cursor.old) }
{
    let line = cursor.line();
    let name = wanted(cursor)?;
    if name.is_empty() {
        return Err(SasError::Bad(SasFault::BadLine {
            line,
            want: Want::Name,
        }));
    }
    at_most(What::Name, LONGEST_NAME, name.len() as u64)?;
    Ok(Seq::from(Vec::from_slice(alloc, name)?))
}

/// A line as a number, up to a limit.
#[tactic(auto, unfolding(crate::specs::Reading::count_line))]
fn line_as_count(what: What, most: usize, line: u64, text: &[u8]) -> Result<u64, SasFault>
    ensures count { result ≡ count_line what most line text.now }
    ensures few { IfOk result (λ n. n ≤ most) }
{
    let count = number(line, text)?;
    at_most(what, most, count)?;
    Ok(count)
}

/// One number, up to a limit.
#[tactic(auto, unfolding(crate::specs::Walks::next_by))]
pub fn read_count(cursor: &mut Cursor, what: What, most: usize) -> Result<u64, SasError>
    ensures count { Gives fault_of (λ n. (n, cursor.new)) result
        (next (Count what most) cursor.old) }
    ensures few { IfOk result (λ n. n ≤ most) }
{
    let line = cursor.line();
    let text = wanted(cursor)?;
    Ok(line_as_count(what, most, line, text)?)
}

/// A line as a layer, or `None` where it is `-1`.
#[tactic(auto, unfolding(crate::specs::Reading::layer_line))]
fn line_as_layer(line: u64, text: &[u8]) -> Result<Option<u32>, SasFault>
    ensures { result ≡ layer_line line text.now }
{
    match number_or_none(text) {
        None => Err(SasFault::BadNumber { line }),
        Some(None) => Ok(None),
        Some(Some(layer)) => {
            at_most(What::Layer, HIGHEST_LAYER as usize, layer)?;
            Ok(Some(layer as u32))
        }
    }
}

/// The layer of a variable that is derived, or `-1`.
#[tactic(auto, unfolding(crate::specs::Walks::next_by))]
pub fn read_layer(cursor: &mut Cursor) -> Result<Option<u32>, SasError>
    ensures { Gives fault_of (λ layer. (layer, cursor.new)) result (next ALayer cursor.old) }
{
    let line = cursor.line();
    let text = wanted(cursor)?;
    Ok(line_as_layer(line, text)?)
}

/// A derived variable has two values.
fn is_narrow(layer: Option<u32>, range: u64) -> bool
    ensures { result ≡ narrow_test layer range }
{
    layer.is_none() || range == 2
}

/// A line as a variable's number of values.
#[tactic(auto, unfolding(crate::specs::Reading::range_line))]
fn line_as_range(
    var: u32,
    layer: Option<u32>,
    facts: u64,
    line: u64,
    text: &[u8],
) -> Result<u64, SasFault>
    requires { facts ≤ most_facts }
    ensures range { result ≡ range_line var layer facts line text.now }
    ensures few { IfOk result (λ range. (range ≤ most_listed) × (facts + range ≤ most_facts)) }
{
    let range = number(line, text)?;
    if range == 0 {
        return Err(SasFault::BadNumber { line });
    }
    at_most(What::Range, MOST_LISTED, range)?;
    at_most(What::Facts, MOST_FACTS, facts + range)?;
    if is_narrow(layer, range) {
        Ok(range)
    } else {
        Err(SasFault::WideDerived { var })
    }
}

/// The number of values of the variable with this number and this layer, which comes behind so many
/// facts.
#[tactic(auto, unfolding(crate::specs::Walks::next_by))]
pub fn read_range(
    cursor: &mut Cursor,
    var: u32,
    layer: Option<u32>,
    facts: u64,
) -> Result<u64, SasError>
    requires { facts ≤ most_facts }
    ensures range { Gives fault_of (λ range. (range, cursor.new)) result
        (next (ARange var layer facts) cursor.old) }
    ensures few { IfOk result (λ range. (range ≤ most_listed) × (facts + range ≤ most_facts)) }
{
    let line = cursor.line();
    let text = wanted(cursor)?;
    Ok(line_as_range(var, layer, facts, line, text)?)
}

/// A line as a value below a range.
#[tactic(auto, unfolding(crate::specs::Reading::value_line))]
fn line_as_value(range: usize, line: u64, text: &[u8]) -> Result<u32, SasFault>
    requires { range ≤ most_listed }
    ensures { result ≡ value_line range line text.now }
{
    let value = number(line, text)?;
    if value < range as u64 {
        Ok(value as u32)
    } else {
        Err(SasFault::BadFact { line })
    }
}

/// A value below a range.
#[tactic(auto, unfolding(crate::specs::Walks::next_by))]
pub fn read_value(cursor: &mut Cursor, range: usize) -> Result<u32, SasError>
    requires { range ≤ most_listed }
    ensures { Gives fault_of (λ value. (value, cursor.new)) result (next (Below range) cursor.old) }
{
    let line = cursor.line();
    let text = wanted(cursor)?;
    Ok(line_as_value(range, line, text)?)
}
