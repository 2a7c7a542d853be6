// The values of a line.
ghost use Rattle.std.specs.Prelude.{◌≡◌, ◌*◌, ◌≤◌, IfOk, IfSome, codes, is_some, option_and_then};
ghost use Rattle.std.specs.Prelude.{option_map, unwrap_or};
ghost use Rattle.lama_num.specs.Decimals.{decimal_of};
ghost use Rattle.lama_num.specs.Names.{base_of};
ghost use Rattle.run_words.specs.Requests.{needed as value_needed, wanted};
ghost use Rattle.run_words.specs.Requests.{up_to as the_number_up_to, number_to as the_number};
ghost use Rattle.run_words.specs.Requests.{unit_of, seconds_of, limit_of, kib_of, refused_if};
ghost use Rattle.run_words.specs.Requests.{is_no_name, values_of};
ghost use Rattle.run_words.specs.Accepted.{IsBase, IsLimit, IsMade, IsMemory, AreWithin};
ghost use Rattle.run_words.specs.Seen.{seen, text_of};
ghost use Rattle.run_words.specs.declared.faults.Opt.TheVariants.{PlanFile, Bound, TimeLimit};
ghost use Rattle.run_words.specs.declared.faults.Opt.TheVariants.{ChildMemory, Gen};
ghost use Rattle.run_words.specs.declared.faults.WordsFault.TheVariants.{BadValue};

use crate::faults::{Opt, WordsFault};
use crate::line::Given;
use crate::names::is_file_name;
use lama_num::{NameBuf, read_decimal};

/// The values of a line, once they are read.
#[derive(Drop)]
pub struct Values {
    pub base: NameBuf,
    pub bound: Option<u64>,
    /// In milliseconds.
    pub limit: Option<u64>,
    pub child_kib: Option<u32>,
    pub made: Option<u32>,
}

fn up_to(most: u64, n: u64) -> Option<u64>
    ensures same { result ≡ the_number_up_to most n }
    ensures within { IfSome result (λ n. (1 ≤ n) × (n ≤ most)) }
{
    if 1 <= n && n <= most { Some(n) } else { None }
}

/// A decimal from 1 to `most`.
fn number_to(most: u64, text: &str) -> Option<u64>
    ensures same { result ≡ the_number most text.now }
    ensures within { IfSome result (λ n. (1 ≤ n) × (n ≤ most)) }
{
    up_to(most, read_decimal(text.as_bytes())?)
}

/// The seconds of a second, a minute and an hour.
fn unit(letter: u8) -> Option<u64>
    ensures { result ≡ unit_of letter }
{
    match letter {
        b's' => Some(1),
        b'm' => Some(60),
        b'h' => Some(3600),
        _ => None,
    }
}

/// A decimal of units, in seconds.
fn seconds_in(digits: &[u8], unit: u64) -> Option<u64>
    ensures same { result
        ≡ option_and_then (the_number_up_to 1000000)
        (option_map (λ n. n * unit) (decimal_of digits.now)) }
    ensures within { IfSome result (λ n. (1 ≤ n) × (n ≤ 1000000)) }
{
    up_to(1_000_000, read_decimal(digits)?.checked_mul(unit)?)
}

fn seconds(text: &[u8]) -> Option<u64>
    ensures same { result ≡ option_and_then (the_number_up_to 1000000) (seconds_of text.now) }
    ensures within { IfSome result (λ n. (1 ≤ n) × (n ≤ 1000000)) }
{
    let (last, front) = text.split_last()?;
    match unit(*last) {
        Some(unit) => seconds_in(front, unit),
        None => up_to(1_000_000, read_decimal(text)?),
    }
}

fn milliseconds(text: &str) -> Option<u64>
    ensures same { result ≡ limit_of text.now }
    ensures within { IfSome result IsLimit }
{
    Some(seconds(text.as_bytes())? * 1000)
}

fn kib(text: &str) -> Option<u32>
    ensures same { result ≡ kib_of text.now }
    ensures within { IfSome result IsMemory }
{
    Some((number_to(1_048_576, text)? * 1024) as u32)
}

fn packages(text: &str) -> Option<u32>
    ensures same { result ≡ the_number 100 text.now }
    ensures within { IfSome result IsMade }
{
    Some(number_to(100, text)? as u32)
}

fn needed<T>(opt: Opt, value: Option<T>) -> Result<T, WordsFault>
    ensures { result ≡ value_needed opt value }
{
    value.ok_or(WordsFault::BadValue(opt))
}

fn base(text: Option<&str>) -> Result<NameBuf, WordsFault>
    ensures same { result
        ≡ value_needed PlanFile (base_of (unwrap_or (text_of text.entry) (codes "sas_plan"))) }
    ensures within { IfOk result IsBase }
{
    needed(Opt::PlanFile, NameBuf::new(text.unwrap_or("sas_plan")))
}

fn bound(text: Option<&str>) -> Result<Option<u64>, WordsFault>
    ensures { result ≡ wanted Bound decimal_of (text_of text.entry) }
{
    match text {
        None => Ok(None),
        Some(text) => Ok(Some(needed(Opt::Bound, read_decimal(text.as_bytes()))?)),
    }
}

fn limit(text: Option<&str>) -> Result<Option<u64>, WordsFault>
    ensures same { result ≡ wanted TimeLimit limit_of (text_of text.entry) }
    ensures within { IfOk result (λ limit. IfSome limit IsLimit) }
{
    match text {
        None => Ok(None),
        Some(text) => Ok(Some(needed(Opt::TimeLimit, milliseconds(text))?)),
    }
}

fn child_kib(text: Option<&str>) -> Result<Option<u32>, WordsFault>
    ensures same { result ≡ wanted ChildMemory kib_of (text_of text.entry) }
    ensures within { IfOk result (λ kib. IfSome kib IsMemory) }
{
    match text {
        None => Ok(None),
        Some(text) => Ok(Some(needed(Opt::ChildMemory, kib(text))?)),
    }
}

fn made(text: Option<&str>) -> Result<Option<u32>, WordsFault>
    ensures same { result ≡ wanted Gen (the_number 100) (text_of text.entry) }
    ensures within { IfOk result (λ made. IfSome made IsMade) }
    ensures given { IfOk result (λ made. is_some made ≡ is_some text.entry) }
{
    match text {
        None => Ok(None),
        Some(text) => Ok(Some(needed(Opt::Gen, packages(text))?)),
    }
}

fn file_name(opt: Opt, name: Option<&str>) -> Result<(), WordsFault>
    ensures { result ≡ refused_if (BadValue opt) (is_no_name (text_of name.entry)) }
{
    match name {
        Some(name) if !is_file_name(name.as_bytes()) => Err(WordsFault::BadValue(opt)),
        _ => Ok(()),
    }
}

/// The values of a line, or the first that can't be read or is out of range.
#[tactic(auto, unfolding(crate::specs::Requests::values_of))]
pub fn read_values(given: &Given) -> Result<Values, WordsFault>
    ensures same { result ≡ values_of (seen given.now) }
    ensures within { IfOk result AreWithin }
    ensures made { IfOk result (λ values. is_some values.made ≡ is_some (seen given.now).made) }
{
    let base = base(given.plan_file)?;
    let bound = bound(given.bound)?;
    let limit = limit(given.time_limit)?;
    let child_kib = child_kib(given.child_memory)?;
    let made = made(given.made)?;
    file_name(Opt::TaskName, given.task)?;
    file_name(Opt::PortfolioName, given.portfolio)?;
    Ok(Values {
        base,
        bound,
        limit,
        child_kib,
        made,
    })
}
