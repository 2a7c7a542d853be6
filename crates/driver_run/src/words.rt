// The words of the command line.
ghost use Rattle.std.specs.Prelude.{◌≡◌, ◌<◌, ◌≤◌, map, string_bytes, not, nat_eq, length, true};
ghost use Rattle.std.specs.List.{list_all};
ghost use Rattle.std.specs.Result.{result_map_both};
ghost use Rattle.driver_run.specs.Seen.{text_of, seen, seen_work};
ghost use Rattle.driver_run.specs.Words.{line_of, base_name};
ghost use Rattle.driver_run.specs.Words.{value_in, words_behind, bound_of, work_of, asked_of};
ghost use Rattle.driver_run.specs.Words.{begins_with as front_test};
ghost use Rattle.driver_run.specs.Words.{is_task_name as task_name_test};
ghost use Rattle.driver_run.specs.Words.{begins_with_dash as dash_test};
ghost use Rattle.driver_run.specs.Words.{is_plan_number as number_test};
ghost use Rattle.driver_run.specs.Words.{begins_with_digit as first_digit_test};
ghost use Rattle.driver_run.specs.Words.{is_of_child as child_test};
ghost use Rattle.driver_run.specs.Words.{is_own_ending as ending_test};
ghost use Rattle.driver_run.specs.Words.{is_own_name as own_test};

use conf_text::AliasName;
use itoa::Buffer;
use lama_num::{MOST_PLANS, read_decimal};
use run_report::{Opt, WordsFault};

/// The base of the plan files.
pub const BASE: &str = "sas_plan";

fn begins_with_dash(name: &[u8]) -> bool
    ensures { result ≡ dash_test name.now }
{
    match name.first() {
        Some(b) => *b == b'-',
        None => false,
    }
}

fn has_no_nul(name: &[u8]) -> bool
    ensures { result ≡ list_all (λ b. not (nat_eq b 0)) name.now }
{
    name.iter().all(|b| *b != 0)
}

fn is_task_name(name: &[u8]) -> bool
    ensures { result ≡ task_name_test name.now }
{
    !name.is_empty() && !begins_with_dash(name) && has_no_nul(name)
}

fn is_plan_number(digits: &[u8]) -> bool
    ensures { result ≡ number_test digits.now }
{
    match read_decimal(digits) {
        None => false,
        Some(n) => 1 <= n
            && n <= u64::from(MOST_PLANS)
            && digits == Buffer::new().format(n).as_bytes(),
    }
}

fn begins_with_digit(bytes: &[u8]) -> bool
    ensures { result ≡ first_digit_test bytes.now }
{
    match bytes.first() {
        Some(b) => b.is_ascii_digit(),
        None => false,
    }
}

fn is_of_child(bytes: &[u8]) -> bool
    ensures { result ≡ child_test bytes.now }
{
    match bytes.split_first() {
        Some((b, rest)) => *b == b'c' && begins_with_digit(rest),
        None => false,
    }
}

fn is_own_ending(bytes: &[u8]) -> bool
    ensures { result ≡ ending_test bytes.now }
{
    match bytes.split_first() {
        Some((b, rest)) => {
            *b == b'.' && (rest == b"part".as_slice() || is_plan_number(rest) || is_of_child(rest))
        }
        None => true,
    }
}

/// Whether a name is one of the run's own files: `sas_plan`, `sas_plan.part`, `sas_plan.1` to
/// `sas_plan.9999`, or one that begins as a child's.
fn is_own_name(name: &[u8]) -> bool
    ensures { result ≡ own_test base_name name.now }
{
    let base = BASE.as_bytes();
    if name.len() < base.len() {
        return false;
    }
    &name[..base.len()] == base && is_own_ending(&name[base.len()..])
}

/// What a line asks the search for.
#[derive(Clone, Copy)]
pub enum Work<'a> {
    /// A configuration that is built in.
    Alias(AliasName),
    /// The text of a configuration.
    Search(&'a str),
}

/// What the words of a line ask for.
#[derive(Clone, Copy)]
pub struct Line<'a> {
    pub work: Work<'a>,
    /// What a plan must cost less than.
    pub bound: Option<u64>,
    pub task: &'a str,
}

/// Whether the words begin with this option and a value.
fn begins_with(option: &str, words: &[String]) -> bool
    ensures same { result ≡ front_test option.now (map string_bytes words.now) }
    ensures two { result ≡ true → 2 ≤ length words.now }
{
    words.len() >= 2 && words[0].as_str() == option
}

/// The value of an option that the words begin with.
fn value<'a>(option: &str, words: &'a [String]) -> Option<&'a str>
    ensures { text_of result ≡ value_in option.now (map string_bytes words.now) }
{
    if begins_with(option, words) {
        Some(words[1].as_str())
    } else {
        None
    }
}

/// The words behind such an option, or all.
fn behind<'a>(option: &str, words: &'a [String]) -> &'a [String]
    ensures { map string_bytes result.now ≡ words_behind option.now (map string_bytes words.now) }
{
    if begins_with(option, words) {
        &words[2..]
    } else {
        words
    }
}

/// The bound that a text is.
fn bound(text: Option<&str>) -> Result<Option<u64>, WordsFault>
    ensures { result ≡ bound_of (text_of text.entry) }
{
    match text {
        None => Ok(None),
        Some(text) => match read_decimal(text.as_bytes()) {
            Some(bound) => Ok(Some(bound)),
            None => Err(WordsFault::BadValue(Opt::Bound)),
        },
    }
}

/// The work of a line with this alias or this configuration; `lama` where it has neither.
fn work_by<'a>(alias: Option<&str>, search: Option<&'a str>) -> Result<Work<'a>, WordsFault>
    ensures { result_map_both seen_work (λ fault. fault) result
        ≡ work_of (text_of alias.entry) (text_of search.entry) }
{
    match search {
        Some(text) => Ok(Work::Search(text)),
        None => match AliasName::named(alias.unwrap_or("lama")) {
            Some(name) => Ok(Work::Alias(name)),
            None => Err(WordsFault::UnknownAlias),
        },
    }
}

/// What the line asks for, by the values of its options.
fn asked<'a>(
    alias: Option<&str>,
    search: Option<&'a str>,
    limit: Option<&str>,
    task: &'a str,
) -> Result<Line<'a>, WordsFault>
    ensures { result_map_both seen (λ fault. fault) result
        ≡ asked_of (text_of alias.entry) (text_of search.entry)
        (text_of limit.entry) task.now }
{
    let bound = bound(limit)?;
    let work = work_by(alias, search)?;
    if is_own_name(task.as_bytes()) {
        return Err(WordsFault::NameClash);
    }
    Ok(Line { work, bound, task })
}

/// What the words ask for, or what is wrong with them.
pub fn read_line(words: &[String]) -> Result<Line<'_>, WordsFault>
    ensures { result_map_both seen (λ fault. fault) result
        ≡ line_of (map string_bytes words.now) }
{
    let alias = value("--alias", words);
    let named = behind("--alias", words);
    let search = value("--search", named);
    let searched = behind("--search", named);
    let limit = value("--bound", searched);
    let words = behind("--bound", searched);
    if words.len() != 1 || (alias.is_some() && search.is_some()) {
        return Err(WordsFault::Refused);
    }
    let task = words[0].as_str();
    if !is_task_name(task.as_bytes()) {
        return Err(WordsFault::Refused);
    }
    asked(alias, search, limit, task)
}
