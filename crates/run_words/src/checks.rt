// The request of the words.
ghost use Rattle.std.specs.Prelude.{◌≡◌, IfOk, map, nat_lt, string_bytes, unwrap_or, codes};
ghost use Rattle.lama_num.specs.Gives.{Gives};
ghost use Rattle.conf_text.specs.AliasNames.{alias_of};
ghost use Rattle.run_words.specs.Accepted.{IsAccepted};
ghost use Rattle.run_words.specs.Requests.{chosen, clashes as clash_test, has_task as task_test};
ghost use Rattle.run_words.specs.Requests.{if_alias, is_limitless as limitless_test, or_bad};
ghost use Rattle.run_words.specs.Requests.{refusal, request_by, request_of, works};
ghost use Rattle.run_words.specs.Seen.{seen, text_of};

use crate::faults::{Asked, WordsError, WordsFault};
use crate::line::{Given, line};
use crate::names::is_own;
use crate::request::{Chosen, Request};
use crate::values::read_values;
use conf_text::AliasName;
use portfolio_text::Text;
use std::alloc::{AllocError, Global};

fn has_task(given: &Given) -> bool
    ensures { result ≡ task_test (seen given.now) }
{
    given.task.is_some() != given.made.is_some()
}

fn has_two_works(given: &Given) -> bool
    ensures { result ≡ nat_lt 1 (works (seen given.now)) }
{
    let named = given.alias.is_some();
    let written = given.search.is_some();
    let listed = given.portfolio.is_some();
    (named && written) || (listed && (named || written))
}

fn copied(alloc: Global, text: Option<&str>) -> Result<Option<Text>, AllocError>
    ensures { IfOk result (λ copy. copy ≡ text_of text.entry) }
{
    match text {
        Some(text) => Ok(Some(Text::copy(alloc, text)?)),
        None => Ok(None),
    }
}

fn named(name: Option<&str>) -> Result<Chosen, WordsFault>
    ensures { result ≡ if_alias (alias_of (unwrap_or (text_of name.entry) (codes "lama"))) }
{
    match AliasName::named(name.unwrap_or("lama")) {
        Some(alias) => Ok(Chosen::Alias(alias)),
        None => Err(WordsFault::UnknownAlias),
    }
}

fn work(alloc: Global, given: &Given) -> Result<Chosen, WordsError>
    ensures { Gives refusal (λ work. work) result (or_bad
        (chosen (text_of given.now.alias) (text_of given.now.search)
        (text_of given.now.portfolio))) }
{
    match (given.portfolio, given.search) {
        (Some(name), _) => Ok(Chosen::Portfolio(Text::copy(alloc, name)?)),
        (None, Some(text)) => Ok(Chosen::Search(Text::copy(alloc, text)?)),
        (None, None) => Ok(named(given.alias)?),
    }
}

/// Whether a portfolio is given, and no limit of time.
fn is_limitless(given: &Given, limit: Option<u64>) -> bool
    ensures { result ≡ limitless_test (seen given.now) limit }
{
    given.portfolio.is_some() && limit.is_none()
}

/// Whether a file that is given has the name of one of the run's own.
fn clashes(base: &str, given: &Given) -> bool
    ensures { result ≡ clash_test base.now (seen given.now) }
{
    is_own(base, given.task) || is_own(base, given.portfolio)
}

/// The request of a line.
#[tactic(auto, unfolding(crate::specs::Requests::request_by))]
fn request(alloc: Global, given: &Given) -> Result<Request, WordsError>
    ensures exact { Gives refusal (λ request. request) result
        (or_bad (request_by (seen given.now))) }
    ensures accepted { IfOk result IsAccepted }
{
    if !has_task(given) {
        return Err(WordsError::Bad(WordsFault::NoTask));
    }
    if has_two_works(given) {
        return Err(WordsError::Bad(WordsFault::TwoWorks));
    }
    let values = read_values(given)?;
    let work = work(alloc, given)?;
    if is_limitless(given, values.limit) {
        return Err(WordsError::Bad(WordsFault::NeedsTimeLimit));
    }
    if clashes(values.base.text(), given) {
        return Err(WordsError::Bad(WordsFault::NameClash));
    }
    let task = copied(alloc, given.task)?;
    Ok(Request {
        task,
        made: values.made,
        work,
        base: values.base,
        bound: values.bound,
        limit: values.limit,
        child_kib: values.child_kib,
        single: given.single,
    })
}

/// The request that the words make, without the name of the program in front of them.
///
/// The words are a line of `downward [OPTIONS] [TASK]`, or they are refused; then the first that is
/// wrong with the line is answered, in the order of the definition.
#[tactic(auto, unfolding(crate::specs::Requests::request_of))]
pub fn read(alloc: Global, words: &[String]) -> Result<Request, WordsError>
    ensures exact { Gives refusal (λ request. request) result
        (request_of (map string_bytes words.now)) }
    ensures accepted { IfOk result IsAccepted }
{
    let given = line(alloc, words)?;
    if given.translate {
        return Err(WordsError::Asked(Asked::Translate));
    }
    if given.validate {
        return Err(WordsError::Asked(Asked::Validate));
    }
    request(alloc, &given)
}
