// The words as a line.
ghost use Rattle.std.specs.Prelude.{◌≡◌, ℕ, List, Bool, map, option_map, string_bytes};
ghost use Rattle.std.specs.List.{list_any};
ghost use Rattle.clap.specs.Matches.{first_value, found_of};
ghost use Rattle.lama_num.specs.Gives.{Gives};
ghost use Rattle.run_words.specs.Command.{is_stray as stray_test, ReadsFlags};
ghost use Rattle.run_words.specs.Grammar.{behind_dash as the_rest, line_from, line_of};
ghost use Rattle.run_words.specs.Requests.{if_line, refusal};
ghost use Rattle.run_words.specs.Seen.{seen};

use crate::command::matches_of_line;
use crate::faults::{WordsError, WordsFault};
use clap::ArgMatches;
use std::alloc::Global;

/// What a line gives, as it is written.
#[derive(Clone, Copy)]
pub struct Given<'a> {
    pub alias: Option<&'a str>,
    pub search: Option<&'a str>,
    pub portfolio: Option<&'a str>,
    pub plan_file: Option<&'a str>,
    pub bound: Option<&'a str>,
    pub time_limit: Option<&'a str>,
    pub child_memory: Option<&'a str>,
    pub made: Option<&'a str>,
    pub task: Option<&'a str>,
    pub single: bool,
    pub translate: bool,
    pub validate: bool,
}

fn behind_dash(word: &[u8]) -> Option<&[u8]>
    ensures { option_map (λ rest. rest.now) result ≡ the_rest word.now }
{
    let (first, rest) = word.split_first()?;
    if *first == b'-' { Some(rest) } else { None }
}

/// A word that begins with a dash and isn't a name behind two of them.
fn is_stray(word: &[u8]) -> bool
    ensures { result ≡ stray_test word.now }
{
    match behind_dash(word) {
        None => false,
        Some(rest) => match behind_dash(rest) {
            None => true,
            Some(name) => name.is_empty(),
        },
    }
}

fn has_stray(words: &[String]) -> bool
    ensures { result ≡ list_any (λ word. stray_test (string_bytes word)) words.now }
{
    words.iter().any(|word| is_stray(word.as_bytes()))
}

fn found_in<'a>(matches: &ArgMatches<'a>) -> Given<'a>
    ensures { (flag : List ℕ → Bool) → ReadsFlags (found_of matches.now) flag
        → seen result ≡ line_from (first_value (found_of matches.now)) flag }
{
    Given {
        alias: matches.get_str("alias"),
        search: matches.get_str("search"),
        portfolio: matches.get_str("portfolio"),
        plan_file: matches.get_str("plan-file"),
        bound: matches.get_str("bound"),
        time_limit: matches.get_str("overall-time-limit"),
        child_memory: matches.get_str("child-memory-limit"),
        made: matches.get_str("gen"),
        task: matches.get_str("TASK"),
        single: matches.get_flag("portfolio-single-plan"),
        translate: matches.get_flag("translate"),
        validate: matches.get_flag("validate"),
    }
}

/// The line that the words are; they are refused exactly where they are none.
pub fn line<'a>(alloc: Global, words: &'a [String]) -> Result<Given<'a>, WordsError>
    ensures { Gives refusal seen result (if_line (line_of (map string_bytes words.now))) }
{
    if has_stray(words) {
        return Err(WordsError::Bad(WordsFault::Refused));
    }
    match matches_of_line(alloc, words) {
        Ok(matches) => Ok(found_in(&matches)),
        Err(e) => Err(e),
    }
}
