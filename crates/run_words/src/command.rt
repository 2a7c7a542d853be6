// The command as clap sees it, and what clap makes of the words.
ghost use Rattle.std.specs.Prelude.{◌≡◌, IfOk, map, string_bytes};
ghost use Rattle.clap.specs.Faults.{fault_of};
ghost use Rattle.clap.specs.Simple.{app_of, matches_of, with_rule};
ghost use Rattle.clap.specs.Values.{kind_of};
ghost use Rattle.run_words.specs.Command.{named_rule, flag_rule, task_rule, the_command, Answers};
ghost use Rattle.run_words.specs.Command.{error_by};

use crate::faults::{WordsError, WordsFault};
use clap::error::ErrorKind;
use clap::{Arg, ArgAction, ArgMatches, Command, Error};
use std::alloc::{AllocError, Global};

fn error_of(error: &Error) -> WordsError
    ensures { result ≡ error_by (kind_of error.now) }
{
    match error.kind() {
        ErrorKind::OutOfMemory => WordsError::NoMemory,
        _ => WordsError::Bad(WordsFault::Refused),
    }
}

/// An option with a value.
fn with_option<'a>(
    alloc: Global,
    command: Command<'a>,
    name: &'a str,
) -> Result<Command<'a>, AllocError>
    ensures { IfOk result
        (λ c. app_of c ≡ with_rule (app_of command.entry) (named_rule name.entry.now)) }
{
    command.arg(Arg::new(alloc, name).long(name).action(ArgAction::Set))
}

fn with_flag<'a>(
    alloc: Global,
    command: Command<'a>,
    name: &'a str,
) -> Result<Command<'a>, AllocError>
    ensures { IfOk result
        (λ c. app_of c ≡ with_rule (app_of command.entry) (flag_rule name.entry.now)) }
{
    command.arg(Arg::new(alloc, name).long(name).action(ArgAction::SetTrue))
}

fn with_task<'a>(alloc: Global, command: Command<'a>) -> Result<Command<'a>, AllocError>
    ensures { IfOk result (λ c. app_of c ≡ with_rule (app_of command.entry) task_rule) }
{
    command.arg(Arg::new(alloc, "TASK").action(ArgAction::Set))
}

fn command<'a>(alloc: Global) -> Result<Command<'a>, AllocError>
    ensures { IfOk result (λ c. app_of c ≡ the_command) }
{
    let command = Command::new(alloc, "downward")
        .no_binary_name(true)
        .disable_help_flag(true);
    let command = with_option(alloc, command, "alias")?;
    let command = with_option(alloc, command, "search")?;
    let command = with_option(alloc, command, "portfolio")?;
    let command = with_option(alloc, command, "plan-file")?;
    let command = with_option(alloc, command, "bound")?;
    let command = with_option(alloc, command, "overall-time-limit")?;
    let command = with_option(alloc, command, "child-memory-limit")?;
    let command = with_option(alloc, command, "gen")?;
    let command = with_flag(alloc, command, "portfolio-single-plan")?;
    let command = with_flag(alloc, command, "translate")?;
    let command = with_flag(alloc, command, "validate")?;
    with_task(alloc, command)
}

/// What clap finds in the words.
pub fn matches_of_line<'a>(alloc: Global, words: &'a [String]) -> Result<ArgMatches<'a>, WordsError>
    ensures { Answers (fault_of the_command (map string_bytes words.now))
        (matches_of the_command (map string_bytes words.now)) result }
{
    let Ok(command) = command(alloc) else {
        return Err(WordsError::NoMemory);
    };
    match command.try_get_matches_from(words) {
        Ok(matches) => Ok(matches),
        Err(error) => Err(error_of(&error)),
    }
}
