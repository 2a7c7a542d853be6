// Entries by their lines.
ghost use Rattle.std.specs.Prelude.{◌≡◌, ◌≤◌, IfOk};
ghost use Rattle.lama_num.specs.Decimals.{decimal_of};
ghost use Rattle.lama_num.specs.Gives.{Gives};
ghost use Rattle.text_lines.specs.Lines.{words_of};
ghost use Rattle.conf_text.specs.Grammar.{config_of};
ghost use Rattle.portfolio_text.specs.Accepted.{IsWork, IsEntry};
ghost use Rattle.conf_text.specs.AliasNames.{alias_of};
ghost use Rattle.portfolio_text.specs.PortfolioText.{bad as bad_line, refusal, share_by};
ghost use Rattle.portfolio_text.specs.PortfolioText.{search_by, alias_by, run_by, work_by};
ghost use Rattle.portfolio_text.specs.PortfolioText.{entry_by, entry_of};

use crate::faults::{PortBad, PortError, PortKind};
use crate::lines::{behind_word, first_word, without_blanks};
use crate::portfolio::{HIGHEST_SHARE, PortEntry, Work};
use crate::texts::Text;
use conf_text::{AliasName, ConfError};
use lama_num::{Seq, read_decimal};
use std::alloc::{AllocError, Global};

/// The share of the time.
fn read_share(line: u64, word: &str) -> Result<u32, PortBad>
    ensures exact { result ≡ share_by line (decimal_of word.now) }
    ensures within { IfOk result (λ share. (1 ≤ share) × (share ≤ 1000000)) }
{
    match read_decimal(word.as_bytes()) {
        Some(share) if 1 <= share && share <= HIGHEST_SHARE => Ok(share as u32),
        _ => Err(PortBad {
            line,
            kind: PortKind::BadShare,
        }),
    }
}

/// A search by the text of its configuration.
fn search(alloc: Global, line: u64, text: &str) -> Result<Work, PortError>
    ensures exact { Gives refusal (λ work. work) result (search_by line (config_of text.now)) }
    ensures accepted { IfOk result IsWork }
{
    match conf_text::read(alloc, text) {
        Ok(config) => Ok(Work::Search(config)),
        Err(ConfError::Bad(_)) => Err(PortError::Bad(PortBad {
            line,
            kind: PortKind::BadConfig,
        })),
        Err(ConfError::NoMemory) => Err(PortError::NoMemory),
    }
}

fn alias(line: u64, name: &str) -> Result<Work, PortBad>
    ensures exact { result ≡ alias_by line (alias_of name.now) }
    ensures accepted { IfOk result IsWork }
{
    match AliasName::named(name) {
        Some(alias) => Ok(Work::Alias(alias)),
        None => Err(PortBad {
            line,
            kind: PortKind::UnknownAlias,
        }),
    }
}

/// The words of a text.
#[tactic(auto, using(crate::proofs::LineWords::word_by_word))]
fn words(alloc: Global, text: &str) -> Result<Seq<Text>, AllocError>
    ensures { IfOk result (λ words. words ≡ words_of text.now) }
{
    let mut words = Seq::new(alloc);
    let mut rest = without_blanks(text);
    while !rest.is_empty() {
        words.push(Text::copy(alloc, first_word(rest))?)?;
        rest = behind_word(rest);
    }
    Ok(words)
}

/// A child program by its words.
fn run(alloc: Global, line: u64, text: &str) -> Result<Work, PortError>
    ensures exact { Gives refusal (λ work. work) result (run_by line (words_of text.now)) }
    ensures accepted { IfOk result IsWork }
{
    let words = words(alloc, text)?;
    if words.len() == 0 {
        return Err(PortError::Bad(PortBad {
            line,
            kind: PortKind::BadEntry,
        }));
    }
    Ok(Work::Run(words))
}

/// The work of an entry, by its word and what follows.
fn read_work(alloc: Global, line: u64, word: &str, rest: &str) -> Result<Work, PortError>
    ensures exact { Gives refusal (λ work. work) result (work_by line word.now rest.now) }
    ensures accepted { IfOk result IsWork }
{
    match word {
        "search" => search(alloc, line, rest),
        "alias" => Ok(alias(line, rest)?),
        "run" => run(alloc, line, rest),
        _ => Err(PortError::Bad(PortBad {
            line,
            kind: PortKind::BadEntry,
        })),
    }
}

/// An entry behind its word.
#[tactic(auto, unfolding(crate::specs::PortfolioText::entry_by))]
fn read_behind(alloc: Global, line: u64, text: &str) -> Result<PortEntry, PortError>
    ensures exact { Gives refusal (λ entry. entry) result (entry_by line text.now) }
    ensures accepted { IfOk result IsEntry }
{
    let share = read_share(line, first_word(text))?;
    let behind = behind_word(text);
    let work = read_work(alloc, line, first_word(behind), behind_word(behind))?;
    Ok(PortEntry { share, work })
}

/// An entry by its line and the number of that.
#[tactic(auto, unfolding(crate::specs::PortfolioText::entry_of))]
pub fn read_entry(alloc: Global, line: u64, text: &str) -> Result<PortEntry, PortError>
    ensures exact { Gives refusal (λ entry. entry) result (entry_of line text.now) }
    ensures accepted { IfOk result IsEntry }
{
    if first_word(text) != "entry" {
        return Err(PortError::Bad(PortBad {
            line,
            kind: PortKind::BadEntry,
        }));
    }
    read_behind(alloc, line, behind_word(text))
}
