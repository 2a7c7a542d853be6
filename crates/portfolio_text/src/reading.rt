// The portfolio that a text is.
ghost use Rattle.std.specs.Prelude.{◌≡◌, ◌≤◌, [], All, IfOk, IsTrue, OnOk, length, nat_eq};
ghost use Rattle.std.specs.List.{list_all, list_any};
ghost use Rattle.std.specs.Str.{is_utf8};
ghost use Rattle.lama_num.specs.Gives.{Gives};
ghost use Rattle.text_lines.specs.Lines.{lines_of};
ghost use Rattle.portfolio_text.specs.Accepted.{IsEntry, IsPortfolio};
ghost use Rattle.portfolio_text.specs.PortfolioText.{refusal, next_entry, most_entries};
ghost use Rattle.portfolio_text.specs.PortfolioText.{ended, entries_of, by_place};
ghost use Rattle.portfolio_text.specs.PortfolioText.{told, end_line, is_plain as plain};
ghost use Rattle.portfolio_text.specs.PortfolioText.{portfolio_of};

use crate::entries::read_entry;
use crate::faults::{PortBad, PortError, PortKind};
use crate::lines::next_told;
use crate::portfolio::{MOST_BYTES, MOST_ENTRIES, PortEntry, Portfolio};
use lama_num::Seq;
use std::alloc::Global;
use text_lines::Cursor;

/// One more entry behind those in front.
fn push_entry(
    alloc: Global,
    entries: &mut Seq<PortEntry>,
    line: u64,
    text: &str,
) -> Result<(), PortError>
    requires { All IsEntry entries.old }
    ensures exact { Gives refusal (λ _. entries.new) result
        (next_entry line entries.old text.now) }
    ensures accepted { OnOk result (All IsEntry entries.new) }
    ensures few { OnOk result (length entries.new ≤ most_entries) }
{
    let entry = read_entry(alloc, line, text)?;
    if entries.len() >= MOST_ENTRIES {
        return Err(PortError::Bad(PortBad {
            line,
            kind: PortKind::TooMany,
        }));
    }
    entries.push(entry)?;
    Ok(())
}

/// The portfolio of these entries, behind the line of its end.
fn end(entries: Seq<PortEntry>, line: u64, cursor: &mut Cursor) -> Result<Portfolio, PortBad>
    requires texts { IsTrue (list_all is_utf8 cursor.old.left) }
    requires accepted { All IsEntry entries }
    requires few { length entries ≤ most_entries }
    ensures exact { result ≡ ended line entries (told cursor.old) }
    ensures accepted { IfOk result IsPortfolio }
{
    if entries.len() == 0 {
        return Err(PortBad {
            line,
            kind: PortKind::NoEntry,
        });
    }
    match next_told(cursor) {
        None => Ok(Portfolio { entries }),
        Some((line, _)) => Err(PortBad {
            line,
            kind: PortKind::Trailing,
        }),
    }
}

/// Entries up to the end.
#[tactic(auto, using(crate::proofs::EntryTurns::turns))]
fn read_entries(alloc: Global, cursor: &mut Cursor) -> Result<Portfolio, PortError>
    requires { IsTrue (list_all is_utf8 cursor.old.left) }
    ensures exact { Gives refusal (λ portfolio. portfolio) result
        (entries_of (end_line cursor.old) [] (told cursor.old)) }
    ensures accepted { IfOk result IsPortfolio }
{
    let mut entries = Seq::new(alloc);
    while let Some((line, text)) = next_told(cursor) {
        if text == "end" {
            return Ok(end(entries, line, cursor)?);
        }
        match push_entry(alloc, &mut entries, line, text) {
            Ok(()) => {}
            Err(e) => return Err(e),
        }
    }
    Err(PortError::Bad(PortBad {
        line: cursor.line(),
        kind: PortKind::CutShort,
    }))
}

/// The head and the entries behind it.
fn read_lines(alloc: Global, cursor: &mut Cursor) -> Result<Portfolio, PortError>
    requires { IsTrue (list_all is_utf8 cursor.old.left) }
    ensures exact { Gives refusal (λ portfolio. portfolio) result (by_place cursor.old) }
    ensures accepted { IfOk result IsPortfolio }
{
    match next_told(cursor) {
        None => Err(PortError::Bad(PortBad {
            line: cursor.line(),
            kind: PortKind::CutShort,
        })),
        Some((_, "portfolio 1")) => read_entries(alloc, cursor),
        Some((line, _)) => Err(PortError::Bad(PortBad {
            line,
            kind: PortKind::BadHead,
        })),
    }
}

fn is_text(bytes: &[u8]) -> bool
    ensures { result ≡ is_utf8 bytes.now }
{
    match str::from_utf8(bytes) {
        Ok(_) => true,
        Err(_) => false,
    }
}

fn has_nul(bytes: &[u8]) -> bool
    ensures { result ≡ list_any (λ b. nat_eq b 0) bytes.now }
{
    bytes.iter().any(|b| *b == 0)
}

/// UTF-8 without a NUL byte.
fn is_plain(bytes: &[u8]) -> bool
    ensures { result ≡ plain bytes.now }
{
    is_text(bytes) && !has_nul(bytes)
}

/// The portfolio that a text without a NUL byte is.
#[tactic(auto, using(crate::proofs::Utf8Lines::lines_are_text))]
fn read_plain(alloc: Global, text: &[u8]) -> Result<Portfolio, PortError>
    requires { IsTrue (plain text.now) }
    ensures exact { Gives refusal (λ portfolio. portfolio) result
        (by_place (record { left = lines_of text.now; line = 1 })) }
    ensures accepted { IfOk result IsPortfolio }
{
    let mut cursor = Cursor::new(text);
    read_lines(alloc, &mut cursor)
}

/// The portfolio that a text is, or its first fault.
///
/// Where a line has several faults, the first in the order of `PortKind` is given.
#[tactic(auto, unfolding(crate::specs::PortfolioText::portfolio_of))]
pub fn read(alloc: Global, text: &[u8]) -> Result<Portfolio, PortError>
    ensures exact { Gives refusal (λ portfolio. portfolio) result (portfolio_of text.now) }
    ensures accepted { IfOk result IsPortfolio }
{
    if text.len() > MOST_BYTES {
        return Err(PortError::Bad(PortBad {
            line: 0,
            kind: PortKind::TooLong,
        }));
    }
    if !is_plain(text) {
        return Err(PortError::Bad(PortBad {
            line: 0,
            kind: PortKind::BadText,
        }));
    }
    read_plain(alloc, text)
}
