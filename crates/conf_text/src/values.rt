// The values of options.
ghost use Rattle.std.specs.Prelude.{◌≡◌, ◌≤◌, ◌<◌, ◌^◌, IfOk};
ghost use Rattle.lama_num.specs.Gives.{Gives};
ghost use Rattle.conf_text.specs.Grammar.{kind as the_kind, truth as the_truth};
ghost use Rattle.conf_text.specs.Grammar.{number as the_number};
ghost use Rattle.conf_text.specs.Rules.{token as one_token};

use crate::faults::{ConfBad, ConfKind};
use crate::tokens::{Cursor, Token};
use lama_num::read_decimal;
use sas_task::CostKind;

fn cost_kind(token: &Token) -> Result<CostKind, ConfBad>
    ensures { result ≡ the_kind (record { place = token.now.place; text = token.now.text.now }) }
{
    if token.is("normal") {
        Ok(CostKind::Normal)
    } else if token.is("one") {
        Ok(CostKind::One)
    } else if token.is("plusone") {
        Ok(CostKind::PlusOne)
    } else {
        Err(token.refused(ConfKind::Unexpected))
    }
}

/// How operators count.
pub fn read_cost_kind(cursor: &mut Cursor) -> Result<CostKind, ConfBad>
    ensures { Gives Some (λ kind. (kind, cursor.new)) result (one_token the_kind cursor.old) }
{
    let token = cursor.next_token();
    cost_kind(&token)
}

fn truth(token: &Token) -> Result<bool, ConfBad>
    ensures { result ≡ the_truth (record { place = token.now.place; text = token.now.text.now }) }
{
    if token.is("true") {
        Ok(true)
    } else if token.is("false") {
        Ok(false)
    } else {
        Err(token.refused(ConfKind::Unexpected))
    }
}

/// Yes or no.
pub fn read_truth(cursor: &mut Cursor) -> Result<bool, ConfBad>
    ensures { Gives Some (λ truth. (truth, cursor.new)) result (one_token the_truth cursor.old) }
{
    let token = cursor.next_token();
    truth(&token)
}

fn number(token: &Token, least: u64, most: u64) -> Result<u64, ConfBad>
    ensures exact { result ≡ the_number least most
        (record { place = token.now.place; text = token.now.text.now }) }
    ensures within { IfOk result (λ n. n ≤ most) }
{
    match read_decimal(token.text) {
        Some(n) if least <= n && n <= most => Ok(n),
        _ => Err(token.refused(ConfKind::BadNumber)),
    }
}

/// A number from `least` to `most`.
pub fn read_number(cursor: &mut Cursor, least: u64, most: u64) -> Result<u64, ConfBad>
    ensures exact { Gives Some (λ n. (n, cursor.new)) result
        (one_token (the_number least most) cursor.old) }
    ensures within { IfOk result (λ n. n ≤ most) }
{
    let token = cursor.next_token();
    number(&token, least, most)
}

/// The same of 32 bits.
pub fn read_short(cursor: &mut Cursor, least: u64, most: u64) -> Result<u32, ConfBad>
    requires { most < 2 ^ 32 }
    ensures { Gives Some (λ n. (n, cursor.new)) result
        (one_token (the_number least most) cursor.old) }
{
    let n = read_number(cursor, least, most)?;
    Ok(n as u32)
}
