// Whole configurations.
ghost use Rattle.std.specs.Prelude.{◌≡◌, ◌∷◌, [], IfOk};
ghost use Rattle.lama_num.specs.Gives.{Gives};
ghost use Rattle.conf_text.specs.Accepted.{IsConfig};
ghost use Rattle.conf_text.specs.Grammar.{repeat_value as the_value, repeat_last as the_repeat};
ghost use Rattle.conf_text.specs.Grammar.{iterated as the_iterated, single as the_single};
ghost use Rattle.conf_text.specs.Grammar.{config as the_config, end_of_text, config_of};
ghost use Rattle.conf_text.specs.Rules.{token as one_token, refusal};

use crate::config::{Config, Phase};
use crate::faults::{ConfBad, ConfError, ConfKind};
use crate::phases::{is_weighted, read_phase, read_phases};
use crate::tokens::{Cursor, another, fixed};
use crate::values::read_truth;
use lama_num::Seq;
use std::alloc::{AllocError, Global};

/// Whether the last phase is repeated, behind the comma.
fn read_repeat_value(cursor: &mut Cursor) -> Result<bool, ConfBad>
    ensures { Gives Some (λ repeat. (repeat, cursor.new)) result (the_value cursor.old) }
{
    fixed(cursor, "repeat_last")?;
    fixed(cursor, "=")?;
    let repeat = read_truth(cursor)?;
    fixed(cursor, ")")?;
    Ok(repeat)
}

/// Whether the last phase is repeated, behind the list of phases.
#[tactic(auto, unfolding(crate::specs::Grammar::repeat_last))]
fn read_repeat(cursor: &mut Cursor) -> Result<bool, ConfBad>
    ensures { Gives Some (λ repeat. (repeat, cursor.new)) result (the_repeat cursor.old) }
{
    if another(cursor, ")")? {
        read_repeat_value(cursor)
    } else {
        Ok(false)
    }
}

/// Phases one after another, behind the word.
#[tactic(auto, unfolding(crate::specs::Grammar::iterated))]
fn read_iterated(alloc: Global, cursor: &mut Cursor) -> Result<Config, ConfError>
    ensures { Gives refusal (λ config. (config, cursor.new)) result (the_iterated cursor.old) }
{
    fixed(cursor, "(")?;
    fixed(cursor, "[")?;
    let phases = read_phases(alloc, cursor)?;
    let repeat_last = read_repeat(cursor)?;
    Ok(Config {
        iterated: true,
        phases,
        repeat_last,
    })
}

/// A list of one phase.
pub fn one_phase(alloc: Global, phase: Phase) -> Result<Seq<Phase>, AllocError>
    ensures { IfOk result (λ phases. phases ≡ phase ∷ []) }
{
    let mut phases = Seq::new(alloc);
    phases.push(phase)?;
    Ok(phases)
}

/// One phase, behind its word.
#[tactic(auto, unfolding(crate::specs::Grammar::single))]
fn read_single(alloc: Global, weighted: bool, cursor: &mut Cursor) -> Result<Config, ConfError>
    ensures { Gives refusal (λ config. (config, cursor.new)) result
        (the_single weighted cursor.old) }
{
    let phase = read_phase(alloc, weighted, cursor)?;
    let phases = one_phase(alloc, phase)?;
    Ok(Config {
        iterated: false,
        phases,
        repeat_last: false,
    })
}

#[tactic(auto, unfolding(crate::specs::Grammar::config))]
fn read_config(alloc: Global, cursor: &mut Cursor) -> Result<Config, ConfError>
    ensures { Gives refusal (λ config. (config, cursor.new)) result (the_config cursor.old) }
{
    let token = cursor.next_token();
    if token.is("iterated") {
        return read_iterated(alloc, cursor);
    }
    let weighted = is_weighted(&token)?;
    read_single(alloc, weighted, cursor)
}

/// Nothing may stand behind a configuration.
fn expect_end(cursor: &mut Cursor) -> Result<(), ConfBad>
    ensures { Gives Some (λ _. (tt, cursor.new)) result (one_token end_of_text cursor.old) }
{
    let token = cursor.next_token();
    if token.text.is_empty() {
        Ok(())
    } else {
        Err(token.refused(ConfKind::Trailing))
    }
}

/// The configuration that a text is, or the first token that can't stand where it stands.
///
/// Blanks between tokens are dropped: spaces and tabs. Where a token has several faults, the first
/// in the order of `ConfKind` is given.
#[tactic(auto, unfolding(crate::specs::Grammar::config_of, crate::specs::Grammar::whole))]
pub fn read(alloc: Global, text: &str) -> Result<Config, ConfError>
    ensures exact { Gives refusal (λ config. config) result (config_of text.now) }
    ensures accepted { IfOk result IsConfig }
{
    let mut cursor = Cursor::new(text.as_bytes());
    let config = read_config(alloc, &mut cursor)?;
    expect_end(&mut cursor)?;
    Ok(config)
}
