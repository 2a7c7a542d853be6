// Phases, and lists of them.
ghost use Rattle.std.specs.Prelude.{◌≡◌, [], codes};
ghost use Rattle.lama_num.specs.Gives.{Gives};
ghost use Rattle.conf_text.specs.Grammar.{is_weighted as weighted_test, phase as the_phase};
ghost use Rattle.conf_text.specs.Grammar.{if_room, next_phase as the_next};
ghost use Rattle.conf_text.specs.Rules.{member_and_more, members, refusal};
ghost use Rattle.conf_text.specs.Tokens.{Token as TheToken};

use crate::config::{GuideKind, MOST_PHASES, Phase};
use crate::faults::{ConfBad, ConfError, ConfKind};
use crate::guides::read_guides;
use crate::options::read_options;
use crate::tokens::{Cursor, Token, another, fixed};
use lama_num::Seq;
use std::alloc::Global;

/// A phase behind as many as there may be is refused.
const TURNS: u64 = 101;

/// Whether the search of a phase is weighted, by its word.
pub fn is_weighted(token: &Token) -> Result<bool, ConfBad>
    ensures { result ≡ weighted_test
        (record { place = token.now.place; text = token.now.text.now }) }
{
    if token.is("lazy_greedy") {
        Ok(false)
    } else if token.is("lazy_wastar") {
        Ok(true)
    } else {
        Err(token.refused(ConfKind::Unexpected))
    }
}

/// A phase behind its word.
#[tactic(auto, unfolding(crate::specs::Grammar::phase))]
pub fn read_phase(alloc: Global, weighted: bool, cursor: &mut Cursor) -> Result<Phase, ConfError>
    ensures { Gives refusal (λ phase. (phase, cursor.new)) result
        (the_phase weighted cursor.old) }
{
    let every = [GuideKind::Add, GuideKind::Ff, GuideKind::Lm];
    fixed(cursor, "(")?;
    let guides = read_guides(alloc, &every, cursor)?;
    let options = read_options(alloc, weighted, &guides, cursor)?;
    Ok(options.into_phase(alloc, weighted, guides))
}

/// The word of one more phase, where there may be more.
fn phase_word(front: &[Phase], token: &Token) -> Result<bool, ConfBad>
    ensures { let t : TheToken = record { place = token.now.place; text = token.now.text.now } in
        result ≡ if_room front.now t (weighted_test t) }
{
    let weighted = is_weighted(token)?;
    if front.len() < MOST_PHASES {
        Ok(weighted)
    } else {
        Err(token.refused(ConfKind::TooMany))
    }
}

/// One more phase.
#[tactic(auto, unfolding(crate::specs::Grammar::next_phase))]
fn next_phase(alloc: Global, front: &mut Seq<Phase>, cursor: &mut Cursor) -> Result<(), ConfError>
    ensures { Gives refusal (λ _. (front.new, cursor.new)) result
        (the_next front.old cursor.old) }
{
    let token = cursor.next_token();
    let weighted = phase_word(front, &token)?;
    let phase = read_phase(alloc, weighted, cursor)?;
    front.push(phase)?;
    Ok(())
}

/// One more phase, and whether another follows.
fn phase_and_more(
    alloc: Global,
    front: &mut Seq<Phase>,
    cursor: &mut Cursor,
) -> Result<bool, ConfError>
    ensures { Gives refusal (λ more. ((front.new, more), cursor.new)) result
        (member_and_more (codes "]") the_next front.old cursor.old) }
{
    next_phase(alloc, front, cursor)?;
    let more = another(cursor, "]")?;
    Ok(more)
}

/// Phases up to the end of their list.
#[tactic(auto, using(crate::proofs::Turns::turns))]
pub fn read_phases(alloc: Global, cursor: &mut Cursor) -> Result<Seq<Phase>, ConfError>
    ensures { Gives refusal (λ phases. (phases, cursor.new)) result
        (members (codes "]") the_next 101 [] cursor.old) }
{
    let mut front = Seq::new(alloc);
    for _turn in 0..TURNS {
        match phase_and_more(alloc, &mut front, cursor) {
            Ok(true) => {}
            Ok(false) => return Ok(front),
            Err(e) => return Err(e),
        }
    }
    Ok(front)
}
