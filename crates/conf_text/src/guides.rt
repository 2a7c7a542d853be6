// Lists of guides.
ghost use Rattle.std.specs.Prelude.{◌≡◌, ◌≤◌, [], IfOk, codes};
ghost use Rattle.lama_num.specs.Gives.{Gives};
ghost use Rattle.conf_text.specs.Grammar.{guide_of as the_guide, has_guide as guide_test};
ghost use Rattle.conf_text.specs.Grammar.{same_guide as same_test, guide_name as the_name};
ghost use Rattle.conf_text.specs.Grammar.{next_guide as the_next, guides as the_guides};
ghost use Rattle.conf_text.specs.Grammar.{may_prefer};
ghost use Rattle.conf_text.specs.Rules.{member_and_more, members, refusal};

use crate::config::GuideKind;
use crate::faults::{ConfBad, ConfError, ConfKind};
use crate::tokens::{Cursor, Token, another, fixed};
use lama_num::Seq;
use std::alloc::{AllocError, Global};

/// There are three kinds of guides, so a list has at most so many.
const TURNS: u64 = 4;

fn guide_of(token: &Token) -> Option<GuideKind>
    ensures { result ≡ the_guide (record { place = token.now.place; text = token.now.text.now }) }
{
    if token.is("add") {
        Some(GuideKind::Add)
    } else if token.is("ff") {
        Some(GuideKind::Ff)
    } else if token.is("lm") {
        Some(GuideKind::Lm)
    } else {
        None
    }
}

fn same_guide(a: GuideKind, b: GuideKind) -> bool
    ensures { result ≡ same_test a b }
{
    match (a, b) {
        (GuideKind::Add, GuideKind::Add) => true,
        (GuideKind::Ff, GuideKind::Ff) => true,
        (GuideKind::Lm, GuideKind::Lm) => true,
        _ => false,
    }
}

fn has_guide(guides: &[GuideKind], g: GuideKind) -> bool
    ensures { result ≡ guide_test guides.now g }
{
    guides.iter().any(|x| same_guide(g, *x))
}

/// The guide that a token names, where it is allowed and didn't stand in front.
fn guide_name(
    allowed: &[GuideKind],
    front: &[GuideKind],
    token: &Token,
) -> Result<GuideKind, ConfBad>
    ensures { result ≡ the_name allowed.now front.now
        (record { place = token.now.place; text = token.now.text.now }) }
{
    if !token.is_word() {
        return Err(token.refused(ConfKind::Unexpected));
    }
    match guide_of(token) {
        None => Err(token.refused(ConfKind::UnknownGuide)),
        Some(g) if has_guide(front, g) => Err(token.refused(ConfKind::TwiceGuide)),
        Some(g) if has_guide(allowed, g) => Ok(g),
        Some(_) => Err(token.refused(ConfKind::NotGuide)),
    }
}

/// One more guide behind those in front.
#[tactic(auto, unfolding(crate::specs::Grammar::next_guide))]
fn read_guide(
    allowed: &[GuideKind],
    front: &mut Seq<GuideKind>,
    cursor: &mut Cursor,
) -> Result<(), ConfError>
    ensures { Gives refusal (λ _. (front.new, cursor.new)) result
        (the_next allowed.now front.old cursor.old) }
{
    let token = cursor.next_token();
    let g = guide_name(allowed, front, &token)?;
    fixed(cursor, "(")?;
    fixed(cursor, ")")?;
    front.push(g)?;
    Ok(())
}

/// One more guide, and whether another follows.
fn guide_and_more(
    allowed: &[GuideKind],
    front: &mut Seq<GuideKind>,
    cursor: &mut Cursor,
) -> Result<bool, ConfError>
    ensures { Gives refusal (λ more. ((front.new, more), cursor.new)) result
        (member_and_more (codes "]") (the_next allowed.now) front.old cursor.old) }
{
    read_guide(allowed, front, cursor)?;
    let more = another(cursor, "]")?;
    Ok(more)
}

/// Guides up to the end of the list.
#[tactic(auto, using(crate::proofs::Turns::turns))]
fn guides_behind(
    alloc: Global,
    allowed: &[GuideKind],
    cursor: &mut Cursor,
) -> Result<Seq<GuideKind>, ConfError>
    ensures { Gives refusal (λ guides. (guides, cursor.new)) result
        (members (codes "]") (the_next allowed.now) 4 [] cursor.old) }
{
    let mut front = Seq::new(alloc);
    for _turn in 0..TURNS {
        match guide_and_more(allowed, &mut front, cursor) {
            Ok(true) => {}
            Ok(false) => return Ok(front),
            Err(e) => return Err(e),
        }
    }
    Ok(front)
}

/// A list of guides that are allowed, each once.
#[tactic(auto, unfolding(crate::specs::Grammar::guides))]
pub fn read_guides(
    alloc: Global,
    allowed: &[GuideKind],
    cursor: &mut Cursor,
) -> Result<Seq<GuideKind>, ConfError>
    ensures { Gives refusal (λ guides. (guides, cursor.new)) result
        (the_guides allowed.now cursor.old) }
{
    fixed(cursor, "[")?;
    guides_behind(alloc, allowed, cursor)
}

/// The guides that may be preferred: all but the additive estimate, which prefers nothing.
fn preferable(alloc: Global, guides: &[GuideKind]) -> Result<Vec<GuideKind>, AllocError>
    ensures { IfOk result (λ some. some.items ≡ may_prefer guides.now) }
{
    guides
        .iter()
        .copied()
        .filter(|g| !same_guide(GuideKind::Add, *g))
        .collect(alloc)
}

/// A list of guides of a phase that are preferred.
pub fn read_preferred(
    alloc: Global,
    guides: &[GuideKind],
    cursor: &mut Cursor,
) -> Result<Seq<GuideKind>, ConfError>
    ensures { Gives refusal (λ guides. (guides, cursor.new)) result
        (the_guides (may_prefer guides.now) cursor.old) }
{
    let allowed = preferable(alloc, guides)?;
    read_guides(alloc, &allowed, cursor)
}
