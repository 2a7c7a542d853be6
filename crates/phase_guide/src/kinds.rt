// The guides of a phase, and their estimates.
ghost use Rattle.std.specs.Prelude.{◌≡◌, ◌∷◌, [], ◌||◌, map, slice_index, IsTrue};
ghost use Rattle.conf_text.specs.Grammar.{has_guide, same_guide};
ghost use Rattle.phase_guide.specs.Kinds.{is_relaxing as relaxing_test, three_of, value_of};

use conf_text::{GuideKind, Phase};
use sas_task::CostKind;

/// The estimates of a state that isn't dead.
#[derive(Clone, Copy)]
pub(crate) struct Values {
    pub add: u32,
    pub ff: u32,
    pub lm: u32,
}

fn is_same(a: GuideKind, b: GuideKind) -> bool
    ensures { result ≡ same_guide a b }
{
    match (a, b) {
        (GuideKind::Add, GuideKind::Add) => true,
        (GuideKind::Ff, GuideKind::Ff) => true,
        (GuideKind::Lm, GuideKind::Lm) => true,
        _ => false,
    }
}

pub(crate) fn has(guides: &[GuideKind], kind: GuideKind) -> bool
    ensures { result ≡ has_guide guides.now kind }
{
    guides.iter().any(|other| is_same(kind, *other))
}

/// Whether a guide of a phase goes by the relaxation.
pub(crate) fn is_relaxing(phase: &Phase) -> bool
    ensures { result ≡ relaxing_test phase.now }
{
    has(&phase.guides, GuideKind::Add) || has(&phase.guides, GuideKind::Ff)
}

pub(crate) fn is_same_cost(a: CostKind, b: CostKind) -> bool
    ensures { IsTrue result → a ≡ b }
{
    match (a, b) {
        (CostKind::Normal, CostKind::Normal) => true,
        (CostKind::One, CostKind::One) => true,
        (CostKind::PlusOne, CostKind::PlusOne) => true,
        _ => false,
    }
}

fn value(kind: GuideKind, values: Values) -> u32
    ensures { result ≡ value_of values kind }
{
    match kind {
        GuideKind::Add => values.add,
        GuideKind::Ff => values.ff,
        GuideKind::Lm => values.lm,
    }
}

fn estimate(guides: &[GuideKind], place: usize, values: Values) -> u32
    ensures { result ≡ slice_index (map (value_of values) guides.now) place }
{
    match guides.get(place) {
        Some(kind) => value(*kind, values),
        None => 0,
    }
}

/// The estimates of the guides of a phase, in their order.
pub(crate) fn estimates(guides: &[GuideKind], values: Values) -> [u32; 3]
    ensures { result ≡ three_of (map (value_of values) guides.now) }
{
    [
        estimate(guides, 0, values),
        estimate(guides, 1, values),
        estimate(guides, 2, values),
    ]
}
