// The operators of a task in flat tables.
ghost use Rattle.std.specs.Prelude.{◌≡◌, ◌<◌, ◌^◌, [], ◌∷◌, length, map, IfOk};
ghost use Rattle.lama_num.specs.Rows.{row_at};
ghost use Rattle.state_step.specs.Tables.{AreTables, AreEffects, AddsChange, AddsChanges};

use lama_num::{NoMemory, Rows};
use sas_task::{Effect, Fact, Operator};
use std::alloc::Global;

/// What an effect gives, and the row of its conditions. Row 0 has no conditions.
#[derive(Clone, Copy)]
pub struct Change {
    pub fact: Fact,
    pub conds: u32,
}

/// Preconditions and effects of operators, by their numbers.
#[derive(Drop)]
pub struct Operators {
    pub pre: Rows<Fact>,
    pub changes: Rows<Change>,
    /// The conditions of effects.
    pub conds: Rows<Fact>,
}

fn preconditions_of(alloc: Global, operators: &[Operator]) -> Result<Rows<Fact>, NoMemory>
    ensures { IfOk result (λ rows. rows ≡ map (λ o. o.pre) operators.now) }
{
    let mut rows = Rows::new(alloc);
    for operator in operators {
        match rows.push(&operator.pre) {
            Ok(()) => {}
            Err(e) => return Err(e),
        }
    }
    Ok(rows)
}

/// An effect, whose conditions become the last row where it has any.
fn change_of(effect: &Effect, conds: &mut Rows<Fact>) -> Result<Change, NoMemory>
    requires none { row_at conds.old 0 ≡ [] }
    requires some { 0 < length conds.old }
    ensures { IfOk result (λ change. AddsChange effect.now change conds.old conds.new) }
{
    if effect.conds.is_empty() {
        return Ok(Change {
            fact: effect.fact,
            conds: 0,
        });
    }
    // Rows are numbered with 32 bits: where there are more, there is no memory for them.
    let number = conds.len();
    if number >= 4_294_967_296 {
        return Err(NoMemory);
    }
    match conds.push(&effect.conds) {
        Ok(()) => {}
        Err(e) => return Err(e),
    }
    Ok(Change {
        fact: effect.fact,
        conds: number as u32,
    })
}

fn changes_of(
    alloc: Global,
    effects: &[Effect],
    conds: &mut Rows<Fact>,
) -> Result<Vec<Change>, NoMemory>
    requires none { row_at conds.old 0 ≡ [] }
    requires some { 0 < length conds.old }
    ensures { IfOk result (λ changes. AddsChanges effects.now changes.items conds.old conds.new) }
{
    let mut changes = Vec::with_capacity(alloc, effects.len())?;
    for effect in effects {
        let change = match change_of(effect, conds) {
            Ok(change) => change,
            Err(e) => return Err(e),
        };
        changes.push(change)?;
    }
    Ok(changes)
}

/// The rows of all effects, and then those of their conditions.
fn effects_of(alloc: Global, operators: &[Operator]) -> Result<(Rows<Change>, Rows<Fact>), NoMemory>
    ensures { IfOk result (λ rows. AreEffects operators.now rows.0 rows.1) }
{
    let mut rows = Rows::new(alloc);
    let mut conds = Rows::new(alloc);
    conds.push(&[])?;
    for operator in operators {
        let changes = match changes_of(alloc, &operator.effects, &mut conds) {
            Ok(changes) => changes,
            Err(e) => return Err(e),
        };
        match rows.push(&changes) {
            Ok(()) => {}
            Err(e) => return Err(e),
        }
    }
    Ok((rows, conds))
}

/// The tables of operators.
pub fn tables_of(alloc: Global, operators: &[Operator]) -> Result<Operators, NoMemory>
    ensures { IfOk result (λ tables. AreTables operators.now tables) }
{
    let pre = preconditions_of(alloc, operators)?;
    let (changes, conds) = effects_of(alloc, operators)?;
    Ok(Operators {
        pre,
        changes,
        conds,
    })
}
