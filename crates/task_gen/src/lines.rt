// Lines at the end of a text.
ghost use Rattle.std.specs.Prelude.{◌≡◌, ◌++◌, [], ◌∷◌, decimal, OnOk};
ghost use Rattle.text_lines.specs.Texts.{text_of};
ghost use Rattle.task_gen.specs.Printed.{number_or_none, spaced, fact_words, fact_lines};

use itoa::Buffer;
use sas_task::Fact;
use std::alloc::AllocError;

/// Adds a line.
#[tactic(auto, using(crate::proofs::Grown::growing))]
pub fn push_line(text: &mut Vec<u8>, line: &[u8]) -> Result<(), AllocError>
    ensures { OnOk result (text.new.items ≡ text.old.items ++ text_of (line.now ∷ [])) }
{
    text.extend_from_slice(line)?;
    text.push(b'\n')?;
    Ok(())
}

/// Adds a number.
#[tactic(auto, using(crate::proofs::Grown::growing))]
pub fn push_number(text: &mut Vec<u8>, number: u64) -> Result<(), AllocError>
    ensures { OnOk result (text.new.items ≡ text.old.items ++ decimal number) }
{
    let mut buffer = Buffer::new();
    text.extend_from_slice(buffer.format(number).as_bytes())
}

/// Adds a blank and a number.
#[tactic(auto, using(crate::proofs::Grown::growing))]
pub fn push_next(text: &mut Vec<u8>, number: u64) -> Result<(), AllocError>
    ensures { OnOk result (text.new.items ≡ text.old.items ++ 32 ∷ decimal number) }
{
    text.push(b' ')?;
    push_number(text, number)
}

/// Adds a line of one number.
#[tactic(auto, using(crate::proofs::Grown::growing))]
pub fn push_count(text: &mut Vec<u8>, count: u64) -> Result<(), AllocError>
    ensures { OnOk result (text.new.items ≡ text.old.items ++ text_of (decimal count ∷ [])) }
{
    push_number(text, count)?;
    text.push(b'\n')?;
    Ok(())
}

/// Adds a number, or `-1` where there is none.
#[tactic(auto, using(crate::proofs::Grown::growing))]
pub fn push_number_or_none(text: &mut Vec<u8>, number: Option<u32>) -> Result<(), AllocError>
    ensures { OnOk result (text.new.items ≡ text.old.items ++ number_or_none number) }
{
    match number {
        Some(number) => push_number(text, u64::from(number)),
        None => text.extend_from_slice(b"-1"),
    }
}

#[tactic(auto, using(crate::proofs::Grown::growing))]
fn push_fact(text: &mut Vec<u8>, fact: Fact) -> Result<(), AllocError>
    ensures { OnOk result (text.new.items
        ≡ text.old.items ++ text_of (spaced (fact_words fact) ∷ [])) }
{
    push_number(text, u64::from(fact.var))?;
    push_next(text, u64::from(fact.val))?;
    text.push(b'\n')?;
    Ok(())
}

/// Adds facts behind their count.
#[tactic(auto, using(crate::proofs::Grown::growing))]
pub fn push_facts(text: &mut Vec<u8>, facts: &[Fact]) -> Result<(), AllocError>
    ensures { OnOk result (text.new.items ≡ text.old.items ++ text_of (fact_lines facts.now)) }
{
    push_count(text, facts.len() as u64)?;
    for fact in facts {
        push_fact(text, *fact)?;
    }
    Ok(())
}
