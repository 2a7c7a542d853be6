// The words of a line as numbers.
ghost use Rattle.std.specs.Prelude.{◌≡◌, IfOk, length, option_map, codes};
ghost use Rattle.sas_reader.specs.Reading.{one_number as the_number};
ghost use Rattle.sas_reader.specs.Reading.{decimal_or_none as the_decimal_or_none};
ghost use Rattle.sas_reader.specs.Reading.{number_or_none as the_number_or_none};
ghost use Rattle.sas_reader.specs.Reading.{number_at as the_number_at};
ghost use Rattle.sas_reader.specs.Reading.{number_or_none_at as the_number_or_none_at};
ghost use Rattle.sas_reader.specs.Reading.{pair_at as the_pair_at, pairs_at as the_pairs_at};
ghost use Rattle.sas_reader.specs.Reading.{one_pair as the_pair, change_at as the_change_at};
ghost use Rattle.sas_reader.specs.Reading.{effect_numbers as the_effect_numbers};
ghost use Rattle.sas_reader.specs.Reading.{head_at as the_head_at, one_head as the_head};

use lama_num::read_decimal;
use std::alloc::{AllocError, Global};
use text_lines::Words;

/// The number that a line is.
pub fn one_number(line: &[u8]) -> Option<u64>
    ensures { result ≡ the_number line.now }
{
    let mut words = Words::new(line);
    let word = words.next_word()?;
    match words.next_word() {
        None => read_decimal(word),
        Some(_) => None,
    }
}

/// The number that a word is, or `None` where it is `-1`.
fn decimal_or_none(word: &[u8]) -> Option<Option<u64>>
    ensures { result ≡ the_decimal_or_none word.now }
{
    if word == b"-1".as_slice() {
        Some(None)
    } else {
        Some(Some(read_decimal(word)?))
    }
}

/// The number that a line is, or `None` where it is `-1`.
pub fn number_or_none(line: &[u8]) -> Option<Option<u64>>
    ensures { result ≡ the_number_or_none line.now }
{
    let mut words = Words::new(line);
    let word = words.next_word()?;
    match words.next_word() {
        None => decimal_or_none(word),
        Some(_) => None,
    }
}

/// Takes a number.
fn number_at(words: &mut Words) -> Option<u64>
    ensures { option_map (λ n. (n, words.new)) result ≡ the_number_at words.old }
{
    let word = words.next_word()?;
    read_decimal(word)
}

/// Takes a number or `-1`.
fn number_or_none_at(words: &mut Words) -> Option<Option<u64>>
    ensures { option_map (λ n. (n, words.new)) result ≡ the_number_or_none_at words.old }
{
    let word = words.next_word()?;
    decimal_or_none(word)
}

/// The numbers of a variable and of its value, as a line has them.
#[derive(Clone, Copy)]
pub struct Pair {
    pub var: u64,
    pub val: u64,
}

/// Takes the numbers of a variable and of its value.
#[tactic(auto, unfolding(crate::specs::Reading::pair_at))]
fn pair_at(words: &mut Words) -> Option<Pair>
    ensures { option_map (λ pair. (pair, words.new)) result ≡ the_pair_at words.old }
{
    let var = number_at(words)?;
    let val = number_at(words)?;
    Some(Pair { var, val })
}

/// Takes so many pairs.
#[tactic(auto, using(crate::proofs::Pairs::pairs_loop))]
fn pairs_at(alloc: Global, words: &mut Words, count: u64) -> Result<Option<Vec<Pair>>, AllocError>
    ensures { IfOk result (λ found.
        option_map (λ pairs. (pairs.items, words.new)) found ≡ the_pairs_at count words.old) }
{
    let mut pairs = Vec::new(alloc);
    for _i in 0..count {
        match pair_at(words) {
            Some(pair) => pairs.push(pair)?,
            None => return Ok(None),
        }
    }
    Ok(Some(pairs))
}

/// The pair that a line is.
pub fn one_pair(line: &[u8]) -> Option<Pair>
    ensures { result ≡ the_pair line.now }
{
    let mut words = Words::new(line);
    let pair = pair_at(&mut words)?;
    match words.next_word() {
        None => Some(pair),
        Some(_) => None,
    }
}

/// The numbers of the variable that an effect changes, of its old value where that isn't `-1`, and
/// of its new value.
#[derive(Clone, Copy)]
pub struct Change {
    pub var: u64,
    pub old: Option<u64>,
    pub new: u64,
}

/// Takes the numbers of a variable, of its old value or `-1`, and of its new value.
#[tactic(auto, unfolding(crate::specs::Reading::change_at))]
fn change_at(words: &mut Words) -> Option<Change>
    ensures { option_map (λ change. (change, words.new)) result ≡ the_change_at words.old }
{
    let var = number_at(words)?;
    let old = number_or_none_at(words)?;
    let new = number_at(words)?;
    Some(Change { var, old, new })
}

/// The numbers of an effect's line.
#[derive(Drop)]
pub struct EffectNumbers {
    pub conds: Vec<Pair>,
    pub change: Change,
}

/// The numbers of an effect that a line is.
#[tactic(auto, unfolding(crate::specs::Reading::effect_numbers))]
pub fn effect_numbers(alloc: Global, line: &[u8]) -> Result<Option<EffectNumbers>, AllocError>
    ensures { IfOk result (λ found.
        option_map (λ e. (e.conds.items, e.change)) found ≡ the_effect_numbers line.now) }
{
    let mut words = Words::new(line);
    let count = match number_at(&mut words) {
        Some(count) => count,
        None => return Ok(None),
    };
    let conds = match pairs_at(alloc, &mut words, count)? {
        Some(conds) => conds,
        None => return Ok(None),
    };
    let change = match change_at(&mut words) {
        Some(change) => change,
        None => return Ok(None),
    };
    match words.next_word() {
        None => Ok(Some(EffectNumbers { conds, change })),
        Some(_) => Ok(None),
    }
}

/// The numbers of the variable that a rule sets, of its old value and of its new value.
#[derive(Clone, Copy)]
pub struct Head {
    pub var: u64,
    pub old: u64,
    pub new: u64,
}

/// Takes the numbers of a variable, of its old value and of its new value.
#[tactic(auto, unfolding(crate::specs::Reading::head_at))]
fn head_at(words: &mut Words) -> Option<Head>
    ensures { option_map (λ head. (head, words.new)) result ≡ the_head_at words.old }
{
    let var = number_at(words)?;
    let old = number_at(words)?;
    let new = number_at(words)?;
    Some(Head { var, old, new })
}

/// The numbers of a rule's head that a line is.
pub fn one_head(line: &[u8]) -> Option<Head>
    ensures { result ≡ the_head line.now }
{
    let mut words = Words::new(line);
    let head = head_at(&mut words)?;
    match words.next_word() {
        None => Some(head),
        Some(_) => None,
    }
}
