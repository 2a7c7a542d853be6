// The forms of a plan file's lines.
ghost use Rattle.std.specs.Prelude.{◌≡◌, option_map, codes};
ghost use Rattle.std.specs.Char.{is_ascii_digit};
ghost use Rattle.std.specs.List.{list_all};
ghost use Rattle.lama_num.specs.Decimals.{is_decimal as decimal_test};
ghost use Rattle.plan_text.specs.PlanLines.{behind as the_behind, before as the_before};
ghost use Rattle.plan_text.specs.PlanLines.{step_name as the_step_name, digits_in as the_digits};
ghost use Rattle.plan_text.specs.PlanLines.{cost_digits as the_cost_digits, cost_in as the_cost};

use text_lines::{is_blank, trimmed};

fn behind<'a>(text: &'a [u8], front: &[u8]) -> Option<&'a [u8]>
    ensures { option_map (λ t. t.now) result ≡ the_behind front.now text.now }
{
    text.strip_prefix(front)
}

fn before<'a>(text: &'a [u8], end: &[u8]) -> Option<&'a [u8]>
    ensures { option_map (λ t. t.now) result ≡ the_before end.now text.now }
{
    text.strip_suffix(end)
}

/// The name in a line that is a step.
pub fn step_name(line: &[u8]) -> Option<&[u8]>
    ensures { option_map (λ name. name.now) result ≡ the_step_name line.now }
{
    let rest = behind(line, b"(")?;
    let inner = before(rest, b")")?;
    Some(trimmed(inner))
}

fn are_digits(text: &[u8]) -> bool
    ensures { result ≡ list_all is_ascii_digit text.now }
{
    text.iter().all(|b| b.is_ascii_digit())
}

/// Whether there are digits and nothing else.
fn is_decimal(text: &[u8]) -> bool
    ensures { result ≡ decimal_test text.now }
{
    if text.is_empty() {
        return false;
    }
    are_digits(text)
}

fn digits_in(text: &[u8]) -> Option<&[u8]>
    ensures { option_map (λ digits. digits.now) result ≡ the_digits text.now }
{
    let (last, digits) = text.split_last()?;
    if is_blank(*last) && is_decimal(digits) {
        Some(digits)
    } else {
        None
    }
}

fn cost_digits<'a>(line: &'a [u8], kind: &[u8]) -> Option<&'a [u8]>
    ensures { option_map (λ digits. digits.now) result ≡ the_cost_digits kind.now line.now }
{
    let rest = behind(line, b"; cost = ")?;
    let number = before(rest, kind)?;
    digits_in(number)
}

/// The digits in a line that tells the cost, and whether it says that every operator costs 1.
pub fn cost_in(line: &[u8]) -> Option<(&[u8], bool)>
    ensures { option_map (λ cost. (cost.0.now, cost.1)) result ≡ the_cost line.now }
{
    if let Some(digits) = cost_digits(line, b"(unit cost)") {
        return Some((digits, true));
    }
    let digits = cost_digits(line, b"(general cost)")?;
    Some((digits, false))
}
