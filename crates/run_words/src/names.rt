// Names of files that words give.
ghost use Rattle.std.specs.Prelude.{◌≡◌, not, nat_eq, option_map};
ghost use Rattle.std.specs.List.{list_all};
ghost use Rattle.run_words.specs.OwnNames.{is_plan_number as number_test};
ghost use Rattle.run_words.specs.OwnNames.{begins_with_digit as digit_test};
ghost use Rattle.run_words.specs.OwnNames.{is_of_child as child_test, is_own_ending as ending_test};
ghost use Rattle.run_words.specs.OwnNames.{is_own_name as own_test};
ghost use Rattle.run_words.specs.Requests.{is_file_name as name_test, is_own as own_if_given};

use itoa::Buffer;
use lama_num::{MOST_PLANS, read_decimal};

fn has_no_nul(name: &[u8]) -> bool
    ensures { result ≡ list_all (λ b. not (nat_eq b 0)) name.now }
{
    name.iter().all(|b| *b != 0)
}

/// Whether a text can be the name of a file: it isn't empty and holds no NUL byte.
pub fn is_file_name(name: &[u8]) -> bool
    ensures { result ≡ name_test name.now }
{
    !name.is_empty() && has_no_nul(name)
}

fn is_plan_number(digits: &[u8]) -> bool
    ensures { result ≡ number_test digits.now }
{
    match read_decimal(digits) {
        None => false,
        Some(n) => 1 <= n
            && n <= u64::from(MOST_PLANS)
            && digits == Buffer::new().format(n).as_bytes(),
    }
}

fn begins_with_digit(bytes: &[u8]) -> bool
    ensures { result ≡ digit_test bytes.now }
{
    match bytes.first() {
        Some(b) => b.is_ascii_digit(),
        None => false,
    }
}

fn is_of_child(bytes: &[u8]) -> bool
    ensures { result ≡ child_test bytes.now }
{
    match bytes.split_first() {
        Some((b, rest)) => *b == b'c' && begins_with_digit(rest),
        None => false,
    }
}

fn is_own_ending(bytes: &[u8]) -> bool
    ensures { result ≡ ending_test bytes.now }
{
    match bytes.split_first() {
        Some((b, rest)) => {
            *b == b'.' && (rest == b"part".as_slice() || is_plan_number(rest) || is_of_child(rest))
        }
        None => true,
    }
}

/// Whether a name is one of the run's own files: `base`, `base.part`, `base.1` to `base.9999`, or
/// one that begins as a child's.
fn is_own_name(base: &[u8], name: &[u8]) -> bool
    ensures { result ≡ own_test base.now name.now }
{
    if name.len() < base.len() {
        return false;
    }
    &name[..base.len()] == base && is_own_ending(&name[base.len()..])
}

/// The same of a name that is given, if one is.
pub fn is_own(base: &str, name: Option<&str>) -> bool
    ensures { result ≡ own_if_given base.now (option_map (λ n. n.now) name.entry) }
{
    match name {
        Some(name) => is_own_name(base.as_bytes(), name.as_bytes()),
        None => false,
    }
}
