// The one exit code of a whole run.
ghost use Rattle.std.specs.Prelude.{◌≡◌};
ghost use Rattle.exit_codes.specs.Combined.{combine_of, code_with_plan, code_without_plan};
ghost use Rattle.exit_codes.specs.Combined.{critical, single_critical};

use crate::sets::Codes;

/// The exit code of a run whose parts gave these codes; `kept` says whether a plan was kept.
///
/// Source: the driver of Fast Downward, `driver/returncodes.py`.
pub fn combine(codes: Codes, kept: bool) -> u8
    ensures { result ≡ combine_of codes kept }
{
    match critical_error(codes) {
        Some(code) => code,
        None if kept => with_plan(codes),
        None => without_plan(codes),
    }
}

/// The one critical error, or 32 where there are several.
fn critical_error(codes: Codes) -> Option<u8>
    ensures { result ≡ single_critical (critical codes) }
{
    let mut found = None;
    for code in 30..40 {
        if codes.has(code) {
            found = Some(if found.is_none() { code } else { 32 });
        }
    }
    found
}

fn with_plan(codes: Codes) -> u8
    ensures { result ≡ code_with_plan codes }
{
    let memory = if codes.has(22) { 1 } else { 0 };
    let time = if codes.has(23) { 2 } else { 0 };
    memory + time
}

fn without_plan(codes: Codes) -> u8
    ensures { result ≡ code_without_plan codes }
{
    if codes.has(11) {
        return 11;
    }
    if codes.has(12) {
        return 12;
    }
    match (codes.has(22), codes.has(23)) {
        (true, true) => 24,
        (true, false) => 22,
        (false, true) => 23,
        (false, false) => 12,
    }
}
