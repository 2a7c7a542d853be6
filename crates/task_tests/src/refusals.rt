// Texts that are refused, each with its first fault.
use crate::changing::{followed, front, layers, letters, places, with_line};
use sas_reader::{SasError, SasFault, Want, read};
use sas_task::What;
use std::alloc::{AllocError, Global};

/// Whether a text is refused for this fault.
fn has_fault(alloc: Global, text: &[u8], want: SasFault) -> bool {
    match read(alloc, text) {
        Err(SasError::Bad(fault)) => fault == want,
        _ => false,
    }
}

/// Whether a text, where there was memory for it, is refused for this fault.
fn text_has_fault(alloc: Global, text: Result<Vec<u8>, AllocError>, want: SasFault) -> bool {
    match text {
        Ok(text) => has_fault(alloc, &text, want),
        Err(AllocError) => false,
    }
}

/// Whether a text with another line, by its number from 1, is refused for this fault.
fn is_refused(alloc: Global, text: &[u8], number: u32, line: &[u8], want: SasFault) -> bool {
    text_has_fault(alloc, with_line(alloc, text, number, line), want)
}

fn is_bad_line(alloc: Global, text: &[u8], number: u32, line: &[u8], want: Want) -> bool {
    let fault = SasFault::BadLine {
        line: u64::from(number),
        want,
    };
    is_refused(alloc, text, number, line, fault)
}

fn is_bad_number(alloc: Global, text: &[u8], number: u32, line: &[u8]) -> bool {
    let fault = SasFault::BadNumber {
        line: u64::from(number),
    };
    is_refused(alloc, text, number, line, fault)
}

fn is_bad_fact(alloc: Global, text: &[u8], number: u32, line: &[u8]) -> bool {
    let fault = SasFault::BadFact {
        line: u64::from(number),
    };
    is_refused(alloc, text, number, line, fault)
}

fn is_too_large(
    alloc: Global,
    text: &[u8],
    number: u32,
    line: &[u8],
    what: What,
    count: u64,
) -> bool {
    let fault = SasFault::TooLarge { what, count };
    is_refused(alloc, text, number, line, fault)
}

#[test]
fn lines_and_numbers_that_are_refused(rt: HostRuntime) {
    let alloc = rt.alloc();
    assert!(rt; is_bad_line(alloc, places(), 1, b"begin_versio", Want::Word));
    assert!(rt; is_bad_line(alloc, places(), 2, b"4", Want::Version));
    assert!(rt; is_bad_line(alloc, places(), 5, b"2", Want::Metric));
    assert!(rt; is_bad_line(alloc, places(), 40, b" \t", Want::Name));
    assert!(rt; is_bad_line(alloc, places(), 5, b"2\n4", Want::Metric));
    assert!(rt; is_bad_number(alloc, places(), 7, b"-1"));
    assert!(rt; is_bad_number(alloc, places(), 29, b"0 0 0"));
    assert!(rt; is_bad_number(alloc, places(), 30, b"18446744073709551616"));
    assert!(rt; is_bad_number(alloc, layers(), 49, b"1 1 -1 0 0 1"));
}

#[test]
fn facts_and_rules_that_are_refused(rt: HostRuntime) {
    let alloc = rt.alloc();
    assert!(rt; is_bad_fact(alloc, places(), 18, b"3"));
    assert!(rt; is_bad_fact(alloc, places(), 29, b"0 1099511627776 0 1"));
    assert!(rt; is_bad_fact(alloc, layers(), 49, b"0 1 0 1"));
    assert!(rt; is_bad_fact(alloc, layers(), 66, b"1 1 2"));
    assert!(rt; is_refused(alloc, layers(), 18, b"3", SasFault::WideDerived { var: 1 }));
    assert!(rt; is_refused(alloc, layers(), 55, b"2 1", SasFault::BadRule { line: 56 }));
}

#[test]
fn counts_that_are_too_large(rt: HostRuntime) {
    let alloc = rt.alloc();
    let (cost, rules) = (2_147_483_648, 18_446_744_073_709_551_615);
    assert!(rt; is_too_large(alloc, places(), 7, b"1048577", What::Variables, 1_048_577));
    assert!(rt; is_too_large(alloc, places(), 24, b"4194305", What::Operators, 4_194_305));
    assert!(rt; is_too_large(alloc, places(), 27, b"1048577", What::Conditions, 1_048_577));
    assert!(rt; is_too_large(alloc, places(), 30, b"2147483648", What::Cost, cost));
    assert!(rt;
        is_too_large(
            alloc,
            places(),
            46,
            b"18446744073709551615",
            What::Rules,
            rules
        )
    );
    assert!(rt; is_too_large(alloc, layers(), 17, b"1048577", What::Layer, 1_048_577));
    assert!(rt; is_too_large(alloc, layers(), 31, b"1048577", What::GroupFacts, 1_048_577));
}

/// Whether the first lines of a text are cut short at the next.
fn is_cut_short(alloc: Global, text: &[u8], count: u32) -> bool {
    let line = u64::from(count) + 1;
    text_has_fault(
        alloc,
        front(alloc, text, count),
        SasFault::CutShort { line },
    )
}

#[test]
fn texts_that_end_early_or_late(rt: HostRuntime) {
    let alloc = rt.alloc();
    let text = places();
    assert!(rt; is_cut_short(alloc, text, 0));
    assert!(rt; is_cut_short(alloc, text, 45));
    let longer = followed(alloc, text, b"x");
    assert!(rt; text_has_fault(alloc, longer, SasFault::Trailing { line: 47 }));
}

/// The three places with a name of so many letters.
fn named(alloc: Global, count: usize) -> Result<Vec<u8>, AllocError> {
    let name = letters(alloc, count)?;
    with_line(alloc, places(), 9, &name)
}

fn is_read(alloc: Global, text: Result<Vec<u8>, AllocError>) -> bool {
    match text {
        Ok(text) => read(alloc, &text).is_ok(),
        Err(AllocError) => false,
    }
}

#[test]
fn names_that_are_long(rt: HostRuntime) {
    let alloc = rt.alloc();
    let (what, count) = (What::Name, 4097);
    assert!(rt;
        text_has_fault(
            alloc,
            named(alloc, 4097),
            SasFault::TooLarge { what, count }
        )
    );
    assert!(rt; is_read(alloc, named(alloc, 4096)));
}
