// Texts that are no configurations: one for each kind of fault, with its place.
use conf_text::{ConfBad, ConfError, ConfKind, read};
use std::alloc::{AllocError, Global};

fn is_refused(alloc: Global, text: &str, place: u64, kind: ConfKind) -> bool {
    match read(alloc, text) {
        Err(ConfError::Bad(bad)) => bad == ConfBad { place, kind },
        _ => false,
    }
}

#[test]
fn a_text_for_each_fault(rt: HostRuntime) {
    let alloc = rt.alloc();
    let preferred = "lazy_greedy([ff()],preferred=[lm()])";
    let twice = "lazy_greedy([ff()],boost=1,boost=x)";
    assert!(rt; is_refused(alloc, "", 0, ConfKind::CutShort));
    assert!(rt; is_refused(alloc, "lazy_greedy([ff()],boost=1", 26, ConfKind::CutShort));
    assert!(rt; is_refused(alloc, "lazy_greedy([hmax()])", 13, ConfKind::UnknownGuide));
    assert!(rt; is_refused(alloc, "lazy_greedy([ff(),ff()])", 18, ConfKind::TwiceGuide));
    assert!(rt; is_refused(alloc, preferred, 30, ConfKind::NotGuide));
    assert!(rt;
        is_refused(
            alloc,
            "lazy_greedy([ff()],w=2)",
            19,
            ConfKind::UnknownOption
        )
    );
    assert!(rt; is_refused(alloc, twice, 27, ConfKind::TwiceOption));
    assert!(rt; is_refused(alloc, "lazy_wastar([ff()],w=1001)", 21, ConfKind::BadNumber));
    assert!(rt; is_refused(alloc, "lazy_greedy([ff()]))", 19, ConfKind::Trailing));
    assert!(rt; is_refused(alloc, "eager([ff()])", 0, ConfKind::Unexpected));
}

// So many phases, and what stands behind the comma after them.
fn phases(alloc: Global, count: u32, last: &str) -> Result<String, AllocError> {
    let mut text = String::from_str(alloc, "iterated([")?;
    for _i in 0..count {
        text.push_str("lazy_greedy([ff()]),")?;
    }
    text.push_str(last)?;
    Ok(text)
}

/// Whether a text of a hundred phases is refused at the comma after them, and why.
fn is_refused_behind(alloc: Global, last: &str, kind: ConfKind) -> bool {
    match phases(alloc, 100, last) {
        Ok(text) => is_refused(alloc, text.as_str(), 2010, kind),
        Err(AllocError) => false,
    }
}

fn is_read(alloc: Global, last: &str) -> bool {
    match phases(alloc, 99, last) {
        Ok(text) => read(alloc, text.as_str()).is_ok(),
        Err(AllocError) => false,
    }
}

#[test]
fn many_phases(rt: HostRuntime) {
    let alloc = rt.alloc();
    assert!(rt; is_read(alloc, "lazy_greedy([ff()])])"));
    assert!(rt; is_refused_behind(alloc, "lazy_wastar([h()])])", ConfKind::TooMany));
}
