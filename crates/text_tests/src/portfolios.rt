// Texts of portfolios.
use portfolio_text::{AliasName, PortBad, PortError, PortKind, Portfolio, Text, Work, read};
use std::alloc::{AllocError, Global};

/// Whether bytes are refused at a line for this cause.
fn are_refused(alloc: Global, text: &[u8], line: u64, kind: PortKind) -> bool {
    match read(alloc, text) {
        Err(PortError::Bad(bad)) => bad == PortBad { line, kind },
        _ => false,
    }
}

fn is_refused(alloc: Global, text: &str, line: u64, kind: PortKind) -> bool {
    are_refused(alloc, text.as_bytes(), line, kind)
}

#[test]
fn heads_and_ends(rt: HostRuntime) {
    assert!(rt; is_refused(rt.alloc(), "", 1, PortKind::CutShort));
    assert!(rt; is_refused(rt.alloc(), "\n# c\n \t\r\n", 4, PortKind::CutShort));
    assert!(rt; is_refused(rt.alloc(), "portfolio 1", 2, PortKind::CutShort));
    assert!(rt;
        is_refused(
            rt.alloc(),
            "portfolio 1\nentry 1 alias lama\n",
            3,
            PortKind::CutShort
        )
    );
    assert!(rt; is_refused(rt.alloc(), "portfolio 2\nend\n", 1, PortKind::BadHead));
    assert!(rt; is_refused(rt.alloc(), "# c\n\nportfolio  1\n", 3, PortKind::BadHead));
    assert!(rt; is_refused(rt.alloc(), "end\n", 1, PortKind::BadHead));
    assert!(rt; is_refused(rt.alloc(), "portfolio 1\nend\nx", 2, PortKind::NoEntry));
    assert!(rt;
        is_refused(
            rt.alloc(),
            "portfolio 1\nentry 1 alias lama\nend\n#\n\r\nend",
            6,
            PortKind::Trailing
        )
    );
    assert!(rt;
        is_refused(
            rt.alloc(),
            "portfolio 1\nentry 1 alias lama\nend\nentry x",
            4,
            PortKind::Trailing
        )
    );
}

/// A line behind the head and an entry, with a comment between.
fn with_line(alloc: Global, line: &str) -> Result<String, AllocError> {
    let mut text = String::from_str(alloc, "portfolio 1\r\n# c\nentry 1 alias lama\n")?;
    text.push_str(line)?;
    text.push_str("\nend")?;
    Ok(text)
}

fn is_refused_line(alloc: Global, line: &str, kind: PortKind) -> bool {
    match with_line(alloc, line) {
        Ok(text) => is_refused(alloc, text.as_str(), 4, kind),
        Err(AllocError) => false,
    }
}

#[test]
fn entries_that_are_refused(rt: HostRuntime) {
    let alloc = rt.alloc();
    assert!(rt; is_refused_line(alloc, "entry", PortKind::BadShare));
    assert!(rt; is_refused_line(alloc, "entry x y", PortKind::BadShare));
    assert!(rt; is_refused_line(alloc, "entry 0 alias x", PortKind::BadShare));
    assert!(rt; is_refused_line(alloc, "entry 1000001 run a", PortKind::BadShare));
    assert!(rt; is_refused_line(alloc, "entry\t-1 alias lama", PortKind::BadShare));
    assert!(rt; is_refused_line(alloc, "entry 1 alias", PortKind::UnknownAlias));
    assert!(rt; is_refused_line(alloc, "entry 1 alias lama first", PortKind::UnknownAlias));
    assert!(rt; is_refused_line(alloc, "entry 1 search", PortKind::BadConfig));
    assert!(rt;
        is_refused_line(
            alloc,
            "entry 1 search lazy_greedy([h()])",
            PortKind::BadConfig
        )
    );
    assert!(rt; is_refused_line(alloc, "entry 1", PortKind::BadEntry));
    assert!(rt; is_refused_line(alloc, "entry 1 run", PortKind::BadEntry));
    assert!(rt; is_refused_line(alloc, "entry 1 go a", PortKind::BadEntry));
    assert!(rt; is_refused_line(alloc, "entries 1 run a", PortKind::BadEntry));
    assert!(rt; is_refused_line(alloc, "end x", PortKind::BadEntry));
    assert!(rt; is_refused_line(alloc, "portfolio 1", PortKind::BadEntry));
}

fn empty_lines(alloc: Global, count: u32) -> Result<Vec<u8>, AllocError> {
    let mut text = Vec::new(alloc);
    for _i in 0..count {
        text.push(b'\n')?;
    }
    Ok(text)
}

/// Whether so many empty lines are refused at a line for this cause.
fn lines_are_refused(alloc: Global, count: u32, line: u64, kind: PortKind) -> bool {
    match empty_lines(alloc, count) {
        Ok(text) => are_refused(alloc, &text, line, kind),
        Err(AllocError) => false,
    }
}

#[test]
fn texts_that_are_none(rt: HostRuntime) {
    let alloc = rt.alloc();
    assert!(rt; are_refused(alloc, b"portfolio 1\n\xff", 0, PortKind::BadText));
    assert!(rt; are_refused(alloc, b"# \0", 0, PortKind::BadText));
    assert!(rt; lines_are_refused(alloc, 1_048_577, 0, PortKind::TooLong));
    assert!(rt; lines_are_refused(alloc, 1_048_576, 1_048_577, PortKind::CutShort));
}

// A portfolio of so many entries.
fn entries(alloc: Global, count: u32) -> Result<String, AllocError> {
    let mut text = String::from_str(alloc, "portfolio 1\n")?;
    for _i in 0..count {
        text.push_str("entry 1 alias lama\n")?;
    }
    text.push_str("end\n")?;
    Ok(text)
}

fn is_read(alloc: Global, count: u32) -> bool {
    match entries(alloc, count) {
        Ok(text) => read(alloc, text.as_bytes()).is_ok(),
        Err(AllocError) => false,
    }
}

fn has_too_many(alloc: Global, count: u32, line: u64) -> bool {
    match entries(alloc, count) {
        Ok(text) => is_refused(alloc, text.as_str(), line, PortKind::TooMany),
        Err(AllocError) => false,
    }
}

#[test]
fn many_entries(rt: HostRuntime) {
    assert!(rt; is_read(rt.alloc(), 1000));
    assert!(rt; has_too_many(rt.alloc(), 1001, 1002));
}

fn work_is(work: &Work, kind: &str, count: usize) -> bool {
    match work {
        Work::Search(config) => kind == "search" && config.phases.len() == count,
        Work::Alias(AliasName::Lama) => kind == "lama",
        Work::Alias(AliasName::LamaFirst) => kind == "lama-first",
        Work::Run(words) => kind == "run" && words.len() == count,
    }
}

fn entry_is(portfolio: &Portfolio, entry: usize, share: u32, kind: &str, count: usize) -> bool {
    match portfolio.entries.as_slice().get(entry) {
        Some(entry) => entry.share == share && work_is(&entry.work, kind, count),
        None => false,
    }
}

fn last_word_is(words: &[Text], want: &str) -> bool {
    match words.last() {
        Some(word) => word.as_str() == want,
        None => false,
    }
}

fn ends_with(portfolio: &Portfolio, want: &str) -> bool {
    match portfolio.entries.as_slice().last() {
        Some(entry) => match &entry.work {
            Work::Run(words) => last_word_is(words, want),
            _ => false,
        },
        None => false,
    }
}

fn entries_are(alloc: Global, text: &[u8]) -> bool {
    let Ok(portfolio) = read(alloc, text) else {
        return false;
    };
    portfolio.entries.len() == 4
        && entry_is(&portfolio, 0, 3, "search", 1)
        && entry_is(&portfolio, 1, 2, "lama", 0)
        && entry_is(&portfolio, 2, 1_000_000, "lama-first", 0)
        && entry_is(&portfolio, 3, 5, "run", 4)
        && ends_with(&portfolio, "é#")
}

#[test]
fn a_portfolio(rt: HostRuntime) {
    let text = "# c\n\nportfolio 1\r\n\tentry 3 search  lazy_greedy( [ff()] ) \n\
        entry  0002 \talias\tlama\nentry 1000000 alias lama-first\n#entry\n\
        entry 5 run a\t b  {plan} é#\r\nend\n\n# c";
    assert!(rt; entries_are(rt.alloc(), text.as_bytes()));
}
