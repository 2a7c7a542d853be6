// Texts of tasks, and other texts that are made of them.
use std::alloc::{AllocError, Global};
use test_tasks::three_places;

/// The task of three places.
pub fn places() -> &'static [u8] {
    three_places().as_bytes()
}

/// A switch, and two derived variables in two layers. The last rule gives a default.
pub fn layers() -> &'static [u8] {
    "begin_version
3
end_version
begin_metric
0
end_metric
3
begin_variable
x
-1
2
Atom x(0)
Atom x(1)
end_variable
begin_variable
d
0
2
Atom d(0)
Atom d(1)
end_variable
begin_variable
e
1
2
Atom e(0)
Atom e(1)
end_variable
1
begin_mutex_group
2
0 0
1 1
end_mutex_group
begin_state
0
0
0
end_state
begin_goal
1
2 0
end_goal
1
begin_operator
flip
0
1
1 1 0 0 0 1
7
end_operator
3
begin_rule
1
0 1
1 0 1
end_rule
begin_rule
1
1 0
2 0 1
end_rule
begin_rule
1
0 0
1 1 0
end_rule
"
        .as_bytes()
}

/// The text with another line, numbered from 1, in the place of one of its own.
pub fn with_line(
    alloc: Global,
    text: &[u8],
    number: u32,
    line: &[u8],
) -> Result<Vec<u8>, AllocError> {
    let mut out = Vec::new(alloc);
    let mut at: u32 = 1;
    for b in text {
        if at != number {
            out.push(*b)?;
        }
        if *b == b'\n' {
            if at == number {
                out.extend_from_slice(line)?;
                out.push(b'\n')?;
            }
            at = at.saturating_add(1);
        }
    }
    Ok(out)
}

/// The first lines of a text.
pub fn front(alloc: Global, text: &[u8], count: u32) -> Result<Vec<u8>, AllocError> {
    let mut out = Vec::new(alloc);
    let mut at: u32 = 0;
    for b in text {
        if at < count {
            out.push(*b)?;
        }
        if *b == b'\n' {
            at = at.saturating_add(1);
        }
    }
    Ok(out)
}

/// The text with a carriage return before each line feed.
pub fn with_returns(alloc: Global, text: &[u8]) -> Result<Vec<u8>, AllocError> {
    let mut out = Vec::new(alloc);
    for b in text {
        if *b == b'\n' {
            out.push(b'\r')?;
        }
        out.push(*b)?;
    }
    Ok(out)
}

/// A text with more behind it.
pub fn followed(alloc: Global, text: &[u8], more: &[u8]) -> Result<Vec<u8>, AllocError> {
    let mut out = Vec::new(alloc);
    out.extend_from_slice(text)?;
    out.extend_from_slice(more)?;
    Ok(out)
}

/// A text without its last byte.
pub fn without_last(alloc: Global, text: &[u8]) -> Result<Vec<u8>, AllocError> {
    match text {
        [front @ .., _last] => followed(alloc, front, b""),
        [] => Ok(Vec::new(alloc)),
    }
}

/// A line of that many letters.
pub fn letters(alloc: Global, count: usize) -> Result<Vec<u8>, AllocError> {
    let mut out = Vec::new(alloc);
    for _ in 0..count {
        out.push(b'a')?;
    }
    Ok(out)
}
