// A place in a text, at the beginning of a line.
ghost use Rattle.std.specs.Prelude.{◌≡◌, ◌≤◌, ◌<◌, ◌+◌, ◌^◌, length, MatchOption, [], ◌∷◌};
ghost use Rattle.std.specs.Prelude.{position, nat_eq};
ghost use Rattle.text_lines.specs.Lines.{Place, cut_lines, lines_of, is_blank as blank_test};
ghost use Rattle.text_lines.specs.Lines.{is_margin as margin_test, without_left as the_left};
ghost use Rattle.text_lines.specs.Lines.{without_right as the_right, trimmed as the_trimmed};

use std::marker::Model;

/// A place in a text, at the beginning of a line. Contracts see the lines that are left, and the
/// number of the first of them.
#[derive(Drop)]
pub struct Cursor<'a> {
    rest: &'a [u8],
    line: u64,
}

impl<'a> Model for Cursor<'a> {
    ghost use Rattle.std.specs.Prelude.{◌≤◌, ◌+◌, ◌^◌, length};
    ghost use Rattle.text_lines.specs.Lines.{Place, lines_of};

    ghost Value = { Place };

    ghost view = { λ c. record { left = lines_of c.rest.now; line = c.line } };

    ghost invariant = { λ c. c.line + length c.rest.now ≤ 2 ^ 63 };
}

impl<'a> Cursor<'a> {
    /// A cursor before the first line of a text.
    pub fn new(bytes: &'a [u8]) -> Cursor<'a>
        ensures { result ≡ record { left = lines_of bytes.now; line = 1 } }
    {
        Cursor {
            rest: bytes,
            line: 1,
        }
    }

    /// The number of the next line.
    pub fn line(&self) -> u64
        ensures { result ≡ self.now.line }
    {
        self.line
    }

    /// Takes the next line, without what may stand at its ends.
    pub fn next_line(&mut self) -> Option<&'a [u8]>
        ensures { MatchOption result
            ((self.old.left ≡ []) × (self.new ≡ self.old))
            (λ line. (self.old.left ≡ line.now ∷ self.new.left)
            × (self.new.line ≡ self.old.line + 1)) }
    {
        if self.rest.is_empty() {
            return None;
        }
        let (line, rest) = cut(self.rest);
        self.rest = rest;
        self.line += 1;
        Some(trimmed(line))
    }
}

/// The first line, and what follows its line feed.
fn cut(bytes: &[u8]) -> (&[u8], &[u8])
    requires { 0 < length bytes.now }
    ensures lines { cut_lines bytes.now ≡ result.0.now ∷ cut_lines result.1.now }
    ensures shorter { length result.1.now < length bytes.now }
{
    match line_feed(bytes) {
        Some(i) => (&bytes[..i], &bytes[i + 1..]),
        None => (bytes, &[]),
    }
}

/// The place of the first line feed.
fn line_feed(bytes: &[u8]) -> Option<usize>
    ensures { result ≡ position (λ b. nat_eq b 10) bytes.now }
{
    bytes.iter().position(|b| *b == b'\n')
}

/// Space and tab.
pub fn is_blank(b: u8) -> bool
    ensures { result ≡ blank_test b }
{
    b == b' ' || b == b'\t'
}

/// What may stand at both ends of a line.
fn is_margin(b: u8) -> bool
    ensures { result ≡ margin_test b }
{
    is_blank(b) || b == b'\r'
}

fn without_left(line: &[u8]) -> &[u8]
    ensures { result.now ≡ the_left line.now }
{
    let mut rest = line;
    while let Some((b, tail)) = rest.split_first() {
        if !is_margin(*b) {
            return rest;
        }
        rest = tail;
    }
    rest
}

fn without_right(line: &[u8]) -> &[u8]
    ensures { result.now ≡ the_right line.now }
{
    let mut rest = line;
    while let Some((b, front)) = rest.split_last() {
        if !is_margin(*b) {
            return rest;
        }
        rest = front;
    }
    rest
}

/// A line without blanks and carriage returns at its ends.
pub fn trimmed(line: &[u8]) -> &[u8]
    ensures { result.now ≡ the_trimmed line.now }
{
    without_right(without_left(line))
}
