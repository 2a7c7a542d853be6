// The lines of a portfolio's text, and their words.
ghost use Rattle.std.specs.Prelude.{◌≡◌, ◌∷◌, [], IsTrue, MatchOption, position};
ghost use Rattle.std.specs.List.{list_all};
ghost use Rattle.std.specs.Str.{is_utf8};
ghost use Rattle.text_lines.specs.Lines.{is_blank as blank_test};
ghost use Rattle.portfolio_text.specs.PortfolioText.{is_passed as passed, told, end_line};
ghost use Rattle.portfolio_text.specs.PortfolioText.{first_word as the_first};
ghost use Rattle.portfolio_text.specs.PortfolioText.{behind_word as the_behind};
ghost use Rattle.portfolio_text.specs.PortfolioText.{without_blanks as the_rest};

use text_lines::{Cursor, is_blank};

/// Empty lines and comments.
fn is_passed(line: &[u8]) -> bool
    ensures { result ≡ passed line.now }
{
    match line.first() {
        None => true,
        Some(b) => *b == b'#',
    }
}

/// A line that is text.
fn as_text(line: &[u8]) -> &str
    requires { IsTrue (is_utf8 line.now) }
    ensures { result.now ≡ line.now }
{
    match str::from_utf8(line) {
        Ok(text) => text,
        Err(_) => unreachable!(),
    }
}

/// The next line that tells something, with its number.
pub fn next_told<'a>(cursor: &mut Cursor<'a>) -> Option<(u64, &'a str)>
    requires { IsTrue (list_all is_utf8 cursor.old.left) }
    ensures line { MatchOption result
        ((told cursor.old ≡ []) × (cursor.new.left ≡ []))
        (λ line. told cursor.old ≡ (line.0, line.1.now) ∷ told cursor.new) }
    ensures end { end_line cursor.new ≡ end_line cursor.old }
    ensures text { IsTrue (list_all is_utf8 cursor.new.left) }
{
    let mut number = cursor.line();
    while let Some(line) = cursor.next_line() {
        if !is_passed(line) {
            return Some((number, as_text(line)));
        }
        number = cursor.line();
    }
    None
}

/// The place of the first blank.
fn blank(text: &str) -> Option<usize>
    ensures { result ≡ position blank_test text.now }
{
    text.as_bytes().iter().position(|b| is_blank(*b))
}

/// A text without the blanks that it begins with.
pub fn without_blanks(text: &str) -> &str
    ensures { result.now ≡ the_rest text.now }
{
    let mut rest = text;
    while let Some(b) = rest.as_bytes().first() {
        if !is_blank(*b) {
            return rest;
        }
        rest = &rest[1..];
    }
    rest
}

/// The first word of a line.
pub fn first_word(line: &str) -> &str
    ensures { result.now ≡ the_first line.now }
{
    match blank(line) {
        Some(i) => &line[..i],
        None => line,
    }
}

/// What follows the first word and its blanks.
pub fn behind_word(line: &str) -> &str
    ensures { result.now ≡ the_behind line.now }
{
    match blank(line) {
        Some(i) => without_blanks(&line[i..]),
        None => "",
    }
}
