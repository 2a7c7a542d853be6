// The words of a line.
ghost use Rattle.std.specs.Prelude.{◌≡◌, ◌<◌, ◌≤◌, length, MatchOption, [], ◌∷◌, ◌+◌, position};
ghost use Rattle.std.specs.Prelude.{take, drop};
ghost use Rattle.text_lines.specs.Lines.{words_of, is_blank as blank_test, FirstIsNoBlank};

use crate::cursor::is_blank;
use std::marker::Model;

/// A place in a line. Contracts see the words that are left.
#[derive(Drop)]
pub struct Words<'a> {
    rest: &'a [u8],
}

impl<'a> Model for Words<'a> {
    ghost use Rattle.std.specs.Prelude.{ℕ, List};
    ghost use Rattle.text_lines.specs.Lines.{words_of};

    ghost Value = { List (List ℕ) };

    ghost view = { λ w. words_of w.rest.now };
}

impl<'a> Words<'a> {
    /// The words of a line, none of which is read yet.
    pub fn new(line: &'a [u8]) -> Words<'a>
        ensures { result ≡ words_of line.now }
    {
        Words { rest: line }
    }

    /// Takes the next word.
    pub fn next_word(&mut self) -> Option<&'a [u8]>
        ensures { MatchOption result
            ((self.old ≡ []) × (self.new ≡ []))
            (λ word. self.old ≡ word.now ∷ self.new) }
    {
        let text = after_blanks(self.rest);
        if text.is_empty() {
            self.rest = text;
            return None;
        }
        let (word, rest) = cut(text);
        self.rest = rest;
        Some(word)
    }
}

/// What follows blanks, which are no words.
fn after_blanks(text: &[u8]) -> &[u8]
    ensures same { words_of result.now ≡ words_of text.now }
    ensures no_blank { FirstIsNoBlank result.now }
{
    let mut rest = text;
    while let Some((b, tail)) = rest.split_first() {
        if !is_blank(*b) {
            return rest;
        }
        rest = tail;
    }
    rest
}

/// The first word, and what follows it.
fn cut(text: &[u8]) -> (&[u8], &[u8])
    requires some { 0 < length text.now }
    requires no_blank { FirstIsNoBlank text.now }
    ensures { words_of text.now ≡ result.0.now ∷ words_of result.1.now }
{
    match blank(text) {
        Some(i) => (&text[..i], &text[i + 1..]),
        None => (text, &[]),
    }
}

/// The place of the first blank.
fn blank(text: &[u8]) -> Option<usize>
    ensures { result ≡ position blank_test text.now }
{
    text.iter().position(|b| is_blank(*b))
}
