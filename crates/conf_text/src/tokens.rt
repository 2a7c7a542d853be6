// A place in a text, and the token in front of it.
ghost use Rattle.std.specs.Prelude.{◌≡◌, ◌≤◌, ◌+◌, ◌^◌, length, position};
ghost use Rattle.std.specs.List.{position_or_len};
ghost use Rattle.std.specs.Str.{bytes_eq};
ghost use Rattle.lama_num.specs.Gives.{Gives};
ghost use Rattle.conf_text.specs.Rules.{bad_at, fixed as the_fixed, another as the_another};
ghost use Rattle.conf_text.specs.Tokens.{next, is_word_byte as word_test, ends_word, after_blanks};
ghost use Rattle.conf_text.specs.Tokens.{token_length as the_length, is_word as word};

use crate::faults::{ConfBad, ConfKind};
use std::marker::Model;
use text_lines::is_blank;

/// A place in a text. Contracts see how many bytes came before, and those that are left.
#[derive(Drop)]
pub struct Cursor<'a> {
    left: &'a [u8],
    place: u64,
}

impl<'a> Model for Cursor<'a> {
    ghost use Rattle.std.specs.Prelude.{◌≤◌, ◌+◌, ◌^◌, length};
    ghost use Rattle.conf_text.specs.Tokens.{Spot};

    ghost Value = { Spot };

    ghost view = { λ c. record { place = c.place; left = c.left.now } };

    ghost invariant = { λ c. c.place + length c.left.now ≤ 2 ^ 63 };
}

/// A word, or one other byte; at the end of the text it has no byte.
#[derive(Clone, Copy)]
pub struct Token<'a> {
    pub place: u64,
    pub text: &'a [u8],
}

/// Letters and digits of ASCII, and `_`.
fn is_word_byte(b: u8) -> bool
    ensures { result ≡ word_test b }
{
    b.is_ascii_alphanumeric() || b == b'_'
}

/// Passes over blanks in front.
#[tactic(auto, unfolding(crate::specs::Tokens::after_blanks))]
fn behind_blanks(text: &[u8], from: u64) -> (&[u8], u64)
    requires { from + length text.now ≤ 2 ^ 63 }
    ensures exact { after_blanks from text.now
        ≡ record { place = result.1; left = result.0.now } }
    ensures within { result.1 + length result.0.now ≤ 2 ^ 63 }
{
    let mut left = text;
    let mut place = from;
    while let Some((b, rest)) = left.split_first() {
        if !is_blank(*b) {
            return (left, place);
        }
        left = rest;
        place += 1;
    }
    (left, place)
}

/// Where the word that a text begins with ends.
fn word_end(text: &[u8]) -> Option<usize>
    ensures { result ≡ position ends_word text.now }
{
    text.iter().position(|b| !is_word_byte(*b))
}

/// The number of bytes of the word that a text begins with.
fn word_length(text: &[u8]) -> usize
    ensures exact { result ≡ position_or_len ends_word text.now }
    ensures within { result ≤ length text.now }
{
    match word_end(text) {
        None => text.len(),
        Some(n) => n,
    }
}

/// The number of bytes of the token that a text begins with.
#[tactic(auto, unfolding(crate::specs::Tokens::token_length))]
fn token_length(text: &[u8]) -> usize
    ensures exact { result ≡ the_length text.now }
    ensures within { result ≤ length text.now }
{
    match text.first() {
        None => 0,
        Some(b) if is_word_byte(*b) => word_length(text),
        Some(_) => 1,
    }
}

impl<'a> Token<'a> {
    /// Whether the token is a word.
    pub fn is_word(&self) -> bool
        ensures { result ≡ word self.now.text.now }
    {
        match self.text.first() {
            None => false,
            Some(b) => is_word_byte(*b),
        }
    }

    /// Whether the token is this word or sign.
    pub fn is(&self, text: &str) -> bool
        ensures { result ≡ bytes_eq self.now.text.now text.now }
    {
        self.text == text.as_bytes()
    }

    /// The token can't stand here; the end of the text is always a cut.
    pub fn refused(&self, kind: ConfKind) -> ConfBad
        ensures { result ≡ bad_at (record { place = self.now.place; text = self.now.text.now })
            kind }
    {
        ConfBad {
            place: self.place,
            kind: if self.text.is_empty() {
                ConfKind::CutShort
            } else {
                kind
            },
        }
    }
}

impl<'a> Cursor<'a> {
    /// A cursor before the first token of a text.
    pub fn new(text: &'a [u8]) -> Cursor<'a>
        ensures { result ≡ record { place = 0; left = text.now } }
    {
        Cursor {
            left: text,
            place: 0,
        }
    }

    /// Takes the next token. At the end of the text it stays there.
    #[tactic(auto, unfolding(crate::specs::Tokens::next))]
    pub fn next_token(&mut self) -> Token<'a>
        ensures { next self.old
            ≡ (record { place = result.place; text = result.text.now }, self.new) }
    {
        let (left, place) = behind_blanks(self.left, self.place);
        let n = token_length(left);
        self.left = &left[n..];
        self.place = place + n as u64;
        Token {
            place,
            text: &left[..n],
        }
    }
}

/// A sign or a word that is fixed.
pub fn fixed(cursor: &mut Cursor, text: &str) -> Result<(), ConfBad>
    ensures { Gives Some (λ _. (tt, cursor.new)) result (the_fixed text.now cursor.old) }
{
    let token = cursor.next_token();
    if token.is(text) {
        Ok(())
    } else {
        Err(token.refused(ConfKind::Unexpected))
    }
}

/// Whether another member of a list follows, or what closes it.
pub fn another(cursor: &mut Cursor, close: &str) -> Result<bool, ConfBad>
    ensures { Gives Some (λ more. (more, cursor.new)) result
        (the_another close.now cursor.old) }
{
    let token = cursor.next_token();
    if token.is(",") {
        Ok(true)
    } else if token.is(close) {
        Ok(false)
    } else {
        Err(token.refused(ConfKind::Unexpected))
    }
}
