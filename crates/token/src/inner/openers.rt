// The tokens of more than one byte, each by its opener at a place; and the kinds of the others.
ghost use Rattle.std.specs.Prelude.{◌≡◌, ◌+◌, ◌<◌, ◌≤◌, length, drop};
ghost use Rattle.text.specs.Classes.{classes};
ghost use Rattle.text.specs.Scans.{later, sought};
ghost use Rattle.token.specs.Tokens.{moved, allowed, word_token, tag_token, minus_token, dots_token, inside_look, string_of, insens_token, quoted, char_token, doc_token, opener_token, one_kind};

use super::runs;
use crate::{Token, kind};
use text::inner::words;

// A word of n bytes is a token. Few words begin with P.
#[tactic(auto, unfolding(crate::specs::Tokens::allowed, text::specs::Words::begins))]
fn word_allowed(s: &[u8], at: usize, n: usize) -> bool
    requires { at < length s.now }
    ensures { result ≡ allowed n (drop at s.now) }
{
    if s[at] != b'P' || !words::begins_at(b"PUSH", s, at) {
        return true;
    }
    n == 4 || n == 12 && words::begins_at(b"PUSH_LITERAL", s, at)
}

// A word.
pub(crate) fn word_at(t: &[u8; 256], s: &[u8], at: usize) -> Token
    requires t_value { t.now ≡ classes }
    requires at_in_bounds { at < length s.now }
    ensures { result ≡ moved at (word_token (drop at s.now)) }
{
    let end = runs::word_end(t, s, at);
    if word_allowed(s, at, end - at) {
        return Token::Found {
            kind: kind::WORD,
            start: at,
            end,
        };
    }
    Token::NoToken(at)
}

// A tag: `#` and directly a word's spelling.
#[tactic(auto, using(crate::proofs::Places::none, crate::proofs::Places::found, crate::proofs::Runs::first_at_lem), unfolding(crate::specs::Tokens::tag_token))]
fn tag_at(t: &[u8; 256], s: &[u8], at: usize) -> Token
    requires t_value { t.now ≡ classes }
    requires at_in_bounds { at < length s.now }
    ensures { result ≡ moved at (tag_token (drop (at + 1) s.now)) }
{
    let j = at + 1;
    if j < s.len() && words::starts_word(t, s[j]) {
        return Token::Found {
            kind: kind::TAG,
            start: at,
            end: runs::word_end(t, s, j),
        };
    }
    Token::NoToken(at)
}

// A negative number: `-` and digits not all 0.
fn minus_at(t: &[u8; 256], s: &[u8], at: usize) -> Token
    requires t_value { t.now ≡ classes }
    requires at_in_bounds { at < length s.now }
    ensures { result ≡ moved at (minus_token (drop (at + 1) s.now)) }
{
    let zeros = runs::zeros_end(s, at + 1);
    let end = runs::digits_end(t, s, at + 1);
    if zeros < end {
        return Token::Found {
            kind: kind::NEGATIVE_NUMBER,
            start: at,
            end,
        };
    }
    Token::NoToken(at)
}

// `..`
#[tactic(auto, using(crate::proofs::Places::none, crate::proofs::Places::found), unfolding(crate::specs::Tokens::dots_token))]
fn dots_at(s: &[u8], at: usize) -> Token
    requires { at < length s.now }
    ensures { result ≡ moved at (dots_token (drop (at + 1) s.now)) }
{
    if runs::next_is(s, at + 1, b'.') {
        return Token::Found {
            kind: kind::DOTS,
            start: at,
            end: at + 2,
        };
    }
    Token::NoToken(at)
}

// Up to the `"` or the bad backslash that ends the inside of a string.
fn inside_end(s: &[u8], at: usize) -> Option<usize>
    ensures { result ≡ later at (sought inside_look 0 (drop at s.now)) }
{
    let mut i = at;
    while i < s.len() {
        match s[i] {
            b'"' => {
                return Some(i);
            }
            b'\\' => match literal::escape_at(s, i) {
                Some((_, n)) => {
                    i += n;
                }
                None => {
                    return Some(i);
                }
            },
            _ => {
                i += 1;
            }
        }
    }
    None
}

// A string that the k bytes at a place open. A bad escape is told at its backslash.
fn string_at(s: &[u8], at: usize, kind: u8, k: usize) -> Token
    requires { at + k ≤ length s.now }
    ensures { result ≡ moved at (string_of kind k (drop (at + k) s.now)) }
{
    let inside = inside_end(s, at + k);
    match inside {
        None => Token::NoToken(at),
        Some(i) => {
            if s[i] == b'"' {
                return Token::Found {
                    kind,
                    start: at,
                    end: i + 1,
                };
            }
            Token::NoToken(i)
        }
    }
}

// `^` directly before a string.
#[tactic(auto, using(crate::proofs::Places::none, crate::proofs::Runs::drop_next), unfolding(crate::specs::Tokens::insens_token))]
fn insens_at(s: &[u8], at: usize) -> Token
    requires { at < length s.now }
    ensures { result ≡ moved at (insens_token (drop (at + 1) s.now)) }
{
    if runs::next_is(s, at + 1, b'"') {
        return string_at(s, at, kind::INSENSITIVE_STRING, 2);
    }
    Token::NoToken(at)
}

// The `'` that closes a character literal, n bytes after the first.
fn quoted_at(s: &[u8], at: usize, n: usize) -> Token
    requires at_in_bounds { at < length s.now }
    requires n_bound { n ≤ 10 }
    ensures { result ≡ moved at (quoted n (drop (at + 1) s.now)) }
{
    let j = at + 1 + n;
    if runs::next_is(s, j, b'\'') {
        return Token::Found {
            kind: kind::CHARACTER,
            start: at,
            end: j + 1,
        };
    }
    Token::NoToken(at)
}

// A character literal: one escape, or one character but a backslash. A bad escape is told at its backslash.
fn char_at(s: &[u8], at: usize) -> Token
    requires { at < length s.now }
    ensures { result ≡ moved at (char_token (drop (at + 1) s.now)) }
{
    let j = at + 1;
    if runs::next_is(s, j, b'\\') {
        return match literal::escape_at(s, j) {
            Some((_, n)) => quoted_at(s, at, n),
            None => Token::NoToken(j),
        };
    }
    match text::char_at(s, j) {
        Some((_, n)) => quoted_at(s, at, n),
        None => Token::NoToken(at),
    }
}

// A doc: `//!` or `///` up to the line's end.
#[tactic(auto, using(crate::proofs::Places::none, crate::proofs::Places::found, crate::proofs::Runs::drop_next), unfolding(crate::specs::Tokens::doc_token))]
fn doc_at(s: &[u8], at: usize) -> Token
    requires { at < length s.now }
    ensures { result ≡ moved at (doc_token (drop (at + 1) s.now)) }
{
    let j = at + 1;
    if runs::next_is(s, j, b'/') && runs::next_is(s, j + 1, b'!') {
        return Token::Found {
            kind: kind::GRAMMAR_DOC,
            start: at,
            end: runs::line_end(s, j),
        };
    }
    if runs::next_is(s, j, b'/') && runs::next_is(s, j + 1, b'/') {
        return Token::Found {
            kind: kind::LINE_DOC,
            start: at,
            end: runs::line_end(s, j),
        };
    }
    Token::NoToken(at)
}

// What an opener at a place begins.
#[tactic(auto, using(crate::proofs::Places::none), unfolding(crate::specs::Tokens::opener_token))]
pub(crate) fn opener_at(t: &[u8; 256], s: &[u8], at: usize, b: u8) -> Token
    requires t_value { t.now ≡ classes }
    requires at_in_bounds { at < length s.now }
    ensures { result ≡ moved at (opener_token b (drop (at + 1) s.now)) }
{
    match b {
        b'"' => string_at(s, at, kind::STRING, 1),
        b'\'' => char_at(s, at),
        b'^' => insens_at(s, at),
        b'#' => tag_at(t, s, at),
        b'.' => dots_at(s, at),
        b'/' => doc_at(s, at),
        b'-' => minus_at(t, s, at),
        _ => Token::NoToken(at),
    }
}

// The kind of a one-byte token.
#[tactic(auto, unfolding(crate::specs::Tokens::one_kind))]
pub fn one_kind(b: u8) -> u8
    ensures { result ≡ one_kind b }
{
    match b {
        b'=' => kind::EQUALS,
        b'{' => kind::OPENING_BRACE,
        b'}' => kind::CLOSING_BRACE,
        b'[' => kind::OPENING_BRACK,
        b']' => kind::CLOSING_BRACK,
        b'(' => kind::OPENING_PAREN,
        b')' => kind::CLOSING_PAREN,
        b'&' => kind::AMPERSAND,
        b'!' => kind::EXCLAMATION,
        b'~' => kind::TILDE,
        b'|' => kind::BAR,
        b'?' => kind::QUESTION,
        b'*' => kind::STAR,
        b'+' => kind::PLUS,
        b',' => kind::COMMA,
        b'@' => kind::AT,
        b'$' => kind::DOLLAR,
        _ => kind::WORD,
    }
}
