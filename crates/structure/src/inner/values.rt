// Values: the first fault among a text's tokens, from the left.
ghost use Rattle.std.specs.Prelude.{◌≡◌, ◌+◌, ◌≤◌, ◌<◌, length};
ghost use Rattle.text.specs.Digits.{decimal_of};
ghost use Rattle.literal.specs.Escapes.{bad_escape};
ghost use Rattle.token.specs.Table.{toks, between, word, Lent};
ghost use Rattle.structure.specs.Values.{peek_fault, exceeds, above_fault, repeat_fault, literal_fault, word_fault, number_fault, integer_of, opening, literal_bytes, fault_at, faults};

use super::tokens::refused_at;
use crate::{Edition, Level, Refusal, Why};
use text::DecimalError;
use token::inner::listing::{end_at, kind_at, start_at, token_count};
use token::kind;

// PUSH_LITERAL, at the plain level.
fn word_fault(text: &[u8], tokens: &[u32], level: Level, at: usize) -> Option<Refusal>
    requires { Lent text.now tokens.now }
    ensures { result ≡ word_fault level text.now at }
{
    match level {
        Level::Tagged => None,
        Level::Plain => {
            if super::tokens::spelled(b"PUSH_LITERAL", text, tokens, at) {
                return Some(refused_at(Why::NotPlain, text, tokens, at));
            }
            None
        }
    }
}

// What a repeat number is worth.
pub fn number_of(text: &[u8], tokens: &[u32], at: usize) -> Result<u32, DecimalError>
    requires lent { Lent text.now tokens.now }
    requires at_in_bounds { at < length (toks text.now) }
    ensures { result ≡ decimal_of 4294967295 (word text.now at) }
{
    let a = start_at(text, tokens, at);
    let z = end_at(text, tokens, at);
    text::decimal_of(&text[a..z], 4294967295)
}

// What a number in a PEEK slice is worth, its sign aside.
pub fn integer_of(text: &[u8], tokens: &[u32], at: usize) -> Result<u32, DecimalError>
    requires lent { Lent text.now tokens.now }
    requires at_in_bounds { at < length (toks text.now) }
    ensures { result ≡ integer_of text.now at }
{
    let a = start_at(text, tokens, at);
    let z = end_at(text, tokens, at);
    if kind_at(text, tokens, at) == kind::NEGATIVE_NUMBER {
        let b = a + 1;
        return text::decimal_of(&text[b..z], 2147483648);
    }
    text::decimal_of(&text[a..z], 2147483647)
}

// A number in a PEEK slice.
fn peek_fault(text: &[u8], tokens: &[u32], at: usize) -> Option<Refusal>
    requires lent { Lent text.now tokens.now }
    requires at_in_bounds { at < length (toks text.now) }
    ensures { result ≡ peek_fault text.now at (integer_of text.now at) }
{
    let value = integer_of(text, tokens, at);
    match value {
        Ok(_) => None,
        Err(DecimalError::Over) => Some(refused_at(Why::PeekRange, text, tokens, at)),
        Err(DecimalError::NotDigits) => None,
    }
}

// Whether a count is above the maximum behind it. One that is too large or 0 has a fault of its own.
fn exceeds(text: &[u8], tokens: &[u32], at: usize, n: u32) -> bool
    requires lent { Lent text.now tokens.now }
    requires at_in_bounds { at < length (toks text.now) }
    ensures { result ≡ exceeds text.now at n }
{
    if kind_at(text, tokens, at + 1) != kind::COMMA
        || kind_at(text, tokens, at + 2) != kind::NUMBER
    {
        return false;
    }
    let most = number_of(text, tokens, at + 2);
    match most {
        Ok(m) => m != 0 && m < n,
        Err(DecimalError::Over) => false,
        Err(DecimalError::NotDigits) => false,
    }
}

// A count that isn't 0, as the edition asks it.
fn above_fault(text: &[u8], tokens: &[u32], edition: Edition, at: usize, n: u32) -> Option<Refusal>
    requires lent { Lent text.now tokens.now }
    requires at_in_bounds { at < length (toks text.now) }
    ensures { result ≡ above_fault edition text.now at n }
{
    match edition {
        Edition::First => None,
        Edition::Second => {
            if exceeds(text, tokens, at, n) {
                return Some(refused_at(Why::Above, text, tokens, at));
            }
            None
        }
    }
}

// A repeat number.
fn repeat_fault(text: &[u8], tokens: &[u32], edition: Edition, at: usize) -> Option<Refusal>
    requires lent { Lent text.now tokens.now }
    requires at_in_bounds { at < length (toks text.now) }
    ensures { result ≡ repeat_fault edition text.now at (decimal_of 4294967295 (word text.now at)) }
{
    let value = number_of(text, tokens, at);
    match value {
        Err(DecimalError::NotDigits) => None,
        Err(DecimalError::Over) => Some(refused_at(Why::Over, text, tokens, at)),
        Ok(n) => {
            if n != 0 {
                return above_fault(text, tokens, edition, at, n);
            }
            if kind_at(text, tokens, at + 1) == kind::CLOSING_BRACE {
                return Some(refused_at(Why::Zero, text, tokens, at));
            }
            None
        }
    }
}

// A number, by the kind of the token before it.
fn number_fault(
    text: &[u8],
    tokens: &[u32],
    edition: Edition,
    before: u8,
    at: usize,
) -> Option<Refusal>
    requires lent { Lent text.now tokens.now }
    requires at_in_bounds { at < length (toks text.now) }
    ensures { result ≡ number_fault edition text.now before at }
{
    match before {
        kind::OPENING_BRACK | kind::DOTS => peek_fault(text, tokens, at),
        _ => repeat_fault(text, tokens, edition, at),
    }
}

// The first bad escape in the part of a text from a to z.
fn bad_escape_in(text: &[u8], a: usize, z: usize) -> Option<usize>
    requires { z ≤ length text.now }
    ensures { result ≡ bad_escape (between text.now a z) }
{
    if z <= a {
        return None;
    }
    literal::inner::escapes::bad_escape(&text[a..z])
}

// The escapes of a literal that `skip` bytes open.
fn literal_fault(text: &[u8], tokens: &[u32], at: usize, skip: usize) -> Option<Refusal>
    requires lent { Lent text.now tokens.now }
    requires at_in_bounds { at < length (toks text.now) }
    requires skip_value { skip ≡ opening text.now at }
    ensures { result ≡ literal_fault text.now at (bad_escape (literal_bytes text.now at)) }
{
    let a = start_at(text, tokens, at) + skip;
    let z = end_at(text, tokens, at);
    let bad = bad_escape_in(text, a, z - 1);
    match bad {
        None => None,
        Some(k) => Some(Refusal {
            why: Why::NotScalar,
            place: a + k,
        }),
    }
}

// What is wrong with a token's value.
fn fault_at(
    text: &[u8],
    tokens: &[u32],
    edition: Edition,
    level: Level,
    before: u8,
    at: usize,
) -> Option<Refusal>
    requires lent { Lent text.now tokens.now }
    requires at_in_bounds { at < length (toks text.now) }
    ensures { result ≡ fault_at edition level text.now before at }
{
    let k = kind_at(text, tokens, at);
    match k {
        kind::WORD => word_fault(text, tokens, level, at),
        kind::NUMBER => number_fault(text, tokens, edition, before, at),
        kind::NEGATIVE_NUMBER => peek_fault(text, tokens, at),
        kind::STRING | kind::CHARACTER => literal_fault(text, tokens, at, 1),
        kind::INSENSITIVE_STRING => literal_fault(text, tokens, at, 2),
        _ => None,
    }
}

// The first fault of a text, from the left.
pub fn faults(text: &[u8], tokens: &[u32], edition: Edition, level: Level) -> Option<Refusal>
    requires { Lent text.now tokens.now }
    ensures { result ≡ faults edition level text.now }
{
    let n = token_count(text, tokens);
    let mut before: u8 = 0;
    for i in 0..n {
        let fault = fault_at(text, tokens, edition, level, before, i);
        match fault {
            None => {
                before = kind_at(text, tokens, i);
            }
            Some(refusal) => {
                return Some(refusal);
            }
        }
    }
    None
}
