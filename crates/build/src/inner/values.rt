// What tokens are worth, from the bytes of the text.
ghost use Rattle.std.specs.Prelude.{◌≡◌, true, ◌<◌, length};
ghost use Rattle.literal.specs.Escapes.{escape_of};
ghost use Rattle.token.specs.Table.{toks, is, Lent};
ghost use Rattle.structure.specs.Values.{value_of, negated, number, is_integer, integer, opening, char_by, character};
ghost use Rattle.structure.specs.Structure.{postfix_at, from_number, from_comma};
ghost use Rattle.build.specs.Build.{Accepted, suffix_of};

use structure::inner::values::{integer_of, number_of};
use table::Unary;
use text::DecimalError;
use token::inner::listing::{end_at, kind_at, start_at};
use token::kind;

fn worth_of(d: Result<u32, DecimalError>) -> u32
    ensures { result ≡ value_of d }
{
    match d {
        Ok(n) => n,
        Err(DecimalError::Over) => 0,
        Err(DecimalError::NotDigits) => 0,
    }
}

// The two's complement of a number.
fn negate(n: u32) -> u32
    ensures { result ≡ negated n }
{
    n.wrapping_neg()
}

// A repeat number.
fn number_at(text: &[u8], tokens: &[u32], at: usize) -> u32
    requires lent { Lent text.now tokens.now }
    requires at_in_bounds { at < length (toks text.now) }
    ensures { result ≡ number text.now at }
{
    worth_of(number_of(text, tokens, at))
}

#[tactic(auto, using(crate::proofs::Worths::integer_here, crate::proofs::Worths::integer_gone))]
pub fn is_integer(text: &[u8], tokens: &[u32], at: usize) -> bool
    requires { Lent text.now tokens.now }
    ensures { result ≡ is_integer text.now at }
{
    matches!(
        kind_at(text, tokens, at),
        kind::NUMBER | kind::NEGATIVE_NUMBER
    )
}

// A number of a PEEK slice, in two's complement.
pub fn integer_at(text: &[u8], tokens: &[u32], at: usize) -> u32
    requires lent { Lent text.now tokens.now }
    requires at_in_bounds { at < length (toks text.now) }
    ensures { result ≡ integer text.now at }
{
    let n = worth_of(integer_of(text, tokens, at));
    if kind_at(text, tokens, at) == kind::NEGATIVE_NUMBER {
        return negate(n);
    }
    n
}

// How many bytes open a literal.
pub fn opening_of(text: &[u8], tokens: &[u32], at: usize) -> usize
    requires { Lent text.now tokens.now }
    ensures { result ≡ opening text.now at }
{
    if kind_at(text, tokens, at) == kind::INSENSITIVE_STRING {
        return 2;
    }
    1
}

// The character that the inside of a literal means.
fn meant(s: &[u8]) -> u32
    ensures { result ≡ char_by (escape_of s.now) s.now }
{
    let escape = literal::escape_at(s, 0);
    match escape {
        Some((c, _)) => c,
        None => {
            let sequence = text::char_at(s, 0);
            match sequence {
                Some((c, _)) => c,
                None => 0,
            }
        }
    }
}

// The character that a character literal means.
pub fn character_at(text: &[u8], tokens: &[u32], at: usize) -> u32
    requires lent { Lent text.now tokens.now }
    requires at_value { is text.now at 25 ≡ true }
    ensures { result ≡ character text.now at }
{
    let a = start_at(text, tokens, at) + 1;
    let z = end_at(text, tokens, at) - 1;
    meant(&text[a..z])
}

// `{n}`, `{n,}`, `{n, m}`, from past the `{` on.
fn from_number(text: &[u8], tokens: &[u32], at: usize) -> Option<(Unary, usize)>
    requires lent { Lent text.now tokens.now }
    requires at_value { is text.now at 20 ≡ true }
    requires accepted { Accepted (from_number text.now at) }
    ensures { result ≡ suffix_of (from_number text.now at) }
{
    let n = number_at(text, tokens, at);
    if kind_at(text, tokens, at + 1) == kind::CLOSING_BRACE {
        return Some((Unary::RepExact(n), at + 2));
    }
    let j = at + 1 + 1;
    if kind_at(text, tokens, j) == kind::CLOSING_BRACE {
        return Some((Unary::RepMin(n), j + 1));
    }
    let m = number_at(text, tokens, j);
    Some((Unary::RepMinMax(n, m), j + 1 + 1))
}

// `{,n}`, from the comma on.
fn from_comma(text: &[u8], tokens: &[u32], at: usize) -> Option<(Unary, usize)>
    requires lent { Lent text.now tokens.now }
    requires accepted { Accepted (from_comma text.now at) }
    ensures { result ≡ suffix_of (from_comma text.now at) }
{
    let j = at + 1;
    let n = number_at(text, tokens, j);
    Some((Unary::RepMax(n), j + 1 + 1))
}

// The postfix at a token.
#[tactic(auto, using(crate::proofs::Worths::suffix_opt, crate::proofs::Worths::suffix_rep, crate::proofs::Worths::suffix_once, crate::proofs::Worths::suffix_none, crate::proofs::Worths::suffix_number, crate::proofs::Worths::suffix_comma, crate::proofs::Worths::sound_number, crate::proofs::Worths::sound_comma, structure::proofs::Steps::sees))]
pub fn suffix_at(text: &[u8], tokens: &[u32], at: usize) -> Option<(Unary, usize)>
    requires lent { Lent text.now tokens.now }
    requires accepted { Accepted (postfix_at text.now at) }
    ensures { result ≡ suffix_of (postfix_at text.now at) }
{
    match kind_at(text, tokens, at) {
        kind::QUESTION => Some((Unary::Opt, at + 1)),
        kind::STAR => Some((Unary::Rep, at + 1)),
        kind::PLUS => Some((Unary::RepOnce, at + 1)),
        kind::OPENING_BRACE => {
            if kind_at(text, tokens, at + 1) == kind::NUMBER {
                return from_number(text, tokens, at + 1);
            }
            from_comma(text, tokens, at + 1)
        }
        _ => None,
    }
}
