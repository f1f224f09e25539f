// Nodes that hold no expression, and postfixes.
ghost use Rattle.std.specs.Prelude.{◌≡◌, ℕ, ◌+◌, ◌<◌, length};
ghost use Rattle.table.specs.declared.Unary.{Unary};
ghost use Rattle.token.specs.Table.{toks, kind, Lent};
ghost use Rattle.structure.specs.Structure.{postfix_at, to_most, from_number, from_comma, slice, pushed, ranged, leaf_at};
ghost use Rattle.structure.specs.Answers.{summary, past_integer, tail_of};

use super::tokens::{not_allowed, refused_at};
use crate::{Piece, Refusal, Why};
use text::limits;
use token::inner::listing::kind_at;
use token::kind;

// A maximum and `}`, from the maximum on.
fn most_end(text: &[u8], tokens: &[u32], at: usize) -> Result<Option<usize>, Refusal>
    requires { Lent text.now tokens.now }
    ensures { (v : ℕ → Unary) → result ≡ tail_of (to_most text.now at v) }
{
    let most = super::tokens::expect(text, tokens, at, kind::NUMBER);
    let Some(k) = most else {
        return Err(not_allowed(text, tokens, at));
    };
    let close = super::tokens::expect(text, tokens, k, kind::CLOSING_BRACE);
    let Some(n) = close else {
        return Err(not_allowed(text, tokens, k));
    };
    Ok(Some(n))
}

// `{n}`, `{n,}`, `{n, m}`, from the n on.
fn number_end(text: &[u8], tokens: &[u32], at: usize) -> Result<Option<usize>, Refusal>
    requires lent { Lent text.now tokens.now }
    requires at_in_bounds { at < length (toks text.now) }
    ensures { result ≡ tail_of (from_number text.now at) }
{
    let i = at + 1;
    if kind_at(text, tokens, i) == kind::CLOSING_BRACE {
        return Ok(Some(i + 1));
    }
    let comma = super::tokens::expect(text, tokens, i, kind::COMMA);
    let Some(j) = comma else {
        return Err(not_allowed(text, tokens, i));
    };
    if kind_at(text, tokens, j) == kind::CLOSING_BRACE {
        return Ok(Some(j + 1));
    }
    most_end(text, tokens, j)
}

// `{,n}`, from the comma on.
fn comma_end(text: &[u8], tokens: &[u32], at: usize) -> Result<Option<usize>, Refusal>
    requires { Lent text.now tokens.now }
    ensures { result ≡ tail_of (from_comma text.now at) }
{
    let comma = super::tokens::expect(text, tokens, at, kind::COMMA);
    let Some(j) = comma else {
        return Err(not_allowed(text, tokens, at));
    };
    most_end(text, tokens, j)
}

// Past the postfix at an index, if one stands there.
pub fn postfix_end(text: &[u8], tokens: &[u32], at: usize) -> Result<Option<usize>, Refusal>
    requires { Lent text.now tokens.now }
    ensures { result ≡ tail_of (postfix_at text.now at) }
{
    let k = kind_at(text, tokens, at);
    match k {
        kind::QUESTION | kind::STAR | kind::PLUS => Ok(Some(at + 1)),
        kind::OPENING_BRACE => {
            if kind_at(text, tokens, at + 1) == kind::NUMBER {
                return number_end(text, tokens, at + 1);
            }
            comma_end(text, tokens, at + 1)
        }
        _ => Ok(None),
    }
}

// Past a number that may stand in a PEEK slice.
fn past_integer(text: &[u8], tokens: &[u32], at: usize) -> usize
    requires { Lent text.now tokens.now }
    ensures { result ≡ past_integer text.now at }
{
    let k = kind_at(text, tokens, at);
    if k == kind::NUMBER || k == kind::NEGATIVE_NUMBER {
        return at + 1;
    }
    at
}

// `PEEK[` from `..` to `]`, from past the `[` on.
fn check_slice(text: &[u8], tokens: &[u32], at: usize, i: usize) -> Result<Piece, Refusal>
    requires { Lent text.now tokens.now }
    ensures { result ≡ summary (slice text.now at i) }
{
    let from = past_integer(text, tokens, i);
    let dots = super::tokens::expect(text, tokens, from, kind::DOTS);
    let Some(j) = dots else {
        return Err(not_allowed(text, tokens, from));
    };
    let to = past_integer(text, tokens, j);
    let close = super::tokens::expect(text, tokens, to, kind::CLOSING_BRACK);
    let Some(n) = close else {
        return Err(not_allowed(text, tokens, to));
    };
    Ok(Piece {
        next: n,
        nodes: 1,
        bytes: 0,
    })
}

// `PUSH_LITERAL(` string `)`.
fn check_push_literal(text: &[u8], tokens: &[u32], at: usize, deep: usize) -> Result<Piece, Refusal>
    requires lent { Lent text.now tokens.now }
    requires at_in_bounds { at < length (toks text.now) }
    ensures { result ≡ summary (pushed deep text.now at) }
{
    let bracket = super::tokens::expect(text, tokens, at + 1, kind::OPENING_PAREN);
    let Some(i) = bracket else {
        return Err(not_allowed(text, tokens, at + 1));
    };
    if limits::OPEN <= deep {
        return Err(refused_at(Why::TooDeep, text, tokens, at + 1));
    }
    let string = super::tokens::expect(text, tokens, i, kind::STRING);
    let Some(j) = string else {
        return Err(not_allowed(text, tokens, i));
    };
    let close = super::tokens::expect(text, tokens, j, kind::CLOSING_PAREN);
    let Some(n) = close else {
        return Err(not_allowed(text, tokens, j));
    };
    let bytes = super::tokens::string_bytes(text, tokens, i);
    Ok(Piece {
        next: n,
        nodes: 1,
        bytes,
    })
}

// Character `..` character.
fn check_range(text: &[u8], tokens: &[u32], at: usize) -> Result<Piece, Refusal>
    requires lent { Lent text.now tokens.now }
    requires at_in_bounds { at < length (toks text.now) }
    ensures { result ≡ summary (ranged text.now at) }
{
    let dots = super::tokens::expect(text, tokens, at + 1, kind::DOTS);
    let Some(i) = dots else {
        return Err(not_allowed(text, tokens, at + 1));
    };
    let last = super::tokens::expect(text, tokens, i, kind::CHARACTER);
    let Some(n) = last else {
        return Err(not_allowed(text, tokens, i));
    };
    Ok(Piece {
        next: n,
        nodes: 1,
        bytes: 0,
    })
}

// A word that opens nothing: PUSH_LITERAL, a slice, or a name.
fn check_word(text: &[u8], tokens: &[u32], at: usize, deep: usize) -> Result<Piece, Refusal>
    requires lent { Lent text.now tokens.now }
    requires at_value { kind text.now at ≡ 18 }
    ensures { result ≡ summary (leaf_at deep text.now at) }
{
    if super::tokens::spelled(b"PUSH_LITERAL", text, tokens, at) {
        return check_push_literal(text, tokens, at, deep);
    }
    if super::tokens::spelled(b"PEEK", text, tokens, at)
        && kind_at(text, tokens, at + 1) == kind::OPENING_BRACK
    {
        return check_slice(text, tokens, at, at + 2);
    }
    let bytes = super::tokens::word_bytes(text, tokens, at);
    Ok(Piece {
        next: at + 1,
        nodes: 1,
        bytes,
    })
}

// A node that holds no expression.
pub fn check_leaf(text: &[u8], tokens: &[u32], at: usize, deep: usize) -> Result<Piece, Refusal>
    requires { Lent text.now tokens.now }
    ensures { result ≡ summary (leaf_at deep text.now at) }
{
    let k = kind_at(text, tokens, at);
    match k {
        kind::WORD => check_word(text, tokens, at, deep),
        kind::STRING | kind::INSENSITIVE_STRING => {
            let bytes = super::tokens::string_bytes(text, tokens, at);
            Ok(Piece {
                next: at + 1,
                nodes: 1,
                bytes,
            })
        }
        kind::CHARACTER => check_range(text, tokens, at),
        _ => Err(not_allowed(text, tokens, at)),
    }
}
