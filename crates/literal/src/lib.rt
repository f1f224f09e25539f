// Literals both ways: what the inside of a literal means (`unescape`), and how a string is printed
// as one (`fmt_literal`).
//
// The entry points stand here and ask nothing of their callers. `inner` has what the crates above
// build on. `unescape` carries over pest_meta's parser.rs, `fmt_literal` its ast.rs.
#![tactic(auto)]

pub mod inner;

ghost use Rattle.std.specs.Prelude.{◌≡◌, length, drop};
ghost use Rattle.literal.specs.Escapes.{escape_of, unescape_of, unescape_in};
ghost use Rattle.literal.specs.Literals.{format_of, format_in};

// Hex digits that were read: their number, and how many they are.
#[derive(Clone, Copy)]
pub struct Digits {
    pub value: u32,
    pub count: usize,
}

// How a character is printed: a backslash and a letter, bare, or by its number.
#[derive(Clone, Copy)]
pub enum Show {
    Pair(u8),
    Bare,
    Hex,
}

// The quote in use.
#[derive(Clone, Copy)]
pub enum Quote {
    Double,
    Single,
}

// The first fault of the inside of a literal: a byte that is no UTF-8, a backslash that begins
// no escape, an escape of no character; or no room.
#[derive(Clone, Copy, Debug, PartialEq, Eq)]
pub enum UnescapeError {
    NotUtf8(usize),
    NoEscape(usize),
    NotScalar(usize),
    NoRoom,
}

// Why no literal was written.
#[derive(Clone, Copy, Debug, PartialEq, Eq)]
pub enum FormatError {
    NotUtf8(usize),
    NoRoom,
}

// The escape at a place.
#[tactic(auto, unfolding(crate::specs::Escapes::escape_of))]
pub fn escape_at(s: &[u8], at: usize) -> Option<(u32, usize)>
    ensures { result ≡ escape_of (drop at s.now) }
{
    if s.len() <= at || s[at] != b'\\' {
        return None;
    }
    inner::escapes::after_of(&s[at + 1..])
}

// Writes the string that the inside of a literal means to the front of a buffer.
pub fn unescape(s: &[u8], out: &mut [u8]) -> Result<usize, UnescapeError>
    ensures value { result ≡ unescape_of s.now (length out.old) }
    ensures out_after { out.new ≡ unescape_in s.now out.old result }
{
    let utf8 = text::first_bad(s);
    if let Some(i) = utf8 {
        return Err(UnescapeError::NotUtf8(i));
    }
    let stray = inner::escapes::no_escape(s);
    if let Some(i) = stray {
        return Err(UnescapeError::NoEscape(i));
    }
    let bad = inner::escapes::bad_escape(s);
    if let Some(i) = bad {
        return Err(UnescapeError::NotScalar(i));
    }
    if inner::escapes::spend_unescaped(s, out.len() + 1) == 0 {
        return Err(UnescapeError::NoRoom);
    }
    Ok(inner::escapes::put_unescaped(s, out, 0))
}

// Writes a string as a literal, quotes included, to the front of a buffer.
pub fn fmt_literal(s: &[u8], quote: Quote, out: &mut [u8]) -> Result<usize, FormatError>
    ensures value { result ≡ format_of s.now quote (length out.old) }
    ensures out_after { out.new ≡ format_in s.now quote out.old result }
{
    let utf8 = text::first_bad(s);
    if let Some(i) = utf8 {
        return Err(FormatError::NotUtf8(i));
    }
    let q = inner::shows::quote_byte(quote);
    if inner::shows::spend_literal(s, q, out.len() + 1) == 0 {
        return Err(FormatError::NoRoom);
    }
    Ok(inner::shows::put_literal(s, q, out, 0))
}
