// What is asked of a token, by its index.
// The text and its table stay two parameters here and in the crates above: public functions take them so, and a struct
// of both would only put a method beside each.
ghost use Rattle.std.specs.Prelude.{◌≡◌, ◌≤◌, ◌<◌, length};
ghost use Rattle.text.specs.Limits.{max_text};
ghost use Rattle.literal.specs.Escapes.{unescaped};
ghost use Rattle.token.specs.Table.{start, between, word, Lent};
ghost use Rattle.structure.specs.declared.Why.TheVariants.{NotAllowed};
ghost use Rattle.structure.specs.Refusals.{because};
ghost use Rattle.structure.specs.Tokens.{spells};
ghost use Rattle.structure.specs.Values.{string};
ghost use Rattle.structure.specs.Answers.{wanted};

use crate::{Refusal, Why};
use token::inner::listing::{end_at, kind_at, start_at};
use token::kind;

// A refusal at a token's start; past the last token, at the text's end.
pub fn refused_at(why: Why, text: &[u8], tokens: &[u32], at: usize) -> Refusal
    requires { Lent text.now tokens.now }
    ensures { result ≡ because why (start text.now at) }
{
    Refusal {
        why,
        place: start_at(text, tokens, at),
    }
}

// The token isn't allowed here.
pub fn not_allowed(text: &[u8], tokens: &[u32], at: usize) -> Refusal
    requires { Lent text.now tokens.now }
    ensures { result ≡ because NotAllowed (start text.now at) }
{
    refused_at(Why::NotAllowed, text, tokens, at)
}

// A token of a kind is wanted here.
pub fn expect(text: &[u8], tokens: &[u32], at: usize, k: u8) -> Option<usize>
    requires lent { Lent text.now tokens.now }
    requires k_nonzero { 0 < k }
    ensures { result ≡ wanted text.now at k }
{
    if kind_at(text, tokens, at) == k {
        return Some(at + 1);
    }
    None
}

// The token is the word spelled so.
pub fn spelled(p: &[u8], text: &[u8], tokens: &[u32], at: usize) -> bool
    requires { Lent text.now tokens.now }
    ensures { result ≡ spells p.now text.now at }
{
    if kind_at(text, tokens, at) != kind::WORD {
        return false;
    }
    let a = start_at(text, tokens, at);
    let z = end_at(text, tokens, at);
    if z - a != p.len() {
        return false;
    }
    text::inner::words::begins_at(p, text, a)
}

// How many bytes a word has.
pub fn word_bytes(text: &[u8], tokens: &[u32], at: usize) -> usize
    requires { Lent text.now tokens.now }
    ensures { result ≡ length (word text.now at) }
{
    let a = start_at(text, tokens, at);
    let z = end_at(text, tokens, at);
    z.saturating_sub(a)
}

// How many bytes the string has that the inside of a literal means.
fn unescaped_bytes(text: &[u8], a: usize, z: usize) -> usize
    requires text_len_bound { length text.now ≤ max_text }
    requires z_in_bounds { z ≤ length text.now }
    ensures { result ≡ length (unescaped (between text.now a z)) }
{
    if z <= a {
        return 0;
    }
    let left = literal::inner::escapes::spend_unescaped(&text[a..z], 262144);
    262144 - left
}

// How many bytes the string has that a string token means.
pub fn string_bytes(text: &[u8], tokens: &[u32], at: usize) -> usize
    requires { Lent text.now tokens.now }
    ensures { result ≡ length (string text.now at) }
{
    let a = start_at(text, tokens, at);
    let z = end_at(text, tokens, at);
    if z == 0 {
        return 0;
    }
    if kind_at(text, tokens, at) == kind::INSENSITIVE_STRING {
        return unescaped_bytes(text, a + 2, z - 1);
    }
    unescaped_bytes(text, a + 1, z - 1)
}
