// Rules and docs, checked and counted.
ghost use Rattle.std.specs.Prelude.{◌≡◌, ◌<◌};
ghost use Rattle.token.specs.Table.{Lent};
ghost use Rattle.structure.specs.Structure.{is_name, mark_at, past_mark, past_bar, rule_from, docs, grammar};
ghost use Rattle.structure.specs.Answers.{rule_summary, summaries};

use super::tokens::not_allowed;
use crate::{Counts, Level, Piece, Refusal, Why};
use token::inner::listing::{end_at, kind_at, start_at, token_count};
use token::kind;

// A rule's name stands at an index.
fn is_name(text: &[u8], tokens: &[u32], at: usize) -> bool
    requires { Lent text.now tokens.now }
    ensures { result ≡ is_name text.now at }
{
    if kind_at(text, tokens, at) != kind::WORD {
        return false;
    }
    let a = start_at(text, tokens, at);
    let z = end_at(text, tokens, at);
    !text::inner::words::begins_at(b"PUSH", &text[a..z], 0)
}

// At most one mark: `_` `@` `$` `!`.
pub fn mark_at(text: &[u8], tokens: &[u32], at: usize) -> usize
    requires { Lent text.now tokens.now }
    ensures { result ≡ mark_at text.now at }
{
    let k = kind_at(text, tokens, at);
    match k {
        kind::WORD => {
            if super::tokens::spelled(b"_", text, tokens, at) {
                return 1;
            }
            0
        }
        kind::AT => 2,
        kind::DOLLAR => 3,
        kind::EXCLAMATION => 4,
        _ => 0,
    }
}

// Past the mark, if there is one.
pub fn past_mark(text: &[u8], tokens: &[u32], at: usize) -> usize
    requires { Lent text.now tokens.now }
    ensures { result ≡ past_mark text.now at }
{
    if mark_at(text, tokens, at) == 0 {
        return at;
    }
    at + 1
}

// Past the `|` before a rule's expression, if there is one.
pub fn past_bar(text: &[u8], tokens: &[u32], at: usize) -> usize
    requires { Lent text.now tokens.now }
    ensures { result ≡ past_bar text.now at }
{
    if kind_at(text, tokens, at) == kind::BAR {
        return at + 1;
    }
    at
}

// Word, `=`, at most one mark, `{`, at most one `|`, expression, `}`.
fn check_rule(text: &[u8], tokens: &[u32], level: Level, at: usize) -> Result<Piece, Refusal>
    requires { Lent text.now tokens.now }
    ensures { result ≡ rule_summary (rule_from level text.now at) }
{
    if !is_name(text, tokens, at) {
        return Err(not_allowed(text, tokens, at));
    }
    let tie = super::tokens::expect(text, tokens, at + 1, kind::EQUALS);
    let Some(i) = tie else {
        return Err(not_allowed(text, tokens, at + 1));
    };
    let open = past_mark(text, tokens, i);
    let brace = super::tokens::expect(text, tokens, open, kind::OPENING_BRACE);
    let Some(j) = brace else {
        return Err(not_allowed(text, tokens, open));
    };
    let body = past_bar(text, tokens, j);
    let inside = super::checks::check_expr(text, tokens, level, body, 0)?;
    let close = super::tokens::expect(text, tokens, inside.next, kind::CLOSING_BRACE);
    let Some(n) = close else {
        return Err(not_allowed(text, tokens, inside.next));
    };
    let named = super::tokens::word_bytes(text, tokens, at);
    Ok(Piece {
        next: n,
        nodes: inside.nodes,
        bytes: named + inside.bytes,
    })
}

// Past the `//!` docs at the front.
pub fn docs_end(text: &[u8], tokens: &[u32]) -> usize
    requires { Lent text.now tokens.now }
    ensures { result ≡ docs text.now }
{
    let mut i = 0;
    while kind_at(text, tokens, i) == kind::GRAMMAR_DOC {
        i += 1;
    }
    i
}

// Any `//!` docs, then one or more of rule or `///` doc.
pub fn check_grammar(text: &[u8], tokens: &[u32], level: Level) -> Result<Counts, Refusal>
    requires { Lent text.now tokens.now }
    ensures { result ≡ summaries (grammar level text.now) }
{
    let n = token_count(text, tokens);
    let mut i = docs_end(text, tokens);
    if n <= i {
        return Err(Refusal {
            why: Why::NotAllowed,
            place: text.len(),
        });
    }
    let mut rules = 0;
    let mut count = 0;
    let mut size = 0;
    while i < n {
        if kind_at(text, tokens, i) == kind::LINE_DOC {
            i += 1;
        } else {
            let rule = check_rule(text, tokens, level, i)?;
            i = rule.next;
            rules += 1;
            count += rule.nodes;
            size += rule.bytes;
        }
    }
    Ok(Counts {
        rules,
        nodes: count,
        bytes: size,
    })
}
