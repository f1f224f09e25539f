// Expressions, terms and nodes, checked and counted. A term's tag, predicates and postfixes are gone
// through by loops: only brackets nest.
ghost use Rattle.std.specs.Prelude.{◌≡◌, ◌+◌, ◌≤◌, ◌<◌};
ghost use Rattle.text.specs.Limits.{max_open};
ghost use Rattle.token.specs.Table.{Lent};
ghost use Rattle.structure.specs.Structure.{Run, expr, term, node};
ghost use Rattle.structure.specs.Answers.{summary, opening_of, is_sign, predicates_end, bracket_of, Posted};

use super::tokens::{not_allowed, refused_at};
use crate::{Bracket, Level, Piece, Posts, Refusal, Why};
use text::limits;
use token::inner::listing::{end_at, kind_at, start_at};
use token::kind;

// At most one (tag, `=`) before a term; None: no `=` is behind the tag.
pub fn tag_of(text: &[u8], tokens: &[u32], level: Level, at: usize) -> Option<Piece>
    requires { Lent text.now tokens.now }
    ensures { result ≡ opening_of level text.now at }
{
    if kind_at(text, tokens, at) != kind::TAG {
        return Some(Piece {
            next: at,
            nodes: 0,
            bytes: 0,
        });
    }
    let tie = super::tokens::expect(text, tokens, at + 1, kind::EQUALS);
    let Some(p) = tie else {
        return None;
    };
    match level {
        Level::Tagged => {
            let a = start_at(text, tokens, at);
            let z = end_at(text, tokens, at);
            Some(Piece {
                next: p,
                nodes: 1,
                bytes: z - (a + 1),
            })
        }
        Level::Plain => Some(Piece {
            next: p,
            nodes: 0,
            bytes: 0,
        }),
    }
}

// A predicate stands at an index.
#[tactic(auto, using(crate::proofs::Checks::sign_here, crate::proofs::Checks::sign_gone))]
fn is_predicate(text: &[u8], tokens: &[u32], at: usize) -> bool
    requires { Lent text.now tokens.now }
    ensures { result ≡ is_sign text.now at }
{
    matches!(
        kind_at(text, tokens, at),
        kind::AMPERSAND | kind::EXCLAMATION
    )
}

// Past the predicates from an index on.
#[tactic(auto, using(crate::proofs::Checks::end_start, crate::proofs::Checks::end_more, crate::proofs::Checks::end_done))]
pub fn predicates_end(text: &[u8], tokens: &[u32], at: usize) -> usize
    requires { Lent text.now tokens.now }
    ensures { result ≡ predicates_end text.now at }
{
    let mut i = at;
    while is_predicate(text, tokens, i) {
        i += 1;
    }
    i
}

// Past the postfixes from an index on.
pub fn check_posts(text: &[u8], tokens: &[u32], at: usize) -> Result<Posts, Refusal>
    requires { Lent text.now tokens.now }
    ensures { Posted text.now at result }
{
    let mut i = at;
    let mut count = 0;
    loop {
        let Some(n) = super::leaves::postfix_end(text, tokens, i)? else {
            return Ok(Posts {
                next: i,
                nodes: count,
            });
        };
        i = n;
        count += 1;
    }
}

// What opens an expression in the node at an index.
pub fn bracket_of(text: &[u8], tokens: &[u32], at: usize) -> Bracket
    requires { Lent text.now tokens.now }
    ensures { result ≡ bracket_of text.now at }
{
    if kind_at(text, tokens, at) == kind::OPENING_PAREN {
        return Bracket::Opens { at, nodes: 0 };
    }
    if !super::tokens::spelled(b"PUSH", text, tokens, at) {
        return Bracket::Nothing;
    }
    let i = at + 1;
    if kind_at(text, tokens, i) == kind::OPENING_PAREN {
        return Bracket::Opens { at: i, nodes: 1 };
    }
    Bracket::Unopened
}

// Terms joined by `~` or `|`.
#[cycle(check_expr_check_node_check_term)]
#[tactic(auto, using(crate::proofs::Cycle::chain_done))]
pub fn check_expr(
    text: &[u8],
    tokens: &[u32],
    level: Level,
    at: usize,
    deep: usize,
) -> Result<Piece, Refusal>
    requires lent { Lent text.now tokens.now }
    requires deep_le_max_open { deep ≤ max_open }
    ensures { result ≡ summary (Run level text.now (expr deep at)) }
{
    let first = check_term(text, tokens, level, at, deep)?;
    let mut i = first.next;
    let mut count = first.nodes;
    let mut size = first.bytes;
    loop {
        let k = kind_at(text, tokens, i);
        if k != kind::TILDE && k != kind::BAR {
            return Ok(Piece {
                next: i,
                nodes: count,
                bytes: size,
            });
        }
        let term = check_term(text, tokens, level, i + 1, deep)?;
        i = term.next;
        count = count + term.nodes + 1;
        size = size + term.bytes;
    }
}

// At most one (tag, `=`), any `&` and `!`, a node, any postfixes.
#[cycle(check_expr_check_node_check_term)]
fn check_term(
    text: &[u8],
    tokens: &[u32],
    level: Level,
    at: usize,
    deep: usize,
) -> Result<Piece, Refusal>
    requires lent { Lent text.now tokens.now }
    requires deep_le_max_open { deep ≤ max_open }
    ensures { result ≡ summary (Run level text.now (term deep at)) }
{
    let Some(opening) = tag_of(text, tokens, level, at) else {
        return Err(not_allowed(text, tokens, at + 1));
    };
    let first = predicates_end(text, tokens, opening.next);
    let inner = check_node(text, tokens, level, first, deep)?;
    let tails = check_posts(text, tokens, inner.next)?;
    Ok(Piece {
        next: tails.next,
        nodes: inner.nodes + tails.nodes + (first - opening.next) + opening.nodes,
        bytes: inner.bytes + opening.bytes,
    })
}

// An expression in brackets, after PUSH or not; or a leaf.
#[cycle(check_expr_check_node_check_term)]
#[tactic(auto, using(crate::proofs::Cycle::node_deep))]
fn check_node(
    text: &[u8],
    tokens: &[u32],
    level: Level,
    at: usize,
    deep: usize,
) -> Result<Piece, Refusal>
    requires lent { Lent text.now tokens.now }
    requires deep_le_max_open { deep ≤ max_open }
    ensures { result ≡ summary (Run level text.now (node deep at)) }
{
    let bracket = bracket_of(text, tokens, at);
    match bracket {
        Bracket::Nothing => super::leaves::check_leaf(text, tokens, at, deep),
        Bracket::Unopened => Err(not_allowed(text, tokens, at + 1)),
        Bracket::Opens {
            at: open,
            nodes: around,
        } => {
            if limits::OPEN <= deep {
                return Err(refused_at(Why::TooDeep, text, tokens, open));
            }
            let inside = check_expr(text, tokens, level, open + 1, deep + 1)?;
            let close = super::tokens::expect(text, tokens, inside.next, kind::CLOSING_PAREN);
            let Some(n) = close else {
                return Err(not_allowed(text, tokens, inside.next));
            };
            Ok(Piece {
                next: n,
                nodes: inside.nodes + around,
                bytes: inside.bytes,
            })
        }
    }
}
