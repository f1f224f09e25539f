// Expressions, terms and nodes, built. A term's tag, predicates and postfixes are gone through by
// loops: only brackets nest.
ghost use Rattle.token.specs.Table.{Lent};
ghost use Rattle.structure.specs.Structure.{Run, expr, term, node};
ghost use Rattle.build.specs.Build.{Scalars, TreeRoom, Built};

use super::around::{put_choice, put_postfixes, put_predicates};
use super::leaves::put_leaf;
use super::terms::{get_node_tag, move_to_bracket, put_tag, term_start};
use crate::Placed;
use records::inner::nodes::{move_end, put_join, put_unary};
use structure::Level;
use structure::inner::checks::predicates_end;
use structure::inner::tokens::spelled;
use table::{Join, Unary};
use token::inner::listing::{end_at, kind_at, start_at};
use token::kind;

// Terms joined by `~` or `|`, both grouped left.
#[cycle(consume_expr_consume_node_unaries)]
pub fn consume_expr(
    text: &[u8],
    tokens: &[u32],
    nodes: &mut [u32],
    store: &mut [u8],
    level: Level,
    deep: usize,
    at: usize,
    used: usize,
    free: usize,
) -> Placed
    requires lent { Lent text.now tokens.now }
    requires scalars { Scalars text.now }
    requires tree_room { TreeRoom (Run level text.now (expr deep at)) nodes.old store.old used free }
    ensures { Built (Run level text.now (expr deep at)) nodes.old store.old used free result nodes.new store.new }
{
    let first = unaries(text, tokens, nodes, store, level, deep, at, used, free);
    let a = first.from;
    let mut i = first.next;
    let mut u = first.used;
    let mut f = first.free;
    let mut b = first.from;
    let mut z = first.to;
    let mut chosen = false;
    let mut left: usize = 0;
    loop {
        let k = kind_at(text, tokens, i);
        if k == kind::TILDE {
            let right = unaries(text, tokens, nodes, store, level, deep, i + 1, u, f);
            put_join(nodes, right.used, b, right.to, Join::Seq, u - 1);
            i = right.next;
            u = right.used + 1;
            f = right.free;
            z = right.to;
        } else {
            u = put_choice(nodes, chosen, left, u, a, z);
            if k != kind::BAR {
                return Placed {
                    next: i,
                    used: u,
                    free: f,
                    from: a,
                    to: z,
                };
            }
            chosen = true;
            left = u - 1;
            let right = unaries(text, tokens, nodes, store, level, deep, i + 1, u, f);
            i = right.next;
            u = right.used;
            f = right.free;
            b = right.from;
            z = right.to;
        }
    }
}

// At most one (tag, `=`), any `&` and `!`, a node, any postfixes.
#[cycle(consume_expr_consume_node_unaries)]
pub fn unaries(
    text: &[u8],
    tokens: &[u32],
    nodes: &mut [u32],
    store: &mut [u8],
    level: Level,
    deep: usize,
    at: usize,
    used: usize,
    free: usize,
) -> Placed
    requires lent { Lent text.now tokens.now }
    requires scalars { Scalars text.now }
    requires tree_room { TreeRoom (Run level text.now (term deep at)) nodes.old store.old used free }
    ensures { Built (Run level text.now (term deep at)) nodes.old store.old used free result nodes.new store.new }
{
    let tag = get_node_tag(text, tokens, store, level, at, free);
    let first = predicates_end(text, tokens, tag.next);
    let inner = consume_node(
        text, tokens, nodes, store, level, deep, first, used, tag.free,
    );
    let tail = put_postfixes(
        text, tokens, nodes, inner.next, inner.used, inner.from, inner.to,
    );
    move_to_bracket(text, tokens, nodes, first, tail.used);
    let u = put_predicates(text, tokens, nodes, tag.next, first, tail.used, tail.to);
    let a = term_start(text, tokens, tag.next, first, inner.from);
    let built = Placed {
        next: tail.next,
        used: u,
        free: inner.free,
        from: a,
        to: tail.to,
    };
    put_tag(text, tokens, nodes, level, at, free, tag.free, built)
}

// An expression in brackets, after PUSH or not; or a leaf.
#[cycle(consume_expr_consume_node_unaries)]
pub fn consume_node(
    text: &[u8],
    tokens: &[u32],
    nodes: &mut [u32],
    store: &mut [u8],
    level: Level,
    deep: usize,
    at: usize,
    used: usize,
    free: usize,
) -> Placed
    requires lent { Lent text.now tokens.now }
    requires scalars { Scalars text.now }
    requires tree_room { TreeRoom (Run level text.now (node deep at)) nodes.old store.old used free }
    ensures { Built (Run level text.now (node deep at)) nodes.old store.old used free result nodes.new store.new }
{
    if kind_at(text, tokens, at) == kind::OPENING_PAREN {
        let inner = consume_expr(
            text,
            tokens,
            nodes,
            store,
            level,
            deep + 1,
            at + 1,
            used,
            free,
        );
        let z = end_at(text, tokens, inner.next);
        move_end(nodes, inner.used, z);
        return Placed {
            next: inner.next + 1,
            used: inner.used,
            free: inner.free,
            from: inner.from,
            to: z,
        };
    }
    if spelled(b"PUSH", text, tokens, at) {
        let inner = consume_expr(
            text,
            tokens,
            nodes,
            store,
            level,
            deep + 1,
            at + 1 + 1,
            used,
            free,
        );
        let a = start_at(text, tokens, at);
        put_unary(nodes, inner.used, a, inner.to, Unary::Push);
        return Placed {
            next: inner.next + 1,
            used: inner.used + 1,
            free: inner.free,
            from: a,
            to: inner.to,
        };
    }
    put_leaf(text, tokens, nodes, store, deep, at, used, free)
}
