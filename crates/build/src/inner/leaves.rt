// Nodes that hold no expression.
ghost use Rattle.std.specs.Prelude.{◌≡◌, true, ◌+◌, ◌<◌, length, None};
ghost use Rattle.literal.specs.Escapes.{bad_escape};
ghost use Rattle.token.specs.Table.{toks, start, end, is, Lent};
ghost use Rattle.structure.specs.Values.{opening, literal_bytes};
ghost use Rattle.structure.specs.Structure.{slice_to, slice, ranged, leaf_at};
ghost use Rattle.build.specs.Build.{TreeRoom, Built, Scalars, word_leaf, string_leaf};

use super::store::{put_bytes, put_string};
use super::values::{character_at, integer_at, is_integer, opening_of};
use crate::Placed;
use records::inner::nodes::put_text;
use structure::inner::tokens::spelled;
use table::Sort;
use token::inner::listing::{end_at, kind_at, start_at};
use token::kind;

fn put_word(
    text: &[u8],
    tokens: &[u32],
    nodes: &mut [u32],
    store: &mut [u8],
    at: usize,
    used: usize,
    free: usize,
) -> Placed
    requires lent { Lent text.now tokens.now }
    requires at_in_bounds { at < length (toks text.now) }
    requires tree_room { TreeRoom (word_leaf text.now at) nodes.old store.old used free }
    ensures { Built (word_leaf text.now at) nodes.old store.old used free result nodes.new store.new }
{
    let a = start_at(text, tokens, at);
    let z = end_at(text, tokens, at);
    let end = put_bytes(text, store, a, z, free);
    put_text(nodes, used, a, z, Sort::Ident, free, z - a);
    Placed {
        next: at + 1,
        used: used + 1,
        free: end,
        from: a,
        to: z,
    }
}

// A string's node, of any sort, and the token after what it stands in.
fn put_literal(
    text: &[u8],
    tokens: &[u32],
    nodes: &mut [u32],
    store: &mut [u8],
    at: usize,
    sort: Sort,
    next: usize,
    used: usize,
    free: usize,
) -> Placed
    requires lent { Lent text.now tokens.now }
    requires at_bound { start text.now at + opening text.now at < end text.now at }
    requires at_value { bad_escape (literal_bytes text.now at) ≡ None }
    requires tree_room { TreeRoom (string_leaf sort text.now at next) nodes.old store.old used free }
    ensures { Built (string_leaf sort text.now at next) nodes.old store.old used free result nodes.new store.new }
{
    let a = start_at(text, tokens, at);
    let z = end_at(text, tokens, at);
    let k = opening_of(text, tokens, at);
    let end = put_string(text, store, a + k, z - 1, free);
    put_text(nodes, used, a, z, sort, free, end - free);
    Placed {
        next,
        used: used + 1,
        free: end,
        from: a,
        to: z,
    }
}

fn put_range(
    text: &[u8],
    tokens: &[u32],
    nodes: &mut [u32],
    store: &mut [u8],
    at: usize,
    used: usize,
    free: usize,
) -> Placed
    requires lent { Lent text.now tokens.now }
    requires at_value { is text.now at 25 ≡ true }
    requires tree_room { TreeRoom (ranged text.now at) nodes.old store.old used free }
    ensures { Built (ranged text.now at) nodes.old store.old used free result nodes.new store.new }
{
    let i = at + 1 + 1;
    let a = start_at(text, tokens, at);
    let z = end_at(text, tokens, i);
    let x = character_at(text, tokens, at);
    let y = character_at(text, tokens, i);
    records::inner::nodes::put_range(nodes, used, a, z, x, y);
    Placed {
        next: i + 1,
        used: used + 1,
        free,
        from: a,
        to: z,
    }
}

// A slice's node, from past the `..` on.
fn put_slice_to(
    text: &[u8],
    tokens: &[u32],
    nodes: &mut [u32],
    store: &mut [u8],
    at: usize,
    from: u32,
    i: usize,
    used: usize,
    free: usize,
) -> Placed
    requires lent { Lent text.now tokens.now }
    requires tree_room { TreeRoom (slice_to text.now at from i) nodes.old store.old used free }
    ensures { Built (slice_to text.now at from i) nodes.old store.old used free result nodes.new store.new }
{
    let a = start_at(text, tokens, at);
    if is_integer(text, tokens, i) {
        let to = integer_at(text, tokens, i);
        let z = end_at(text, tokens, i + 1);
        records::inner::nodes::put_slice(nodes, used, a, z, from, Some(to));
        return Placed {
            next: i + 1 + 1,
            used: used + 1,
            free,
            from: a,
            to: z,
        };
    }
    let z = end_at(text, tokens, i);
    records::inner::nodes::put_slice(nodes, used, a, z, from, None);
    Placed {
        next: i + 1,
        used: used + 1,
        free,
        from: a,
        to: z,
    }
}

// A slice's node, from past the `[` on.
fn put_slice(
    text: &[u8],
    tokens: &[u32],
    nodes: &mut [u32],
    store: &mut [u8],
    at: usize,
    i: usize,
    used: usize,
    free: usize,
) -> Placed
    requires lent { Lent text.now tokens.now }
    requires tree_room { TreeRoom (slice text.now at i) nodes.old store.old used free }
    ensures { Built (slice text.now at i) nodes.old store.old used free result nodes.new store.new }
{
    if is_integer(text, tokens, i) {
        let from = integer_at(text, tokens, i);
        return put_slice_to(text, tokens, nodes, store, at, from, i + 1 + 1, used, free);
    }
    put_slice_to(text, tokens, nodes, store, at, 0, i + 1, used, free)
}

// A node that holds no expression.
pub fn put_leaf(
    text: &[u8],
    tokens: &[u32],
    nodes: &mut [u32],
    store: &mut [u8],
    deep: usize,
    at: usize,
    used: usize,
    free: usize,
) -> Placed
    requires lent { Lent text.now tokens.now }
    requires scalars { Scalars text.now }
    requires tree_room { TreeRoom (leaf_at deep text.now at) nodes.old store.old used free }
    ensures { Built (leaf_at deep text.now at) nodes.old store.old used free result nodes.new store.new }
{
    if spelled(b"PUSH_LITERAL", text, tokens, at) {
        return put_literal(
            text,
            tokens,
            nodes,
            store,
            at + 1 + 1,
            Sort::PushLiteral,
            at + 1 + 1 + 1 + 1,
            used,
            free,
        );
    }
    let kind = kind_at(text, tokens, at);
    if spelled(b"PEEK", text, tokens, at) {
        if kind_at(text, tokens, at + 1) == kind::OPENING_BRACK {
            return put_slice(text, tokens, nodes, store, at, at + 2, used, free);
        }
        return put_word(text, tokens, nodes, store, at, used, free);
    }
    if kind == kind::WORD {
        return put_word(text, tokens, nodes, store, at, used, free);
    }
    if kind == kind::STRING {
        return put_literal(
            text,
            tokens,
            nodes,
            store,
            at,
            Sort::Str,
            at + 1,
            used,
            free,
        );
    }
    if kind == kind::INSENSITIVE_STRING {
        return put_literal(
            text,
            tokens,
            nodes,
            store,
            at,
            Sort::Insens,
            at + 1,
            used,
            free,
        );
    }
    put_range(text, tokens, nodes, store, at, used, free)
}
