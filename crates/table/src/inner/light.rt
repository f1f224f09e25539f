// The check of nodes and rules as `check_tables` has it: over as many first nodes as there is room for, and only up to the
// first long text, from which on `heavy` takes over.
ghost use Rattle.std.specs.Prelude.{◌≡◌, ◌+◌, ◌*◌, ◌≤◌, ltb, length, get_or, None};
ghost use Rattle.text.specs.Limits.{max_nodes, max_store};
ghost use Rattle.table.specs.declared.Leaf.TheVariants.{Text};
ghost use Rattle.table.specs.declared.Node.TheVariants.{Tip};
ghost use Rattle.table.specs.Record.{node_size, rule_size, nodes_in, rules_in, node_at, name_length};
ghost use Rattle.table.specs.Children as Kids;
ghost use Rattle.table.specs.Children.{Told, Limits};
ghost use Rattle.table.specs.Heavy.{long, text_length, lightly};
ghost use Rattle.table.specs.Check.{good_at, good_rule, lowest, verdict, Firsts};

use super::checks::{Place, Rules, first_of, good_rule, good_text};
use super::layout::{NODE_SIZE, RULE_SIZE, head_at};
use super::texts::Scanned;
use crate::{Sort, kind};
use text::inner::utf8::is_ascii;

// What is told of a node by its kind.
#[derive(Clone, Copy)]
struct Kinds {
    // 1 where there is a child and no text.
    one: [u8; 20],
    // 1 where there are two children.
    two: [u8; 20],
    // What p + q is below where p, q and the children alone tell whether a node is false.
    limit: [usize; 20],
    ghost one_is: { one ≡ Kids.ones },
    ghost two_is: { two ≡ Kids.twos },
}

// In a store of ASCII any part is UTF-8, so that a string has only to end in time. The numbers stand in local arrays, since tables
// of constants were slower.
fn kinds_of(store: &[u8]) -> Kinds
    ensures { Limits store.now result.limit }
{
    let string = if is_ascii(store) { store.len() } else { 0 };
    let limit = [
        0,
        string,
        string,
        0xd800,
        0,
        0,
        0x2_0000_0000,
        0x2_0000_0000,
        0x2_0000_0000,
        0x2_0000_0000,
        0x2_0000_0000,
        0x2_0000_0000,
        0x2_0000_0000,
        0x2_0000_0000,
        0x2_0000_0000,
        0x2_0000_0000,
        0x2_0000_0000,
        0x2_0000_0000,
        string,
        0,
    ];
    Kinds {
        one: [0, 0, 0, 0, 0, 0, 1, 1, 1, 1, 1, 1, 1, 1, 1, 1, 1, 1, 0, 0],
        two: [0, 0, 0, 0, 0, 0, 0, 0, 1, 1, 0, 0, 0, 0, 0, 0, 0, 0, 0, 0],
        limit,
    }
}

// The first node of the subtree of a node whose children alone can make it false, unless it is. The numbers of `one`
// and `two` stand in for branches: random kinds would make ones that a processor has to guess.
fn first_flat(one: usize, two: usize, texts: &Scanned, place: &Place) -> Option<usize>
    requires { Told place.now.nodes.now texts.now.store.now place.now.i one two }
    ensures { result ≡ verdict place.now.nodes.now texts.now.store.now place.now.i }
{
    let i = place.i;
    let b = NODE_SIZE * i;
    let p = place.nodes[b + 3] as usize;
    let q = place.nodes[b + 4] as usize;
    let last = if two == 1 { q } else { p };
    if (last + 1) * one != i * one {
        return None;
    }
    if (p + 1) * two != usize::from(place.firsts[q * two]) * two {
        return None;
    }
    Some(usize::from(place.firsts[p * one]) * one + i * (1 - one))
}

// The same for a leaf with a text.
#[tactic(auto, using(crate::proofs::Verdicts::verdict_tip, crate::proofs::Verdicts::verdict_tip_out))]
fn first_text(texts: &Scanned, sort: Sort, place: &Place) -> Option<usize>
    requires { node_at place.now.nodes.now place.now.i ≡ Tip (Text sort (get_or place.now.nodes.now (node_size * place.now.i + 3) 0) (get_or place.now.nodes.now (node_size * place.now.i + 4) 0)) }
    ensures { result ≡ verdict place.now.nodes.now texts.now.store.now place.now.i }
{
    let b = NODE_SIZE * place.i;
    if good_text(
        texts,
        sort,
        place.nodes[b + 3] as usize,
        place.nodes[b + 4] as usize,
    ) {
        return Some(place.i);
    }
    None
}

// The most bytes of a text that is gone over for each node that names it.
const LONG: u32 = 64;

// The length of a node's text. An arm for each kind: one arm for four of them was slower.
#[tactic(auto, unfolding(crate::specs::Heavy::text_length))]
fn text_length(kind: u32, q: u32, r: u32) -> u32
    ensures { result ≡ text_length kind q r }
{
    match kind {
        kind::STR => q,
        kind::INSENS => q,
        kind::IDENT => q,
        kind::PUSH_LITERAL => q,
        kind::NODE_TAG => r,
        _ => 0,
    }
}

// The same for a node whose text is not long, by its kind: a leaf with a text needs no more than that.
#[tactic(auto, using(crate::proofs::Ascii::str_at, crate::proofs::Ascii::insens_at, crate::proofs::Ascii::ident_at, crate::proofs::Ascii::push_at))]
fn first_short(texts: &Scanned, kind: u32, place: &Place) -> Option<usize>
    requires { kind ≡ get_or place.now.nodes.now (node_size * place.now.i) 0 }
    ensures { result ≡ verdict place.now.nodes.now texts.now.store.now place.now.i }
{
    match kind {
        kind::STR => first_text(texts, Sort::Str, place),
        kind::INSENS => first_text(texts, Sort::Insens, place),
        kind::IDENT => first_text(texts, Sort::Ident, place),
        kind::PUSH_LITERAL => first_text(texts, Sort::PushLiteral, place),
        _ => first_of(texts, place),
    }
}

// Whether p + q is below the limit of a kind.
#[tactic(auto, using(crate::proofs::Light::no_limit))]
fn is_flat(limit: &[usize; 20], kind: u32, p: u32, q: u32) -> bool
    requires { length limit.now ≡ 20 }
    ensures { result ≡ ltb (p + q) (get_or limit.now kind 0) }
{
    kind < 20 && p as usize + (q as usize) < limit[kind as usize]
}

// The same for any node, the shorter way where it may be taken; but a long text that would be gone over is
// left to `heavy`, by the answer `None`.
#[tactic(auto, using(crate::proofs::Children::told, crate::proofs::Light::light_flat, crate::proofs::Light::light_long, crate::proofs::Light::light_short))]
fn first_at(texts: &Scanned, kinds: &Kinds, place: &Place) -> Option<usize>
    requires { Limits texts.now.store.now kinds.now.limit }
    ensures { result
        ≡ lightly place.now.nodes.now texts.now.store.now kinds.now.limit place.now.i }
{
    let b = NODE_SIZE * place.i;
    let kind = place.nodes[b];
    if is_flat(&kinds.limit, kind, place.nodes[b + 3], place.nodes[b + 4]) {
        let k = kind as usize;
        return first_flat(
            usize::from(kinds.one[k]),
            usize::from(kinds.two[k]),
            texts,
            place,
        );
    }
    if LONG < text_length(kind, place.nodes[b + 4], place.nodes[b + 5]) {
        return None;
    }
    first_short(texts, kind, place)
}

// The lowest false node. If there is none, `firsts` has the first node of each.
#[tactic(auto, using(crate::proofs::Lowest::lowest_none, crate::proofs::Lowest::lowest_more, crate::proofs::Verdicts::firsts_none, crate::proofs::Verdicts::firsts_more, crate::proofs::Verdicts::verdict_at, crate::proofs::Light::light_at, crate::proofs::Nodes::first_le))]
pub(crate) fn lowest_node(texts: &Scanned, nodes: &[u32], firsts: &mut [u16]) -> Option<usize>
    requires store_len_bound { length texts.now.store.now ≤ max_store }
    requires nodes_bound { nodes_in nodes.now ≤ max_nodes }
    requires nodes_in_bounds { nodes_in nodes.now ≤ length firsts.old }
    ensures value { result
        ≡ lowest (good_at nodes.now texts.now.store.now) (nodes_in nodes.now) }
    ensures firsts { result ≡ None → Firsts nodes.now firsts.new (nodes_in nodes.now) }
{
    let kinds = kinds_of(texts.store);
    for i in 0..nodes.len() / NODE_SIZE {
        let place = Place { nodes, firsts, i };
        let Some(x) = first_at(texts, &kinds, &place) else {
            return super::heavy::lowest_from(texts, nodes, firsts, i);
        };
        firsts[i] = x as u16;
    }
    None
}

#[tactic(auto, unfolding(crate::specs::Record::head_at))]
fn is_long_name(rules: &[u32], k: usize) -> bool
    requires { rule_size * (k + 1) ≤ length rules.now }
    ensures { result ≡ ltb long (name_length rules.now k) }
{
    (LONG as usize) < head_at(rules, k).length
}

// The lowest false rule.
#[tactic(auto, using(crate::proofs::Lowest::lowest_none, crate::proofs::Lowest::lowest_more, crate::proofs::Lowest::lowest_bad))]
pub(crate) fn lowest_rule(texts: &Scanned, all: &Rules) -> Option<usize>
    requires { length texts.now.store.now ≤ max_store }
    ensures { result
        ≡ lowest (good_rule all.now.nodes.now all.now.rules.now texts.now.store.now) (rules_in all.now.rules.now) }
{
    for k in 0..all.rules.len() / RULE_SIZE {
        if is_long_name(all.rules, k) {
            return super::heavy::lowest_rule_from(texts, all, k);
        }
        if !good_rule(texts, all, k) {
            return Some(k);
        }
    }
    None
}
