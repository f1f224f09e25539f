// The parts of the check of whole tables.
ghost use Rattle.std.specs.Prelude.{◌≡◌, ◌+◌, ◌*◌, ◌≤◌, ◌<◌, true, length};
ghost use Rattle.table.specs.declared.Leaf.TheVariants.{Text};
ghost use Rattle.table.specs.declared.Op.TheVariants.{NodeTag};
ghost use Rattle.table.specs.Record.{node_size, rule_size, nodes_in, part};
ghost use Rattle.table.specs.Check.{shaped, in_store, may_name, may_tag, fine_text, good_leaf, good_op, begin_at, good_root, good_rule, verdict, Firsts};

use super::layout::{NODE_SIZE, RULE_SIZE, head_at, node_at};
use super::texts::Texts;
use crate::{Leaf, Node, Op, Sort};
use text::inner::utf8::is_scalar;
use text::{Word, limits};

// A node by its index, and the first nodes of those before it, so that none is looked for again.
#[derive(Clone, Copy)]
pub(crate) struct Place<'a> {
    pub(crate) nodes: &'a [u32],
    pub(crate) firsts: &'a [u16],
    pub(crate) i: usize,
    ghost i_in_bounds: { node_size * (i + 1) ≤ length nodes.now },
    ghost i_in_room: { i < length firsts.now },
    ghost firsts_are: { Firsts nodes.now firsts.now i },
}

// The rules, beside nodes of which none is false and the first nodes of all.
#[derive(Clone, Copy)]
pub(crate) struct Rules<'a> {
    pub(crate) nodes: &'a [u32],
    pub(crate) rules: &'a [u32],
    pub(crate) firsts: &'a [u16],
    ghost nodes_in_room: { nodes_in nodes.now ≤ length firsts.now },
    ghost firsts_are: { Firsts nodes.now firsts.now (nodes_in nodes.now) },
}

// Whole records, no more than the limits.
#[tactic(auto, unfolding(crate::specs::Check::shaped))]
pub(crate) fn is_shaped(nodes: &[u32], rules: &[u32], store: &[u8]) -> bool
    ensures { result ≡ shaped nodes.now rules.now store.now }
{
    nodes.len() % NODE_SIZE == 0
        && rules.len() % RULE_SIZE == 0
        && nodes.len() / NODE_SIZE <= limits::NODES
        && rules.len() / RULE_SIZE <= limits::RULES
        && store.len() <= limits::STORE
}

// Whether a part lies in the store; offset and length are not added before it is known to.
fn is_inside<T: Texts>(texts: &T, p: usize, n: usize) -> bool
    ensures { result ≡ in_store (T.bytes texts.now) p n }
{
    let length = texts.len();
    p <= length && n <= length - p
}

fn may_name(word: Word) -> bool
    ensures { result ≡ may_name word }
{
    matches!(word, Word::Name)
}

fn may_tag(word: Word) -> bool
    ensures { result ≡ may_tag word }
{
    matches!(word, Word::Name | Word::Push)
}

#[tactic(auto, unfolding(crate::specs::Check::is_name))]
fn fine_text<T: Texts>(texts: &T, sort: Sort, p: usize, n: usize) -> bool
    requires { in_store (T.bytes texts.now) p n ≡ true }
    ensures { result ≡ fine_text sort (part (T.bytes texts.now) p n) }
{
    match sort {
        Sort::Str => texts.is_utf8(p, n),
        Sort::Insens => texts.is_utf8(p, n),
        Sort::Ident => may_name(texts.word(p, n)),
        Sort::PushLiteral => texts.is_utf8(p, n),
    }
}

#[tactic(auto, unfolding(crate::specs::Check::good_leaf))]
pub(crate) fn good_text<T: Texts>(texts: &T, sort: Sort, p: usize, n: usize) -> bool
    ensures { result ≡ good_leaf (T.bytes texts.now) (Text sort p n) }
{
    is_inside(texts, p, n) && fine_text(texts, sort, p, n)
}

#[tactic(auto, unfolding(crate::specs::Check::good_op, crate::specs::Check::is_label))]
fn good_tag<T: Texts>(texts: &T, p: usize, n: usize) -> bool
    ensures { result ≡ good_op (T.bytes texts.now) (NodeTag p n) }
{
    is_inside(texts, p, n) && may_tag(texts.word(p, n))
}

#[tactic(auto, unfolding(crate::specs::Check::good_leaf))]
fn good_leaf<T: Texts>(texts: &T, leaf: Leaf) -> bool
    ensures { result ≡ good_leaf (T.bytes texts.now) leaf }
{
    match leaf {
        Leaf::Text(sort, p, n) => good_text(texts, sort, p, n),
        Leaf::Range(x, y) => is_scalar(x) && is_scalar(y),
        Leaf::PeekSlice(_, _) => true,
    }
}

#[tactic(auto, unfolding(crate::specs::Check::good_op))]
fn good_op<T: Texts>(texts: &T, op: Op) -> bool
    ensures { result ≡ good_op (T.bytes texts.now) op }
{
    match op {
        Op::Plain(_) => true,
        Op::NodeTag(p, n) => good_tag(texts, p, n),
    }
}

// The first node of a node's subtree, unless the node is false.
#[tactic(auto, using(crate::proofs::Verdicts::verdict_tip, crate::proofs::Verdicts::verdict_tip_out, crate::proofs::Verdicts::verdict_one, crate::proofs::Verdicts::verdict_one_child, crate::proofs::Verdicts::verdict_one_op, crate::proofs::Verdicts::verdict_two, crate::proofs::Verdicts::verdict_two_right, crate::proofs::Verdicts::verdict_two_left, crate::proofs::Verdicts::verdict_unknown, crate::proofs::Nodes::first_le))]
pub(crate) fn first_of<T: Texts>(texts: &T, place: &Place) -> Option<usize>
    ensures { result ≡ verdict place.now.nodes.now (T.bytes texts.now) place.now.i }
{
    let i = place.i;
    match node_at(place.nodes, i) {
        Node::Tip(leaf) => {
            if good_leaf(texts, leaf) {
                return Some(i);
            }
            None
        }
        Node::One(op, c) => {
            if c < i && c + 1 == i && good_op(texts, op) {
                return Some(usize::from(place.firsts[c]));
            }
            None
        }
        Node::Two(_, a, b) => {
            if b < i && b + 1 == i {
                let f = usize::from(place.firsts[b]);
                if a < f && a + 1 == f {
                    return Some(usize::from(place.firsts[a]));
                }
            }
            None
        }
        Node::Unknown => None,
    }
}

// Where a rule's tree begins: right after the last one.
#[tactic(auto, using(crate::proofs::Records::begin_after), unfolding(crate::specs::Record::head_at))]
pub(crate) fn begin_at(rules: &[u32], k: usize) -> usize
    requires { rule_size * k ≤ length rules.now }
    ensures { result ≡ begin_at rules.now k }
{
    if k == 0 {
        return 0;
    }
    let last = head_at(rules, k - 1);
    last.root + 1
}

// The root is a node, and its tree begins where it should.
#[tactic(auto, unfolding(crate::specs::Check::good_root))]
fn good_root(all: &Rules, k: usize, root: usize) -> bool
    requires { rule_size * k ≤ length all.now.rules.now }
    ensures { result ≡ good_root all.now.nodes.now (begin_at all.now.rules.now k) root }
{
    root < all.nodes.len() / NODE_SIZE && usize::from(all.firsts[root]) == begin_at(all.rules, k)
}

#[tactic(auto, unfolding(crate::specs::Check::good_rule, crate::specs::Check::good_name, crate::specs::Check::good_leaf, crate::specs::Record::head_at))]
pub(crate) fn good_rule<T: Texts>(texts: &T, all: &Rules, k: usize) -> bool
    requires { rule_size * (k + 1) ≤ length all.now.rules.now }
    ensures { result ≡ good_rule all.now.nodes.now all.now.rules.now (T.bytes texts.now) k }
{
    let head = head_at(all.rules, k);
    good_text(texts, Sort::Ident, head.offset, head.length)
        && head.mark <= 4
        && good_root(all, k, head.root)
}
