// Node and rule records by their index.
ghost use Rattle.std.specs.Prelude.{◌≡◌, ◌+◌, ◌*◌, ◌≤◌, length, get_or};
ghost use Rattle.table.specs.declared.Leaf.TheVariants.{Text};
ghost use Rattle.table.specs.declared.Op.TheVariants.{Plain};
ghost use Rattle.table.specs.declared.Node.TheVariants.{Tip, One};
ghost use Rattle.table.specs.Record.{node_size, rule_size, peek_of, node_of, node_at, head_at};

use crate::{Head, Join, Leaf, Node, Op, Sort, Unary, kind};

// The numbers in a node record.
pub const NODE_SIZE: usize = 7;

// The numbers in a rule record.
pub const RULE_SIZE: usize = 6;

fn text_of(sort: Sort, p: u32, q: u32) -> Node
    ensures { result ≡ Tip (Text sort p q) }
{
    Node::Tip(Leaf::Text(sort, p as usize, q as usize))
}

fn peek_of(p: u32, q: u32, r: u32) -> Node
    ensures { result ≡ peek_of p q r }
{
    match q {
        0 => Node::Tip(Leaf::PeekSlice(p, None)),
        1 => Node::Tip(Leaf::PeekSlice(p, Some(r))),
        _ => Node::Unknown,
    }
}

fn plain_of(unary: Unary, p: u32) -> Node
    ensures { result ≡ One (Plain unary) p }
{
    Node::One(Op::Plain(unary), p as usize)
}

// A node by its kind, p, q and r.
#[tactic(auto, using(crate::proofs::Records::kind_none), unfolding(crate::specs::Record::node_of))]
fn node_of(kind: u32, p: u32, q: u32, r: u32) -> Node
    ensures { result ≡ node_of kind p q r }
{
    match kind {
        kind::STR => text_of(Sort::Str, p, q),
        kind::INSENS => text_of(Sort::Insens, p, q),
        kind::RANGE => Node::Tip(Leaf::Range(p, q)),
        kind::IDENT => text_of(Sort::Ident, p, q),
        kind::PEEK_SLICE => peek_of(p, q, r),
        kind::POS_PRED => plain_of(Unary::PosPred, p),
        kind::NEG_PRED => plain_of(Unary::NegPred, p),
        kind::SEQ => Node::Two(Join::Seq, p as usize, q as usize),
        kind::CHOICE => Node::Two(Join::Choice, p as usize, q as usize),
        kind::OPT => plain_of(Unary::Opt, p),
        kind::REP => plain_of(Unary::Rep, p),
        kind::REP_ONCE => plain_of(Unary::RepOnce, p),
        kind::REP_EXACT => plain_of(Unary::RepExact(q), p),
        kind::REP_MIN => plain_of(Unary::RepMin(q), p),
        kind::REP_MAX => plain_of(Unary::RepMax(q), p),
        kind::REP_MIN_MAX => plain_of(Unary::RepMinMax(q, r), p),
        kind::PUSH => plain_of(Unary::Push, p),
        kind::PUSH_LITERAL => text_of(Sort::PushLiteral, p, q),
        kind::NODE_TAG => Node::One(Op::NodeTag(q as usize, r as usize), p as usize),
        _ => Node::Unknown,
    }
}

pub fn kind_at(nodes: &[u32], i: usize) -> u32
    requires { node_size * (i + 1) ≤ length nodes.now }
    ensures { result ≡ get_or nodes.now (node_size * i) 0 }
{
    nodes[NODE_SIZE * i]
}

// A node whose kind was looked up.
#[tactic(auto, unfolding(crate::specs::Record::node_at))]
pub fn node_with(nodes: &[u32], kind: u32, i: usize) -> Node
    requires i_in_bounds { node_size * (i + 1) ≤ length nodes.now }
    requires kind_value { kind ≡ get_or nodes.now (node_size * i) 0 }
    ensures { result ≡ node_at nodes.now i }
{
    let b = NODE_SIZE * i;
    node_of(kind, nodes[b + 3], nodes[b + 4], nodes[b + 5])
}

pub fn node_at(nodes: &[u32], i: usize) -> Node
    requires { node_size * (i + 1) ≤ length nodes.now }
    ensures { result ≡ node_at nodes.now i }
{
    node_with(nodes, kind_at(nodes, i), i)
}

#[tactic(auto, unfolding(crate::specs::Record::head_at))]
pub fn head_at(rules: &[u32], k: usize) -> Head
    requires { rule_size * (k + 1) ≤ length rules.now }
    ensures { result ≡ head_at rules.now k }
{
    let b = RULE_SIZE * k;
    Head {
        offset: rules[b] as usize,
        length: rules[b + 1] as usize,
        mark: rules[b + 2],
        root: rules[b + 3] as usize,
    }
}
