// What a node asks of a line.
#![tactic(auto, unfolding(crate::specs::Program::act_of, crate::specs::Program::mention_of, crate::specs::Program::linked_at))]

ghost use Rattle.std.specs.Prelude.{◌≡◌, ◌<◌};
ghost use Rattle.table.specs.declared.Node.TheVariants.{Tip};
ghost use Rattle.table.specs.Characters.{max_nodes};
ghost use Rattle.table.specs.Record.{nodes_in};
ghost use Rattle.links.specs.Program.{linked, unary_act, act_of, linked_at, mention_of, is_fit};

use crate::Act;
use table::inner::layout::node_at;
use table::{Join, Leaf, Node, Op, Sort, Unary, limits};

fn linked(link: u16) -> Act
    ensures { result ≡ linked link }
{
    match link {
        0 => Act::Any,
        _ => Act::Call(usize::from(link - 1)),
    }
}

fn unary_act(unary: Unary, c: usize) -> Act
    ensures { result ≡ unary_act unary c }
{
    match unary {
        Unary::PosPred => Act::PosPred(c),
        Unary::NegPred => Act::NegPred(c),
        Unary::Opt => Act::Repeat(c, 0, Some(1)),
        Unary::Rep => Act::Repeat(c, 0, None),
        Unary::RepOnce => Act::Repeat(c, 1, None),
        Unary::RepExact(n) => Act::Repeat(c, n, Some(n)),
        Unary::RepMin(n) => Act::Repeat(c, n, None),
        Unary::RepMax(n) => Act::Repeat(c, 0, Some(n)),
        Unary::RepMinMax(n, m) if n <= m => Act::Repeat(c, n, Some(m)),
        Unary::RepMinMax(_, _) | Unary::Push => Act::Unfit,
    }
}

fn leaf_act(leaf: Leaf, link: u16) -> Act
    ensures { result ≡ act_of (Tip leaf) link }
{
    match leaf {
        Leaf::Text(Sort::Str, p, n) => Act::Text(false, p, n),
        Leaf::Text(Sort::Insens, p, n) => Act::Text(true, p, n),
        Leaf::Text(Sort::Ident, _, _) => linked(link),
        Leaf::Range(a, b) => Act::Range(a, b),
        Leaf::Text(Sort::PushLiteral, _, _) | Leaf::PeekSlice(_, _) => Act::Unfit,
    }
}

pub fn act_of(node: Node, link: u16) -> Act
    ensures { result ≡ act_of node link }
{
    match node {
        Node::Tip(leaf) => leaf_act(leaf, link),
        Node::One(Op::Plain(unary), c) => unary_act(unary, c),
        Node::Two(Join::Seq, a, b) => Act::Seq(a, b),
        Node::Two(Join::Choice, a, b) => Act::Choice(a, b),
        Node::One(Op::NodeTag(_, _), _) | Node::Unknown => Act::Unfit,
    }
}

// The node at an index, its name by its link.
pub fn linked_at(nodes: &[u32], links: &[u16; limits::NODES], i: usize) -> Act
    requires i_bound { i < nodes_in nodes.now }
    requires i_lt_max_nodes { i < max_nodes }
    ensures { result ≡ linked_at nodes.now links.now i }
{
    act_of(node_at(nodes, i), links[i])
}

pub fn mention_of(node: Node) -> Option<(usize, usize)>
    ensures { result ≡ mention_of node }
{
    match node {
        Node::Tip(Leaf::Text(Sort::Ident, p, n)) => Some((p, n)),
        _ => None,
    }
}

fn fit_unary(unary: Unary) -> bool
    ensures { result ≡ is_fit (unary_act unary 0) }
{
    match unary {
        Unary::RepMinMax(n, m) => n <= m,
        Unary::Push => false,
        _ => true,
    }
}

fn fit_leaf(leaf: Leaf) -> bool
    ensures { result ≡ is_fit (act_of (Tip leaf) 0) }
{
    !matches!(
        leaf,
        Leaf::Text(Sort::PushLiteral, _, _) | Leaf::PeekSlice(_, _)
    )
}

// Whether a node can be run. It doesn't ask `act_of`: that has one caller, so that the compiler puts it into
// the loop of visits.
pub fn is_fit(node: Node) -> bool
    ensures { result ≡ is_fit (act_of node 0) }
{
    match node {
        Node::Tip(leaf) => fit_leaf(leaf),
        Node::One(Op::Plain(unary), _) => fit_unary(unary),
        Node::Two(_, _, _) => true,
        Node::One(Op::NodeTag(_, _), _) | Node::Unknown => false,
    }
}
