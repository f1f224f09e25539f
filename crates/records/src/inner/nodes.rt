// Node records: a writer for each shape of node, and moves of the last one's start and end.
ghost use Rattle.std.specs.Prelude.{◌≡◌, [], ◌∷◌, ◌-◌, ◌*◌, ◌≤◌, ◌<◌, length};
ghost use Rattle.table.specs.Record.{node_size};
ghost use Rattle.table.specs.Flat.{no_line, record_of};
ghost use Rattle.table.specs.declared.Leaf.TheVariants as Leaf;
ghost use Rattle.table.specs.declared.Op.TheVariants as Op;
ghost use Rattle.table.specs.declared.Node.TheVariants as Node;
ghost use Rattle.records.specs.Records.{written, Fits, Over, EndMoved, StartMoved, most};

use table::inner::layout::NODE_SIZE;
use table::{Join, Sort, Unary, kind};

// Writes a node record, the line still 0.
pub fn put_node(
    nodes: &mut [u32],
    index: usize,
    kind: u32,
    a: usize,
    z: usize,
    p: usize,
    q: usize,
    r: usize,
)
    requires { Fits nodes.old index a z p q r }
    ensures { nodes.new ≡ written nodes.old index (kind ∷ a ∷ z ∷ p ∷ q ∷ r ∷ 0 ∷ []) }
{
    // Stores one by one: `copy_from_slice` from an array of the seven took 2.5 times as long.
    let i = NODE_SIZE * index;
    nodes[i] = kind;
    nodes[i + 1] = a as u32;
    nodes[i + 2] = z as u32;
    nodes[i + 3] = p as u32;
    nodes[i + 4] = q as u32;
    nodes[i + 5] = r as u32;
    nodes[i + 6] = 0;
}

// Moves the end of the node that was written last.
pub fn move_end(nodes: &mut [u32], used: usize, z: usize)
    requires { (node_size * used ≤ length nodes.old) × (0 < used) × (z ≤ most) }
    ensures { EndMoved nodes.old used z nodes.new }
{
    nodes[NODE_SIZE * (used - 1) + 2] = z as u32;
}

// Moves the start of the node that was written last.
pub fn move_start(nodes: &mut [u32], used: usize, a: usize)
    requires { (node_size * used ≤ length nodes.old) × (0 < used) × (a ≤ most) }
    ensures { StartMoved nodes.old used a nodes.new }
{
    nodes[NODE_SIZE * (used - 1) + 1] = a as u32;
}

// Writes the record of what stands over the node that was written last.
pub fn put_unary(nodes: &mut [u32], used: usize, a: usize, z: usize, op: Unary)
    requires { Over nodes.old used a z }
    ensures { nodes.new ≡ written nodes.old used (record_of no_line (record { start = a; stop = z }) (Node.One (Op.Plain op) (used - 1))) }
{
    let c = used - 1;
    match op {
        Unary::PosPred => put_node(nodes, used, kind::POS_PRED, a, z, c, 0, 0),
        Unary::NegPred => put_node(nodes, used, kind::NEG_PRED, a, z, c, 0, 0),
        Unary::Opt => put_node(nodes, used, kind::OPT, a, z, c, 0, 0),
        Unary::Rep => put_node(nodes, used, kind::REP, a, z, c, 0, 0),
        Unary::RepOnce => put_node(nodes, used, kind::REP_ONCE, a, z, c, 0, 0),
        Unary::RepExact(n) => put_node(nodes, used, kind::REP_EXACT, a, z, c, n as usize, 0),
        Unary::RepMin(n) => put_node(nodes, used, kind::REP_MIN, a, z, c, n as usize, 0),
        Unary::RepMax(n) => put_node(nodes, used, kind::REP_MAX, a, z, c, n as usize, 0),
        Unary::RepMinMax(n, m) => put_node(
            nodes,
            used,
            kind::REP_MIN_MAX,
            a,
            z,
            c,
            n as usize,
            m as usize,
        ),
        Unary::Push => put_node(nodes, used, kind::PUSH, a, z, c, 0, 0),
    }
}

// Writes the record that joins a node to the one that was written last.
pub fn put_join(nodes: &mut [u32], used: usize, a: usize, z: usize, join: Join, left: usize)
    requires over { Over nodes.old used a z }
    requires left_le_most { left ≤ most }
    ensures { nodes.new ≡ written nodes.old used (record_of no_line (record { start = a; stop = z }) (Node.Two join left (used - 1))) }
{
    match join {
        Join::Seq => put_node(nodes, used, kind::SEQ, a, z, left, used - 1, 0),
        Join::Choice => put_node(nodes, used, kind::CHOICE, a, z, left, used - 1, 0),
    }
}

// Writes the record of a text in the store.
pub fn put_text(
    nodes: &mut [u32],
    used: usize,
    a: usize,
    z: usize,
    sort: Sort,
    offset: usize,
    length: usize,
)
    requires { Fits nodes.old used a z offset length 0 }
    ensures { nodes.new ≡ written nodes.old used (record_of no_line (record { start = a; stop = z }) (Node.Tip (Leaf.Text sort offset length))) }
{
    match sort {
        Sort::Str => put_node(nodes, used, kind::STR, a, z, offset, length, 0),
        Sort::Insens => put_node(nodes, used, kind::INSENS, a, z, offset, length, 0),
        Sort::Ident => put_node(nodes, used, kind::IDENT, a, z, offset, length, 0),
        Sort::PushLiteral => put_node(nodes, used, kind::PUSH_LITERAL, a, z, offset, length, 0),
    }
}

// Writes the record of a range.
pub fn put_range(nodes: &mut [u32], used: usize, a: usize, z: usize, x: u32, y: u32)
    requires { Fits nodes.old used a z x y 0 }
    ensures { nodes.new ≡ written nodes.old used (record_of no_line (record { start = a; stop = z }) (Node.Tip (Leaf.Range x y))) }
{
    put_node(nodes, used, kind::RANGE, a, z, x as usize, y as usize, 0)
}

// Writes the record of a slice of the stack.
pub fn put_slice(nodes: &mut [u32], used: usize, a: usize, z: usize, from: u32, end: Option<u32>)
    requires { Fits nodes.old used a z from 0 0 }
    ensures { nodes.new ≡ written nodes.old used (record_of no_line (record { start = a; stop = z }) (Node.Tip (Leaf.PeekSlice from end))) }
{
    match end {
        None => put_node(nodes, used, kind::PEEK_SLICE, a, z, from as usize, 0, 0),
        Some(to) => put_node(
            nodes,
            used,
            kind::PEEK_SLICE,
            a,
            z,
            from as usize,
            1,
            to as usize,
        ),
    }
}

// Writes the record of a tag over the node that was written last.
pub fn put_tag(nodes: &mut [u32], used: usize, a: usize, z: usize, offset: usize, length: usize)
    requires over { Over nodes.old used a z }
    requires offset_le_most { (offset ≤ most) × (length ≤ most) }
    ensures { nodes.new ≡ written nodes.old used (record_of no_line (record { start = a; stop = z }) (Node.One (Op.NodeTag offset length) (used - 1))) }
{
    put_node(nodes, used, kind::NODE_TAG, a, z, used - 1, offset, length)
}
