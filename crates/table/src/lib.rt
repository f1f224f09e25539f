// Tables: expressions as node records, rules as rule records, their texts in a store.
//
// The node and rule records are slices of numbers. The kinds carry the names of pest_meta's ast.rs.
// The entry point stands here and asks nothing of its callers. `inner` has what the crates above it
// build on.
#![tactic(auto)]

pub mod inner;
pub mod kind;

ghost use Rattle.std.specs.Prelude.{◌≡◌, true, ◌≤◌, length};
ghost use Rattle.text.specs.Limits.{max_nodes};
ghost use Rattle.table.specs.Record.{nodes_in};
ghost use Rattle.table.specs.Check.{shaped, tables};

pub use text::limits;

// How two expressions are joined.
#[derive(Clone, Copy, PartialEq, Eq)]
pub enum Join {
    Seq,
    Choice,
}

// What is done to one expression, but for tags.
#[derive(Clone, Copy)]
pub enum Unary {
    PosPred,
    NegPred,
    Opt,
    Rep,
    RepOnce,
    RepExact(u32),
    RepMin(u32),
    RepMax(u32),
    RepMinMax(u32, u32),
    Push,
}

// What a text in the store is.
#[derive(Clone, Copy)]
pub enum Sort {
    Str,
    Insens,
    Ident,
    PushLiteral,
}

// A leaf, its text by offset and length.
#[derive(Clone, Copy)]
pub enum Leaf {
    Text(Sort, usize, usize),
    Range(u32, u32),
    PeekSlice(u32, Option<u32>),
}

// What stands over one child, a tag's text by offset and length.
#[derive(Clone, Copy)]
pub enum Op {
    Plain(Unary),
    NodeTag(usize, usize),
}

// A node record by its shape, children by their indexes.
#[derive(Clone, Copy)]
pub enum Node {
    Tip(Leaf),
    One(Op, usize),
    Two(Join, usize, usize),
    Unknown,
}

// Why tables are false: no whole records, too many, or too long a store; or the lowest false
// node; or the lowest false rule.
#[derive(Clone, Copy, Debug, PartialEq, Eq)]
pub enum TableError {
    Shape,
    Node(usize),
    Rule(usize),
}

// A rule record but for its span: where the name lies, the mark, and the root.
#[derive(Clone, Copy)]
pub struct Head {
    pub offset: usize,
    pub length: usize,
    pub mark: u32,
    pub root: usize,
}

// The check of tables of good shape, with room for the first node of each.
#[tactic(auto, using(crate::proofs::Tables::shaped_few, crate::proofs::Tables::shaped_short, crate::proofs::Tables::tables_node, crate::proofs::Tables::tables_rule, crate::proofs::Tables::tables_left, crate::proofs::Tables::tables_good))]
fn check_by(
    nodes: &[u32],
    rules: &[u32],
    store: &[u8],
    firsts: &mut [u16],
) -> Result<(), TableError>
    requires store_value { shaped nodes.now rules.now store.now ≡ true }
    requires nodes_in_bounds { nodes_in nodes.now ≤ length firsts.old }
    ensures { result ≡ tables nodes.now rules.now store.now }
{
    let t = text::inner::classes::classes();
    let texts = inner::texts::Scanned { t: &t, store };
    if let Some(i) = inner::light::lowest_node(&texts, nodes, firsts) {
        return Err(TableError::Node(i));
    }
    let all = inner::checks::Rules {
        nodes,
        rules,
        firsts,
    };
    if let Some(k) = inner::light::lowest_rule(&texts, &all) {
        return Err(TableError::Rule(k));
    }
    let m = rules.len() / inner::layout::RULE_SIZE;
    if inner::checks::begin_at(rules, m) == nodes.len() / inner::layout::NODE_SIZE {
        return Ok(());
    }
    Err(TableError::Rule(m))
}

// Room for N first nodes: of two sizes, since a local array is cleared at each call.
fn check_sized<const N: usize>(nodes: &[u32], rules: &[u32], store: &[u8]) -> Result<(), TableError>
    requires store_value { shaped nodes.now rules.now store.now ≡ true }
    requires nodes_bound { nodes_in nodes.now ≤ N }
    requires room { N ≤ max_nodes }
    ensures { result ≡ tables nodes.now rules.now store.now }
{
    let mut firsts = [0u16; N];
    check_by(nodes, rules, store, &mut firsts)
}

// The check of whole tables: their shape, then all nodes, then the rules, the lowest index first.
#[tactic(auto, using(crate::proofs::Tables::shaped_few, crate::proofs::Tables::tables_shape))]
pub fn check_tables(nodes: &[u32], rules: &[u32], store: &[u8]) -> Result<(), TableError>
    ensures { result ≡ tables nodes.now rules.now store.now }
{
    if !inner::checks::is_shaped(nodes, rules, store) {
        return Err(TableError::Shape);
    }
    if nodes.len() / inner::layout::NODE_SIZE <= 256 {
        return check_sized::<256>(nodes, rules, store);
    }
    check_sized::<{ limits::NODES }>(nodes, rules, store)
}
