// Structure: what a text's tokens mean, checked and counted before anything is written.
//
// It carries over the descent of pest_meta's parser.rs: `consume_rules_with_spans`, `consume_expr`,
// `unaries`, `get_node_tag`. `inner` has what the crates above build on.
#![tactic(auto)]

pub mod inner;

// Tagged: tags are kept. Plain: tags are dropped, and PUSH_LITERAL is refused.
#[derive(Clone, Copy)]
pub enum Level {
    Tagged,
    Plain,
}

// First: a minimum may be above its maximum. Second: it may not.
#[derive(Clone, Copy)]
pub enum Edition {
    First,
    Second,
}

// Why a text is refused. The reader gives each reason its number.
#[derive(Clone, Copy)]
pub enum Why {
    TooLong,
    NotUtf8,
    NoToken,
    NotAllowed,
    TooDeep,
    Over,
    Zero,
    PeekRange,
    NotScalar,
    NotPlain,
    Above,
    RulesRoom,
    NodesRoom,
    StoreRoom,
}

// A refusal: the reason and the place.
#[derive(Clone, Copy)]
pub struct Refusal {
    pub why: Why,
    pub place: usize,
}

// What was gone past: the index past it, its nodes and its bytes in the store.
#[derive(Clone, Copy)]
pub struct Piece {
    pub next: usize,
    pub nodes: usize,
    pub bytes: usize,
}

// What opens an expression in a node: the `(`, and the nodes around what it holds; no `(` after PUSH;
// or nothing does.
#[derive(Clone, Copy)]
pub enum Bracket {
    Opens { at: usize, nodes: usize },
    Unopened,
    Nothing,
}

// All postfixes of a node: the index past the last, and how many.
#[derive(Clone, Copy)]
pub struct Posts {
    pub next: usize,
    pub nodes: usize,
}

// What the rules of a text use.
#[derive(Clone, Copy)]
pub struct Counts {
    pub rules: usize,
    pub nodes: usize,
    pub bytes: usize,
}
