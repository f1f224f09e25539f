// Forms: what a node's text is made of, before any walk: its brackets, leaves, counts and tags.
//
// They carry over the arms of `Display` and `as_postfix_operand` of pest_meta's ast.rs. `inner` has the
// functions, each once to measure and once to write: measuring adds up at once what stands around a text's parts,
// and asks for no room.
#![tactic(auto)]

pub mod inner;

use table::{Join, Unary};

// The two texts of a tree: with the brackets of the Rust's `Display`, or with the fewest that keep it.
#[derive(Clone, Copy, PartialEq, Eq)]
pub enum Style {
    Full,
    Short,
}

// Where an expression stands: as a rule's body or in PUSH( ), behind a predicate or a tag, under a
// postfix, or on a side of a join.
#[derive(Clone, Copy, PartialEq, Eq)]
pub enum Place {
    Alone,
    Prefixed,
    Operand,
    LeftOf(Join),
    RightOf(Join),
}

// What decides, beside its place, whether an expression stands in brackets.
#[derive(Clone, Copy)]
pub enum Form {
    Plain,
    Range,
    Prefix,
    Postfix,
    Tag,
    Joined(Join),
}

// How what stands over one child is written: before it, with the child's place and whether brackets open
// in front and close behind; or behind it.
#[derive(Clone, Copy)]
pub enum Over {
    Before(Place, bool, bool),
    Behind(Unary),
}
