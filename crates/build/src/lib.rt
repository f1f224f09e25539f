// The building pass: a text that is good in structure and values is read again and written as records.
//
// It carries over the tree building of pest_meta's parser.rs. `inner` has what the reader calls.
#![tactic(auto)]

pub mod inner;

use table::Unary;

// Where the building goes on: the token, the record and the store byte after what was built; and its
// span.
#[derive(Clone, Copy)]
pub struct Placed {
    pub next: usize,
    pub used: usize,
    pub free: usize,
    pub from: usize,
    pub to: usize,
}

// Where postfixes end: the token and the record after them, and the end of the node that they make.
#[derive(Clone, Copy)]
pub struct PutPostfixes {
    pub next: usize,
    pub used: usize,
    pub to: usize,
}

// Past a term's tag: the token and the store byte after it.
#[derive(Clone, Copy)]
pub struct Tag {
    pub next: usize,
    pub free: usize,
}

// Past a rule: the token, the node record and the store byte after it.
#[derive(Clone, Copy)]
pub struct RuleEnd {
    pub next: usize,
    pub used: usize,
    pub free: usize,
}
