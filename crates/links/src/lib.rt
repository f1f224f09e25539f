// Links: what each node asks of a line, names bound to their rules, and whether tables can be run at all.
//
// They see the tables through the promises of `table` alone. `inner` has what the matcher calls.
#![tactic(auto)]

pub mod inner;

// What a node asks of a line: a text by offset and length, with or without ASCII case; children by their
// indexes; a name by its rule's root.
#[derive(Clone, Copy)]
pub enum Act {
    Text(bool, usize, usize),
    Range(u32, u32),
    Any,
    Call(usize),
    PosPred(usize),
    NegPred(usize),
    Seq(usize, usize),
    Choice(usize, usize),
    Repeat(usize, u32, Option<u32>),
    Unfit,
}
