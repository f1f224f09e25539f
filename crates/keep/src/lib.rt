// What is kept of a stream: its state in the numbers that a caller holds, and back.
//
// Numbers that don't fit one another are taken for a fresh stream. `inner` has what the calls use.
#![tactic(auto)]

pub mod inner;

// A state in numbers.
#[derive(Clone, Copy)]
pub struct Packed {
    pub code: usize,
    pub kind: usize,
    pub backslash: usize,
    pub depth: usize,
}
