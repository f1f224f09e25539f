// Answers in numbers, for the C interface. `inner` has them.
#![tactic(auto)]

pub mod inner;
