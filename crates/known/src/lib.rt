// What is known of a store once: where the words and the characters from a place on stop. So a long part of it is
// judged without going over it, however many parts there are.
//
// All of it asks something of its callers, so all of it stands in `inner`.
#![tactic(auto)]

pub mod inner;
