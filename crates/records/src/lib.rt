// Records: the only writers of node and rule records. Whoever builds tables builds them by these.
//
// How wide a record is and which number a kind has is known here and in `table`, and nowhere else.
#![tactic(auto)]

pub mod inner;
