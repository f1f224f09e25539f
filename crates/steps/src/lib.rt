// The table of states as code: what a byte or the text's end does. `inner` has it, for the crate above.
#![tactic(auto)]

pub mod inner;

use states::Conf;

// What a byte does: the token that ended before it, the one that ends with it, and where the machine
// stands then.
#[derive(Clone, Copy)]
pub struct Row {
    pub before: Option<(u32, u32, u32)>,
    pub here: Option<(u32, u32, u32)>,
    pub conf: Conf,
}

// The token that stands when the text ends, or a fault's place.
#[derive(Clone, Copy)]
pub struct Finish {
    pub token: Option<(u32, u32, u32)>,
    pub fault: Option<usize>,
}
