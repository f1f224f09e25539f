// The kinds of nodes, by name. Their numbers are docs/GRAMMAR.md's.
pub const STR: u32 = 1;

pub const INSENS: u32 = 2;

pub const RANGE: u32 = 3;

pub const IDENT: u32 = 4;

pub const PEEK_SLICE: u32 = 5;

pub const POS_PRED: u32 = 6;

pub const NEG_PRED: u32 = 7;

pub const SEQ: u32 = 8;

pub const CHOICE: u32 = 9;

pub const OPT: u32 = 10;

pub const REP: u32 = 11;

pub const REP_ONCE: u32 = 12;

pub const REP_EXACT: u32 = 13;

pub const REP_MIN: u32 = 14;

pub const REP_MAX: u32 = 15;

pub const REP_MIN_MAX: u32 = 16;

pub const PUSH: u32 = 17;

pub const PUSH_LITERAL: u32 = 18;

pub const NODE_TAG: u32 = 19;
