// The kinds of tokens, by name. Their numbers are docs/GRAMMAR.md's.
pub const EQUALS: u8 = 1;

pub const OPENING_BRACE: u8 = 2;

pub const CLOSING_BRACE: u8 = 3;

pub const OPENING_BRACK: u8 = 4;

pub const CLOSING_BRACK: u8 = 5;

pub const OPENING_PAREN: u8 = 6;

pub const CLOSING_PAREN: u8 = 7;

pub const AMPERSAND: u8 = 8;

pub const EXCLAMATION: u8 = 9;

pub const TILDE: u8 = 10;

pub const BAR: u8 = 11;

pub const QUESTION: u8 = 12;

pub const STAR: u8 = 13;

pub const PLUS: u8 = 14;

pub const COMMA: u8 = 15;

pub const AT: u8 = 16;

pub const DOLLAR: u8 = 17;

pub const WORD: u8 = 18;

pub const TAG: u8 = 19;

pub const NUMBER: u8 = 20;

pub const NEGATIVE_NUMBER: u8 = 21;

pub const DOTS: u8 = 22;

pub const STRING: u8 = 23;

pub const INSENSITIVE_STRING: u8 = 24;

pub const CHARACTER: u8 = 25;

pub const GRAMMAR_DOC: u8 = 26;

pub const LINE_DOC: u8 = 27;
