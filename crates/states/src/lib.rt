// What a text that arrives is: the states that its bytes move, where a stream stands between calls, and what a
// call answers. There is no code here: definitions, and what is true of them.
#![tactic(auto)]

// What an escape stands in: a string of a kind, or a character literal.
#[derive(Clone, Copy)]
pub enum Lit {
    Text(usize),
    One,
}

// Where a character of several bytes stands: one, two or three bytes more; after E0, ED, F0, F4.
#[derive(Clone, Copy)]
pub enum Tail {
    T1,
    T2,
    T3,
    TE0,
    TED,
    TF0,
    TF4,
}

// The states. Str, Doc: the kind. Esc to Un: what the escape stands in, and the backslash's place in
// the token; Un: the digits so far. Com, Star, Bar: the comments open.
#[derive(Clone, Copy)]
pub enum State {
    Start,
    Word,
    Push,
    Num,
    Hash,
    Tag,
    Dot,
    Caret,
    Minus,
    Zeros,
    Negative,
    Str(usize),
    Esc(Lit, usize),
    X0(Lit, usize),
    X1(Lit, usize),
    U(Lit, usize),
    Un(Lit, usize, usize),
    Chr,
    More(Tail),
    Quote,
    Slash,
    Slash2,
    Line,
    Doc(usize),
    DocCr(usize),
    Cr,
    Com(usize),
    Star(usize),
    Bar(usize),
    Refused,
}

// Where the machine stands: the state, where the token in hand starts, and how many bytes of it were
// seen. Start: where the next byte stands, and 0. Refused: the place, and 0.
#[derive(Clone, Copy)]
pub struct Conf {
    pub state: State,
    pub start: usize,
    pub size: usize,
}

// UTF-8: between characters; in one that began at a place; in a bad sequence that began at a place.
#[derive(Clone, Copy)]
pub enum Utf {
    Whole,
    Mid(Tail, usize),
    Broke(usize),
}

// Where a stream stands: the tokens' machine, UTF-8's, the bytes so far, and the records in the list.
#[derive(Clone, Copy)]
pub struct Stand {
    pub conf: Conf,
    pub utf: Utf,
    pub seen: usize,
    pub count: usize,
}

// Between calls a stream is open, or holds a refusal: number, place, and the records in the list.
#[derive(Clone, Copy)]
pub enum Status {
    Open(Stand),
    Held(usize, usize, usize),
}

// The same in numbers that a caller keeps between calls; all zeros: a fresh stream. Where number isn't
// 0 the stream holds that refusal, and start is its place.
#[derive(Clone, Copy)]
pub struct Feed {
    pub state: usize,
    pub start: usize,
    pub seen: usize,
    pub backslash: usize,
    pub kind: usize,
    pub depth: usize,
    pub utf: usize,
    pub sequence: usize,
    pub count: usize,
    pub number: usize,
}

// What a call answers: a refusal's number (0: none) and place, the records in the list (0 if refused),
// and what to keep for the next call.
#[derive(Clone, Copy)]
pub struct Call {
    pub number: usize,
    pub place: usize,
    pub records: usize,
    pub next: Feed,
}
