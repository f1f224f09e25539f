// Tokens: the token at a place of a text, all tokens of a text, and the lister.
//
// The entry point stands here and asks nothing of its callers. `inner` has what the crates above
// build on.
#![tactic(auto)]

pub mod inner;
pub mod kind;

ghost use Rattle.std.specs.Prelude.{◌≡◌};
ghost use Rattle.token.specs.Lister.{next_of, numbers_of, lister};

use text::limits;

// A token, the text's end, or the place where there is no token.
#[derive(Clone, Copy)]
pub enum Token {
    Found { kind: u8, start: usize, end: usize },
    End,
    NoToken(usize),
}

// What two bytes are in a comment.
#[derive(Clone, Copy)]
pub enum Mark {
    Closes,
    Opens,
    Neither,
}

// Why the lent table does not hold all tokens: the place where there is no token, or more tokens
// before it than the table has room for.
#[derive(Clone, Copy, Debug, PartialEq, Eq)]
pub enum FillError {
    NoToken(usize),
    Full,
}

// What the lister found: a text over 65,536 bytes, one that is not UTF-8, the next token, the text's
// end with its length, or no token.
#[derive(Clone, Copy)]
pub enum Listed {
    TooLong,
    NotUtf8(usize),
    Next { kind: u8, start: usize, end: usize },
    End(usize),
    NoToken(usize),
}

// The next token from a place on, which may be any. It is next looked for at this one's end.
pub fn next_token(s: &[u8], at: usize) -> Listed
    ensures answer { result ≡ next_of s.now at }
    ensures numbers { numbers_of at result ≡ lister s.now at }
{
    if limits::TEXT < s.len() {
        return Listed::TooLong;
    }
    let utf8 = text::first_bad(s);
    if let Some(place) = utf8 {
        return Listed::NotUtf8(place);
    }
    let classes = text::inner::classes::classes();
    let token = inner::token_at(&classes, s, at);
    match token {
        Token::Found { kind, start, end } => Listed::Next { kind, start, end },
        Token::End => Listed::End(s.len()),
        Token::NoToken(place) => Listed::NoToken(place),
    }
}
