// The token at a place, and all tokens of a text. The table of classes is lent.
mod blanks;
pub mod listing;
pub mod openers;
mod runs;

ghost use Rattle.std.specs.Prelude.{◌≡◌, ◌≤◌, length, take};
ghost use Rattle.text.specs.Classes.{classes};
ghost use Rattle.text.specs.Splice.{fronted};
ghost use Rattle.text.specs.Limits.{max_text};
ghost use Rattle.token.specs.Tokens.{token_at};
ghost use Rattle.token.specs.Lists.{filled_of};
ghost use Rattle.token.specs.Table.{flat, room_of, toks};

use crate::{FillError, Token, kind};

// The token at a place: past blanks, by the class of its first byte. Most blanks are spaces, which
// are told without a look at the table.
pub fn token_at(t: &[u8; 256], s: &[u8], at: usize) -> Token
    requires { t.now ≡ classes }
    ensures { result ≡ token_at s.now at }
{
    let mut i = at;
    while i < s.len() {
        let b = s[i];
        if b == b' ' {
            i += 1;
        } else {
            let c = text::inner::classes::class(t, b);
            match c {
                1 => {
                    i += 1;
                }
                2 => {
                    return openers::word_at(t, s, i);
                }
                3 => {
                    let end = runs::digits_end(t, s, i);
                    return Token::Found {
                        kind: kind::NUMBER,
                        start: i,
                        end,
                    };
                }
                4 => {
                    return Token::Found {
                        kind: openers::one_kind(b),
                        start: i,
                        end: i + 1,
                    };
                }
                5 => {
                    let next = blanks::opener_blank_end(s, i, b);
                    if next == i {
                        return openers::opener_at(t, s, i, b);
                    }
                    i = next;
                }
                _ => {
                    return Token::NoToken(i);
                }
            }
        }
    }
    Token::End
}

// Past spaces and LF. With a `for` over the places all of `fill` takes up to a tenth more time.
#[tactic(auto, using(crate::proofs::Places::at_space, crate::proofs::Places::at_feed))]
fn past_spaces(s: &[u8], at: usize) -> usize
    ensures { token_at s.now result ≡ token_at s.now at }
{
    let mut i = at;
    while i < s.len() && (s[i] == b' ' || s[i] == b'\n') {
        i += 1;
    }
    i
}

// The token at a place, as `token_at` has it. Most tokens are words and single bytes behind spaces and
// LF: they are told here, since a call hands its answer over in memory.
fn near_token(t: &[u8; 256], s: &[u8], at: usize) -> Token
    requires { t.now ≡ classes }
    ensures { result ≡ token_at s.now at }
{
    let i = past_spaces(s, at);
    if s.len() <= i {
        return Token::End;
    }
    let b = s[i];
    let c = text::inner::classes::class(t, b);
    match c {
        2 => openers::word_at(t, s, i),
        4 => Token::Found {
            kind: openers::one_kind(b),
            start: i,
            end: i + 1,
        },
        _ => token_at(t, s, i),
    }
}

// Puts the tokens of a text into a lent table, as many as it has room for.
pub fn fill(t: &[u8; 256], s: &[u8], tokens: &mut [u32]) -> Result<usize, FillError>
    requires t_value { t.now ≡ classes }
    requires s_len_bound { length s.now ≤ max_text }
    ensures answer { result ≡ filled_of (room_of tokens.old) s.now }
    ensures held { tokens.new ≡ fronted (flat (take (room_of tokens.old) (toks s.now))) tokens.old }
{
    let room = tokens.len() / listing::TOKEN_SIZE;
    let mut at = 0;
    let mut n = 0;
    loop {
        let token = near_token(t, s, at);
        match token {
            Token::End => {
                return Ok(n);
            }
            Token::NoToken(place) => {
                return Err(FillError::NoToken(place));
            }
            Token::Found { kind, start, end } => {
                if room <= n {
                    return Err(FillError::Full);
                }
                listing::put_token(tokens, n, u32::from(kind), start as u32, end as u32);
                n += 1;
                at = end;
            }
        }
    }
}
