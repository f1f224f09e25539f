// Blanks that are no single byte: CRLF and comments.
ghost use Rattle.std.specs.Prelude.{◌≡◌, ◌+◌, ◌<◌, length, drop};
ghost use Rattle.token.specs.Blanks.{mark_of, further, close_of, slash_blank, opener_blank, past_from};

use super::runs;
use crate::Mark;

// What two bytes are in a comment.
#[tactic(auto, unfolding(crate::specs::Blanks::mark_of))]
fn mark_of(x: u8, y: u8) -> Mark
    ensures { result ≡ mark_of x y }
{
    match (x, y) {
        (b'*', b'/') => Mark::Closes,
        (b'/', b'*') => Mark::Opens,
        _ => Mark::Neither,
    }
}

// Past the end of the comment whose inside starts at a place.
fn comment_end(s: &[u8], at: usize) -> Option<usize>
    ensures { result ≡ further at (close_of 1 (drop at s.now)) }
{
    let mut i = at;
    let mut opened: usize = 1;
    while i < s.len() && i + 1 < s.len() {
        match mark_of(s[i], s[i + 1]) {
            Mark::Neither => {
                i += 1;
            }
            Mark::Opens => {
                i += 2;
                opened += 1;
            }
            Mark::Closes => {
                i += 2;
                opened -= 1;
                if opened == 0 {
                    return Some(i);
                }
            }
        }
    }
    None
}

// Past the comment that a slash at a place begins; the place itself where none does.
#[tactic(auto, using(crate::proofs::Runs::drop_next, crate::proofs::Comments::comment_closed, crate::proofs::Comments::comment_open), unfolding(crate::specs::Blanks::slash_blank, crate::specs::Blanks::line_blank))]
fn slash_end(s: &[u8], at: usize) -> usize
    requires { at < length s.now }
    ensures { result ≡ past_from at (slash_blank (drop (at + 1) s.now)) }
{
    let k = at + 2;
    if runs::next_is(s, at + 1, b'/') {
        if runs::next_is(s, k, b'/') || runs::next_is(s, k, b'!') {
            return at;
        }
        return runs::line_end(s, k);
    }
    if runs::next_is(s, at + 1, b'*') {
        if let Some(end) = comment_end(s, k) {
            return end;
        }
    }
    at
}

// Past the blank that an opener at a place begins; the place itself where none does.
#[tactic(auto, unfolding(crate::specs::Blanks::opener_blank, crate::specs::Blanks::return_blank))]
pub(crate) fn opener_blank_end(s: &[u8], at: usize, b: u8) -> usize
    requires { at < length s.now }
    ensures { result ≡ past_from at (opener_blank b (drop (at + 1) s.now)) }
{
    match b {
        b'\r' if runs::next_is(s, at + 1, b'\n') => at + 2,
        b'/' => slash_end(s, at),
        _ => at,
    }
}
