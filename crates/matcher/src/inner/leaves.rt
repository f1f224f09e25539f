// What is done at a leaf.
#![tactic(auto, unfolding(crate::specs::Match::full, crate::specs::Match::one, crate::specs::Match::took))]

ghost use Rattle.std.specs.Prelude.{◌≡◌, ◌+◌, ◌≤◌, length, drop};
ghost use Rattle.table.specs.Characters.{within, char_of};
ghost use Rattle.table.specs.Record.{part};
ghost use Rattle.matcher.specs.Match.{took, alike, starts, one, any_character, full};

use crate::Outcome;
use table::inner::characters::char_at;

fn alike(fold: bool, x: u8, y: u8) -> bool
    ensures { result ≡ alike fold x y }
{
    if fold {
        return x.eq_ignore_ascii_case(&y);
    }
    x == y
}

// Whether the n bytes of the store from p on stand in the line at a place.
fn starts_at(fold: bool, store: &[u8], p: usize, n: usize, line: &[u8], at: usize) -> bool
    requires { p + n ≤ length store.now }
    ensures { result ≡ starts fold (part store.now p n) (drop at line.now) }
{
    if line.len() < at {
        return n == 0;
    }
    if line.len() - at < n {
        return false;
    }
    for j in 0..n {
        if !alike(fold, store[p + j], line[at + j]) {
            return false;
        }
    }
    true
}

pub(crate) fn text_at(
    fold: bool,
    store: &[u8],
    p: usize,
    n: usize,
    line: &[u8],
    at: usize,
    left: u64,
) -> Outcome
    requires { p + n ≤ length store.now }
    ensures { result ≡ took (starts fold (part store.now p n) (drop at line.now)) (at + n) left }
{
    if starts_at(fold, store, p, n, line, at) {
        return Outcome::Matched(at + n, left);
    }
    Outcome::Missed(left)
}

// A character between two.
pub(crate) fn range_at(first: u32, last: u32, line: &[u8], at: usize, left: u64) -> Outcome
    ensures { result ≡ one (within first last) (char_of (drop at line.now)) at left }
{
    match char_at(line, at) {
        Some((c, n)) if first <= c && c <= last => Outcome::Matched(at + n, left),
        _ => Outcome::Missed(left),
    }
}

// Any character.
pub(crate) fn any_at(line: &[u8], at: usize, left: u64) -> Outcome
    ensures { result ≡ one any_character (char_of (drop at line.now)) at left }
{
    match char_at(line, at) {
        Some((_, n)) => Outcome::Matched(at + n, left),
        None => Outcome::Missed(left),
    }
}

pub(crate) fn is_full(most: Option<u32>, n: u64) -> bool
    ensures { result ≡ full most n }
{
    matches!(most, Some(m) if u64::from(m) <= n)
}
