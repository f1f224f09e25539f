// Numbers from anywhere: those that don't fit one another are taken for a fresh stream.
ghost use Rattle.std.specs.Prelude.{◌≡◌, get_or};
ghost use Rattle.states.specs.Keep as Keep;
ghost use Rattle.states.specs.Steps.{begin};
ghost use Rattle.states.specs.Feed as Feeds;

use super::kept;
use crate::Packed;
use states::{Conf, Feed, Lit, Stand, State, Status, Tail, Utf};
use text::limits;

#[tactic(auto, unfolding(states::specs::Keep::lit_of))]
fn lit_of(kind: usize) -> Lit
    ensures { result ≡ Keep.lit_of kind }
{
    match kind {
        25 => Lit::One,
        _ => Lit::Text(kind),
    }
}

#[tactic(auto, using(crate::proofs::Codes::tail_past))]
fn tail_of(code: usize) -> Tail
    ensures { result ≡ get_or Keep.tails code Tail.T1 }
{
    match code {
        1 => Tail::T2,
        2 => Tail::T3,
        3 => Tail::TE0,
        4 => Tail::TED,
        5 => Tail::TF0,
        6 => Tail::TF4,
        _ => Tail::T1,
    }
}

#[tactic(auto, unfolding(states::specs::Keep::state_of))]
fn state_of(p: Packed) -> State
    ensures { result ≡ Keep.state_of p.code p.kind p.backslash p.depth }
{
    match p.code {
        0 => State::Start,
        1 => State::Word,
        2 => State::Push,
        3 => State::Num,
        4 => State::Hash,
        5 => State::Tag,
        6 => State::Dot,
        7 => State::Caret,
        8 => State::Minus,
        9 => State::Zeros,
        10 => State::Negative,
        11 => State::Str(p.kind),
        12 => State::Esc(lit_of(p.kind), p.backslash),
        13 => State::X0(lit_of(p.kind), p.backslash),
        14 => State::X1(lit_of(p.kind), p.backslash),
        15 => State::U(lit_of(p.kind), p.backslash),
        16 => State::Un(lit_of(p.kind), p.backslash, p.depth),
        17 => State::Chr,
        18 => State::More(tail_of(p.depth)),
        19 => State::Quote,
        20 => State::Slash,
        21 => State::Slash2,
        22 => State::Line,
        23 => State::Doc(p.kind),
        24 => State::DocCr(p.kind),
        25 => State::Cr,
        26 => State::Com(p.depth),
        27 => State::Star(p.depth),
        28 => State::Bar(p.depth),
        29.. => State::Refused,
    }
}

#[tactic(auto, using(crate::proofs::Codes::utf_past), unfolding(states::specs::Keep::utf_of))]
fn utf_of(code: usize, start: usize) -> Utf
    ensures { result ≡ Keep.utf_of code start }
{
    match code {
        0 => Utf::Whole,
        1..=7 => Utf::Mid(tail_of(code - 1), start),
        _ => Utf::Broke(start),
    }
}

#[tactic(auto, unfolding(states::specs::Feed::stand_of))]
fn stand_of(f: Feed) -> Stand
    ensures { result ≡ Feeds.stand_of f }
{
    let state = state_of(Packed {
        code: f.state,
        kind: f.kind,
        backslash: f.backslash,
        depth: f.depth,
    });
    let seen = f.seen.saturating_sub(f.start);
    Stand {
        conf: Conf {
            state,
            start: f.start,
            size: seen.saturating_sub(kept::waiting(state)),
        },
        utf: utf_of(f.utf, f.sequence),
        seen: f.seen,
        count: f.count,
    }
}

fn is_text(kind: usize) -> bool
    ensures { result ≡ Keep.is_text kind }
{
    matches!(kind, 23 | 24)
}

fn is_doc(kind: usize) -> bool
    ensures { result ≡ Keep.is_doc kind }
{
    matches!(kind, 26 | 27)
}

fn is_lit(l: Lit) -> bool
    ensures { result ≡ Keep.is_lit l }
{
    match l {
        Lit::Text(kind) => is_text(kind),
        Lit::One => true,
    }
}

fn state_fits(q: State, n: usize) -> bool
    ensures { result ≡ Keep.state_fits q n }
{
    match q {
        State::Start => n == 0,
        State::Hash
        | State::Dot
        | State::Caret
        | State::Minus
        | State::Chr
        | State::Slash
        | State::Cr => n == 1,
        State::Slash2 => n == 2,
        State::Word
        | State::Num
        | State::Tag
        | State::Zeros
        | State::Negative
        | State::More(_)
        | State::Quote
        | State::Line => 0 < n,
        State::Push => matches!(n, 1..=12),
        State::Str(kind) => is_text(kind) && 0 < n,
        State::Doc(kind) | State::DocCr(kind) => is_doc(kind) && 0 < n,
        State::Esc(l, b) | State::X0(l, b) | State::X1(l, b) | State::U(l, b) => is_lit(l) && b < n,
        State::Un(l, b, j) => j <= 6 && is_lit(l) && b < n,
        State::Com(d) | State::Star(d) | State::Bar(d) => 0 < d && d <= n,
        State::Refused => false,
    }
}

fn utf_fits(u: Utf, n: usize) -> bool
    ensures { result ≡ Keep.utf_fits u n }
{
    match u {
        Utf::Whole => true,
        Utf::Mid(_, start) => start < n,
        Utf::Broke(_) => false,
    }
}

// The numbers of a stream fit one another.
#[tactic(auto, unfolding(states::specs::Feed::fits))]
fn fits(c: Stand) -> bool
    ensures { result ≡ Feeds.fits c }
{
    c.seen <= limits::TEXT
        && c.conf.start <= c.seen
        && c.count <= c.conf.start
        && state_fits(c.conf.state, c.conf.size)
        && utf_fits(c.utf, c.seen)
}

pub fn fresh() -> Stand
    ensures { result ≡ begin }
{
    Stand {
        conf: Conf {
            state: State::Start,
            start: 0,
            size: 0,
        },
        utf: Utf::Whole,
        seen: 0,
        count: 0,
    }
}

#[tactic(auto, unfolding(states::specs::Feed::opened))]
pub fn status(f: Feed) -> Status
    ensures { result ≡ Feeds.opened f }
{
    match f.number {
        0 => {
            let c = stand_of(f);
            Status::Open(if fits(c) { c } else { fresh() })
        }
        1 | 2 | 3 | 14 => Status::Held(f.number, f.start, f.count),
        _ => Status::Open(fresh()),
    }
}
