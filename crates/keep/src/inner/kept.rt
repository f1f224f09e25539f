// A stream in the numbers that a caller keeps.
ghost use Rattle.std.specs.Prelude.{◌≡◌};
ghost use Rattle.states.specs.Keep as Keep;
ghost use Rattle.states.specs.Steps.{refused_at};
ghost use Rattle.states.specs.Feed.{numbered};
ghost use Rattle.keep.specs.Packs.{parts_by};

use crate::Packed;
use states::{Conf, Feed, Lit, Stand, State, Status, Tail, Utf};

fn lit_kind(l: Lit) -> usize
    ensures { result ≡ Keep.lit_kind l }
{
    match l {
        Lit::Text(kind) => kind,
        Lit::One => 25,
    }
}

fn tail_code(t: Tail) -> usize
    ensures { result ≡ Keep.tail_code t }
{
    t as usize
}

fn pack(code: usize, kind: usize, backslash: usize, depth: usize) -> Packed
    ensures { parts_by result ≡ Keep.parts code kind backslash depth }
{
    Packed {
        code,
        kind,
        backslash,
        depth,
    }
}

// A state in numbers.
pub fn packed(q: State) -> Packed
    ensures { parts_by result ≡ Keep.parts_of q }
{
    match q {
        State::Start => pack(0, 0, 0, 0),
        State::Word => pack(1, 0, 0, 0),
        State::Push => pack(2, 0, 0, 0),
        State::Num => pack(3, 0, 0, 0),
        State::Hash => pack(4, 0, 0, 0),
        State::Tag => pack(5, 0, 0, 0),
        State::Dot => pack(6, 0, 0, 0),
        State::Caret => pack(7, 0, 0, 0),
        State::Minus => pack(8, 0, 0, 0),
        State::Zeros => pack(9, 0, 0, 0),
        State::Negative => pack(10, 0, 0, 0),
        State::Str(kind) => pack(11, kind, 0, 0),
        State::Esc(l, b) => pack(12, lit_kind(l), b, 0),
        State::X0(l, b) => pack(13, lit_kind(l), b, 0),
        State::X1(l, b) => pack(14, lit_kind(l), b, 0),
        State::U(l, b) => pack(15, lit_kind(l), b, 0),
        State::Un(l, b, j) => pack(16, lit_kind(l), b, j),
        State::Chr => pack(17, 0, 0, 0),
        State::More(t) => pack(18, 0, 0, tail_code(t)),
        State::Quote => pack(19, 0, 0, 0),
        State::Slash => pack(20, 0, 0, 0),
        State::Slash2 => pack(21, 0, 0, 0),
        State::Line => pack(22, 0, 0, 0),
        State::Doc(kind) => pack(23, kind, 0, 0),
        State::DocCr(kind) => pack(24, kind, 0, 0),
        State::Cr => pack(25, 0, 0, 0),
        State::Com(d) => pack(26, 0, 0, d),
        State::Star(d) => pack(27, 0, 0, d),
        State::Bar(d) => pack(28, 0, 0, d),
        State::Refused => pack(29, 0, 0, 0),
    }
}

// The tokens' machine refused.
#[tactic(auto, unfolding(states::specs::Steps::refused_at))]
pub fn refused(c: Conf) -> Option<usize>
    ensures { result ≡ refused_at c }
{
    match c.state {
        State::Refused => Some(c.start),
        _ => None,
    }
}

// Bytes that were seen and are not yet counted.
pub fn waiting(q: State) -> usize
    ensures { result ≡ Keep.waiting q }
{
    match q {
        State::DocCr(_) | State::Star(_) | State::Bar(_) => 1,
        _ => 0,
    }
}

pub fn utf_code(u: Utf) -> usize
    ensures { result ≡ Keep.utf_code u }
{
    match u {
        Utf::Whole => 0,
        Utf::Mid(t, _) => tail_code(t) + 1,
        Utf::Broke(_) => 8,
    }
}

fn utf_start(u: Utf) -> usize
    ensures { result ≡ Keep.utf_start u }
{
    match u {
        Utf::Whole => 0,
        Utf::Mid(_, place) | Utf::Broke(place) => place,
    }
}

pub fn standing(c: Stand) -> Feed
    ensures { result ≡ numbered (Status.Open c) }
{
    let p = packed(c.conf.state);
    Feed {
        state: p.code,
        start: c.conf.start,
        seen: c.seen,
        backslash: p.backslash,
        kind: p.kind,
        depth: p.depth,
        utf: utf_code(c.utf),
        sequence: utf_start(c.utf),
        count: c.count,
        number: 0,
    }
}

pub fn held(number: usize, place: usize, records: usize) -> Feed
    ensures { result ≡ numbered (Status.Held number place records) }
{
    Feed {
        state: 0,
        start: place,
        seen: 0,
        backslash: 0,
        kind: 0,
        depth: 0,
        utf: 0,
        sequence: 0,
        count: records,
        number,
    }
}
