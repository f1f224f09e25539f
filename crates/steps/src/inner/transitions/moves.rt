// What a row of the table does.
ghost use Rattle.std.specs.Prelude.{◌≡◌, suc, ◌+◌, ◌<◌, ◌≤◌, Some};
ghost use Rattle.text.specs.Booleans.{choose};
ghost use Rattle.text.specs.Limits.{max_text};
ghost use Rattle.states.specs.Machine as Machine;
ghost use Rattle.steps.specs.Shapes.{out_of, going, giving};

use crate::Row;
use states::{Conf, State};

pub fn token(kind: usize, a: usize, b: usize) -> Option<(u32, u32, u32)>
    requires kind_bound { kind ≤ 255 }
    requires a_bound { a ≤ 70000 }
    requires b_bound { b ≤ 70000 }
    ensures { result ≡ Some (kind, a, b) }
{
    Some((kind as u32, a as u32, b as u32))
}

// No token, and a state.
pub(crate) fn go(q: State, a: usize, n: usize) -> Row
    ensures { result ≡ going q a n }
{
    Row {
        before: None,
        here: None,
        conf: Conf {
            state: q,
            start: a,
            size: n,
        },
    }
}

pub(crate) fn refuse(place: usize) -> Row
    ensures { result ≡ going State.Refused place 0 }
{
    go(State::Refused, place, 0)
}

// A token up to b, and Start at c.
pub(crate) fn give(kind: usize, a: usize, b: usize, c: usize) -> Row
    requires kind_bound { kind ≤ 255 }
    requires a_bound { a ≤ 70000 }
    requires b_bound { b ≤ 70000 }
    ensures { result ≡ giving kind a b c }
{
    Row {
        before: None,
        here: token(kind, a, b),
        conf: Conf {
            state: State::Start,
            start: c,
            size: 0,
        },
    }
}

// The token in hand: where it starts, and how many of its bytes were seen. They are few more than a text's.
#[derive(Clone, Copy)]
pub(crate) struct Piece {
    pub start: usize,
    pub size: usize,
    ghost few: { start + size ≤ 65540 },
}

impl Piece {
    // No byte more.
    pub(crate) fn stay(self, q: State) -> Row
        ensures { result ≡ going q self.start self.size }
    {
        go(q, self.start, self.size)
    }

    // With a byte that waited.
    pub(crate) fn longer(self) -> Piece
        requires { self.start + self.size < 65540 }
        ensures { (result.start ≡ self.start) × (result.size ≡ self.size + 1) }
    {
        Piece {
            start: self.start,
            size: self.size + 1,
        }
    }

    // One byte more.
    pub(crate) fn grow(self, q: State) -> Row
        ensures { result ≡ going q self.start (suc self.size) }
    {
        go(q, self.start, self.size + 1)
    }

    // One byte more, or a fault.
    pub(crate) fn grow_if(self, ok: bool, q: State, place: usize) -> Row
        ensures { out_of result ≡ choose ok (λ u. Machine.go q self.start (suc self.size)) (λ u. Machine.refuse place) }
    {
        if ok {
            return self.grow(q);
        }
        refuse(place)
    }

    // It ends with this byte.
    pub(crate) fn close(self, kind: usize) -> Row
        requires { kind ≤ 255 }
        ensures { result ≡ giving kind self.start (self.start + suc self.size) (self.start + suc self.size) }
    {
        let end = self.start + (self.size + 1);
        give(kind, self.start, end, end)
    }
}

// The first byte of a token.
pub(crate) fn first(start: usize) -> Piece
    requires { start ≤ max_text }
    ensures { (result.start ≡ start) × (result.size ≡ 1) }
{
    Piece { start, size: 1 }
}
