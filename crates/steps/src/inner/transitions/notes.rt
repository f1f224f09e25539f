// The rows of comments, docs and line ends.
ghost use Rattle.std.specs.Prelude.{◌≡◌, ◌+◌, ◌≤◌};
ghost use Rattle.text.specs.Limits.{max_text};
ghost use Rattle.states.specs.Machine as Machine;
ghost use Rattle.steps.specs.Shapes.{out_of};

use super::moves::{self, Piece};
use crate::Row;
use states::State;

pub(crate) fn slash(a: usize, x: u8) -> Row
    ensures { out_of result ≡ Machine.slash_row a x }
{
    match x {
        b'/' => moves::go(State::Slash2, a, 2),
        b'*' => moves::go(State::Com(1), a, 2),
        _ => moves::refuse(a),
    }
}

pub(crate) fn line(p: Piece, x: u8) -> Row
    ensures { out_of result ≡ Machine.line_row p.start p.size x }
{
    if x == b'\n' {
        return moves::go(State::Start, p.start + (p.size + 1), 0);
    }
    p.grow(State::Line)
}

pub(crate) fn slash2(a: usize, x: u8) -> Row
    requires { a ≤ max_text }
    ensures { out_of result ≡ Machine.slash2_row a x }
{
    match x {
        b'/' => moves::go(State::Doc(27), a, 3),
        b'!' => moves::go(State::Doc(26), a, 3),
        _ => line(Piece { start: a, size: 2 }, x),
    }
}

pub(crate) fn doc(kind: usize, p: Piece, x: u8) -> Row
    requires kind_bound { kind ≤ 255 }
    ensures { out_of result ≡ Machine.doc_row kind p.start p.size x }
{
    match x {
        b'\n' => moves::give(kind, p.start, p.start + p.size, p.start + (p.size + 1)),
        b'\r' => p.stay(State::DocCr(kind)),
        _ => p.grow(State::Doc(kind)),
    }
}

// The CR that came before isn't counted yet.
pub(crate) fn doc_cr(kind: usize, p: Piece, x: u8) -> Row
    requires kind_bound { kind ≤ 255 }
    requires n_bound { p.start + p.size ≤ max_text }
    ensures { out_of result ≡ Machine.doc_cr_row kind p.start p.size x }
{
    if x == b'\n' {
        return moves::give(kind, p.start, p.start + p.size, p.start + (p.size + 2));
    }
    doc(kind, p.longer(), x)
}

pub(crate) fn cr(a: usize, x: u8) -> Row
    requires { a ≤ max_text }
    ensures { out_of result ≡ Machine.cr_row a x }
{
    if x == b'\n' {
        return moves::go(State::Start, a + 2, 0);
    }
    moves::refuse(a)
}

pub(crate) fn comment(d: usize, p: Piece, x: u8) -> Row
    ensures { out_of result ≡ Machine.com_row d p.start p.size x }
{
    match x {
        b'*' => p.stay(State::Star(d)),
        b'/' => p.stay(State::Bar(d)),
        _ => p.grow(State::Com(d)),
    }
}

// The `*` that came before isn't counted yet.
pub(crate) fn star(d: usize, p: Piece, x: u8) -> Row
    requires { p.start + p.size ≤ max_text }
    ensures { out_of result ≡ Machine.star_row d p.start p.size x }
{
    match x {
        b'/' if d <= 1 => moves::go(State::Start, p.start + (p.size + 2), 0),
        b'/' => moves::go(State::Com(d - 1), p.start, p.size + 2),
        _ => comment(d, p.longer(), x),
    }
}

// Nor is the `/`.
pub(crate) fn bar(d: usize, p: Piece, x: u8) -> Row
    requires d_le_n { d ≤ p.size }
    requires n_bound { p.start + p.size ≤ max_text }
    ensures { out_of result ≡ Machine.bar_row d p.start p.size x }
{
    if x == b'*' {
        return moves::go(State::Com(d + 1), p.start, p.size + 2);
    }
    comment(d, p.longer(), x)
}
