// The rows of strings, character literals and their escapes.
ghost use Rattle.std.specs.Prelude.{◌≡◌, ◌+◌, ◌≤◌};
ghost use Rattle.literal.specs.Escapes.{simple_of};
ghost use Rattle.states.specs.Machine as Machine;
ghost use Rattle.steps.specs.Shapes.{out_of};

use super::moves::{self, Piece};
use crate::Row;
use crate::inner::utf8;
use states::{Lit, State, Tail, Utf};

pub(crate) fn string(kind: usize, p: Piece, x: u8) -> Row
    requires kind_bound { kind ≤ 255 }
    ensures { out_of result ≡ Machine.str_row kind p.start p.size x }
{
    match x {
        b'"' => p.close(kind),
        b'\\' => p.grow(State::Esc(Lit::Text(kind), p.size)),
        _ => p.grow(State::Str(kind)),
    }
}

// Back into the literal.
fn back(l: Lit) -> State
    ensures { result ≡ Machine.back l }
{
    match l {
        Lit::Text(kind) => State::Str(kind),
        Lit::One => State::Quote,
    }
}

// One of `" \ r n t 0 '`.
#[tactic(auto, unfolding(literal::specs::Escapes::simple_of))]
fn is_simple(x: u8) -> bool
    ensures { result ≡ Machine.is_number (simple_of x) }
{
    matches!(x, b'"' | b'\\' | b'r' | b'n' | b't' | b'0' | b'\'')
}

fn is_hex(x: u8) -> bool
    ensures { result ≡ Machine.is_hex x }
{
    matches!(text::hex_of(x), Some(_))
}

// The byte behind a backslash, which stands b bytes behind the token's start.
pub(crate) fn escape(l: Lit, b: usize, p: Piece, x: u8) -> Row
    requires b_le_n { b ≤ p.size }
    ensures { out_of result ≡ Machine.esc_row l b p.start p.size x }
{
    if is_simple(x) {
        return p.grow(back(l));
    }
    match x {
        b'x' => p.grow(State::X0(l, b)),
        b'u' => p.grow(State::U(l, b)),
        _ => moves::refuse(p.start + b),
    }
}

// The first digit behind `\x`, and the second.
pub(crate) fn pair(l: Lit, b: usize, p: Piece, x: u8) -> Row
    requires b_le_n { b ≤ p.size }
    ensures { out_of result ≡ Machine.x0_row l b p.start p.size x }
{
    p.grow_if(is_hex(x), State::X1(l, b), p.start + b)
}

pub(crate) fn paired(l: Lit, b: usize, p: Piece, x: u8) -> Row
    requires b_le_n { b ≤ p.size }
    ensures { out_of result ≡ Machine.x1_row l b p.start p.size x }
{
    p.grow_if(is_hex(x), back(l), p.start + b)
}

// The brace behind `\u`.
pub(crate) fn brace(l: Lit, b: usize, p: Piece, x: u8) -> Row
    requires b_le_n { b ≤ p.size }
    ensures { out_of result ≡ Machine.u_row l b p.start p.size x }
{
    p.grow_if(x == b'{', State::Un(l, b, 0), p.start + b)
}

// A digit more, after j of them, or the closing brace.
pub(crate) fn braced(l: Lit, b: usize, j: usize, p: Piece, x: u8) -> Row
    requires j_bound { j ≤ 6 }
    requires b_le_n { b ≤ p.size }
    ensures { out_of result ≡ Machine.un_row l b j p.start p.size x }
{
    if j < 6 && is_hex(x) {
        return p.grow(State::Un(l, b, j + 1));
    }
    p.grow_if(2 <= j && x == b'}', back(l), p.start + b)
}

// The byte behind `'`: a backslash, or the first byte of a character.
pub(crate) fn character(a: usize, x: u8) -> Row
    ensures { out_of result ≡ Machine.chr_row a x }
{
    if x == b'\\' {
        return moves::go(State::Esc(Lit::One, 1), a, 2);
    }
    match utf8::lead(a, x) {
        Utf::Whole => moves::go(State::Quote, a, 2),
        Utf::Mid(t, _) => moves::go(State::More(t), a, 2),
        Utf::Broke(_) => moves::refuse(a),
    }
}

fn after_tail(t: Tail) -> State
    ensures { result ≡ Machine.tail_next t }
{
    match utf8::after(t) {
        None => State::Quote,
        Some(left) => State::More(left),
    }
}

pub(crate) fn more(t: Tail, p: Piece, x: u8) -> Row
    ensures { out_of result ≡ Machine.more_row t p.start p.size x }
{
    p.grow_if(utf8::tail_ok(t, x), after_tail(t), p.start)
}

pub(crate) fn quote(p: Piece, x: u8) -> Row
    ensures { out_of result ≡ Machine.quote_row p.start p.size x }
{
    if x == b'\'' {
        return p.close(25);
    }
    moves::refuse(p.start)
}
