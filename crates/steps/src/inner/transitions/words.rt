// The rows of Start, words, numbers and tags.
ghost use Rattle.std.specs.Prelude.{◌≡◌, suc, ◌+◌, ◌≤◌, ltb, eqb, get_or};
ghost use Rattle.text.specs.Booleans.{choose, and};
ghost use Rattle.text.specs.Classes.{classes};
ghost use Rattle.text.specs.Limits.{max_text};
ghost use Rattle.token.specs.Blanks.{in_digits};
ghost use Rattle.token.specs.Tokens.{push_literal};
ghost use Rattle.states.specs.Machine as Machine;
ghost use Rattle.steps.specs.Shapes.{out_of, row_by};

use super::moves::{self, Piece};
use crate::Row;
use states::State;
use text::inner::words;

const PUSH_LITERAL: [u8; 12] = *b"PUSH_LITERAL";

// An opener.
fn opener(a: usize, x: u8) -> Row
    ensures { result ≡ row_by (Machine.open_row a x) }
{
    match x {
        b'"' => moves::go(State::Str(23), a, 1),
        b'\'' => moves::go(State::Chr, a, 1),
        b'^' => moves::go(State::Caret, a, 1),
        b'#' => moves::go(State::Hash, a, 1),
        b'.' => moves::go(State::Dot, a, 1),
        b'/' => moves::go(State::Slash, a, 1),
        b'-' => moves::go(State::Minus, a, 1),
        b'\r' => moves::go(State::Cr, a, 1),
        _ => moves::refuse(a),
    }
}

// A byte outside tokens.
#[tactic(auto, unfolding(states::specs::Machine::class_row))]
pub(crate) fn start(t: &[u8; 256], a: usize, x: u8) -> Row
    requires t_value { t.now ≡ classes }
    requires a_bound { a ≤ 65540 }
    ensures { result ≡ row_by (Machine.start_row x a) }
{
    match text::inner::classes::class(t, x) {
        1 => moves::go(State::Start, a + 1, 0),
        2 if x == b'P' => moves::go(State::Push, a, 1),
        2 => moves::go(State::Word, a, 1),
        3 => moves::go(State::Num, a, 1),
        4 => moves::give(
            usize::from(token::inner::openers::one_kind(x)),
            a,
            a + 1,
            a + 1,
        ),
        5 => opener(a, x),
        _ => moves::refuse(a),
    }
}

// A token of n bytes ended before this byte.
fn again(t: &[u8; 256], kind: usize, p: Piece, x: u8) -> Row
    requires t_value { t.now ≡ classes }
    requires kind_bound { kind ≤ 255 }
    ensures { out_of result ≡ Machine.again kind p.start (p.start + p.size) (Machine.start_row x) }
{
    let end = p.start + p.size;
    Row {
        before: moves::token(kind, p.start, end),
        ..start(t, end, x)
    }
}

// The byte is inside the token, or the token ended before it.
fn run(t: &[u8; 256], inside: bool, q: State, kind: usize, p: Piece, x: u8) -> Row
    requires t_value { t.now ≡ classes }
    requires kind_bound { kind ≤ 255 }
    ensures { out_of result ≡ choose inside (λ u. Machine.go q p.start (suc p.size)) (λ u. Machine.again kind p.start (p.start + p.size) (Machine.start_row x)) }
{
    if inside {
        return p.grow(q);
    }
    again(t, kind, p, x)
}

pub(crate) fn word(t: &[u8; 256], p: Piece, x: u8) -> Row
    requires t_value { t.now ≡ classes }
    ensures { out_of result ≡ Machine.word_row p.start p.size x }
{
    run(t, words::in_word(t, x), State::Word, 18, p, x)
}

// The byte is the next of PUSH_LITERAL, of which n were seen.
fn spells(n: usize, x: u8) -> bool
    ensures { result ≡ and (ltb n 12) (eqb x (get_or push_literal n 0)) }
{
    n < 12 && x == PUSH_LITERAL[n]
}

// PUSH and PUSH_LITERAL are tokens, if no word goes on.
#[tactic(auto, unfolding(states::specs::Machine::push_row))]
pub(crate) fn push(t: &[u8; 256], p: Piece, x: u8) -> Row
    requires t_value { t.now ≡ classes }
    ensures { out_of result ≡ Machine.push_row p.start p.size x }
{
    if spells(p.size, x) {
        return p.grow(State::Push);
    }
    if p.size < 4 {
        return word(t, p, x);
    }
    if matches!(p.size, 4 | 12) && !words::in_word(t, x) {
        return again(t, 18, p, x);
    }
    moves::refuse(p.start)
}

fn in_digits(t: &[u8; 256], x: u8) -> bool
    requires { t.now ≡ classes }
    ensures { result ≡ in_digits x }
{
    text::inner::classes::class(t, x) == 3
}

// Digits, in a state that stays.
pub(crate) fn number(t: &[u8; 256], q: State, kind: usize, p: Piece, x: u8) -> Row
    requires t_value { t.now ≡ classes }
    requires kind_bound { kind ≤ 255 }
    ensures { out_of result ≡ choose (in_digits x) (λ u. Machine.go q p.start (suc p.size)) (λ u. Machine.again kind p.start (p.start + p.size) (Machine.start_row x)) }
{
    run(t, in_digits(t, x), q, kind, p, x)
}

pub(crate) fn hash(t: &[u8; 256], a: usize, x: u8) -> Row
    requires t_value { t.now ≡ classes }
    requires a_bound { a ≤ max_text }
    ensures { out_of result ≡ Machine.hash_row a x }
{
    moves::first(a).grow_if(words::starts_word(t, x), State::Tag, a)
}

pub(crate) fn tag(t: &[u8; 256], p: Piece, x: u8) -> Row
    requires t_value { t.now ≡ classes }
    ensures { out_of result ≡ Machine.tag_row p.start p.size x }
{
    run(t, words::in_word(t, x), State::Tag, 19, p, x)
}

pub(crate) fn dot(a: usize, x: u8) -> Row
    requires { a ≤ max_text }
    ensures { out_of result ≡ Machine.dot_row a x }
{
    if x == b'.' {
        return moves::first(a).close(22);
    }
    moves::refuse(a)
}

pub(crate) fn zeros(t: &[u8; 256], p: Piece, x: u8) -> Row
    requires t_value { t.now ≡ classes }
    ensures { out_of result ≡ Machine.zeros_row p.start p.size x }
{
    if x == b'0' {
        return p.grow(State::Zeros);
    }
    p.grow_if(in_digits(t, x), State::Negative, p.start)
}
