// How a string is printed as a literal.
ghost use Rattle.std.specs.Prelude.{◌≡◌, ◌<◌};
ghost use Rattle.text.specs.Splice.{Room, Wrote, spent};
ghost use Rattle.literal.specs.Literals.{hex_count, bare, bare_byte, show_of, shown, inside, literal, quote_byte};

use crate::{Quote, Show};

pub fn quote_byte(q: Quote) -> u8
    ensures { result ≡ quote_byte q }
{
    match q {
        Quote::Double => b'"',
        Quote::Single => b'\'',
    }
}

// How many hex digits a number takes: four bits to a digit, at least two digits.
fn hex_count(c: u32) -> usize
    requires { c < 0x1000000 }
    ensures { result ≡ hex_count c }
{
    let bits = 32 - c.leading_zeros();
    bits.div_ceil(4).max(2) as usize
}

// Whether a character prints bare. ASCII is told first, by as many tests as ASCII alone would take.
fn prints_bare(c: u32) -> bool
    ensures { result ≡ bare c }
{
    matches!(c, 0x20..=0x7e | 0xa1..=0x24f) && c != 0xad
}

#[tactic(auto, unfolding(crate::specs::Literals::show_of))]
fn show_of(q: u8, c: u32) -> Show
    ensures { result ≡ show_of q c }
{
    if c == u32::from(q) {
        return Show::Pair(q);
    }
    match c {
        92 => Show::Pair(b'\\'),
        0 => Show::Pair(b'0'),
        9 => Show::Pair(b't'),
        10 => Show::Pair(b'n'),
        13 => Show::Pair(b'r'),
        _ if prints_bare(c) => Show::Bare,
        _ => Show::Hex,
    }
}

// Whether a byte is the whole of a character that prints bare: then it is not decoded.
#[tactic(auto, using(crate::proofs::Printed::byte_is))]
fn is_bare(q: u8, b: u8) -> bool
    ensures { result ≡ bare_byte q b }
{
    matches!(b, 0x20..=0x7e) && b != q && b != b'\\'
}

// What is left after a character in a literal.
pub fn spend_shown(room: usize, q: u8, c: u32) -> usize
    requires { c < 0x110000 }
    ensures { result ≡ spent room (shown q c) }
{
    let show = show_of(q, c);
    match show {
        Show::Pair(_) => text::inner::splice::spend(room, 2),
        Show::Bare => text::inner::utf8::spend_char(room, c),
        Show::Hex => text::inner::splice::spend(room, hex_count(c) + 4),
    }
}

// Writes a character in a literal. Bytes are stored by themselves: to copy them out of an array is slower.
pub fn put_shown(q: u8, c: u32, out: &mut [u8], at: usize) -> usize
    requires c_bound { c < 0x110000 }
    requires room { Room out.old at (shown q c) }
    ensures { Wrote out.old at (shown q c) out.new result }
{
    let show = show_of(q, c);
    match show {
        Show::Pair(b) => {
            out[at] = b'\\';
            out[at + 1] = b;
            at + 2
        }
        Show::Bare => text::inner::utf8::put_char(c, out, at),
        Show::Hex => {
            out[at] = b'\\';
            out[at + 1] = b'u';
            out[at + 2] = b'{';
            let a = text::inner::digits::put_hex(hex_count(c), c, out, at + 3);
            text::inner::splice::put_byte(b'}', out, a)
        }
    }
}

// What is left after a string between its quotes.
fn spend_inside(s: &[u8], q: u8, room: usize) -> usize
    ensures { result ≡ spent room (inside q s.now) }
{
    let mut left = room;
    let mut i = 0;
    while i < s.len() {
        if is_bare(q, s[i]) {
            left = text::inner::splice::spend(left, 1);
            i += 1;
        } else {
            let sequence = text::char_at(s, i);
            match sequence {
                Some((c, n)) => {
                    left = spend_shown(left, q, c);
                    i += n;
                }
                None => {
                    i += 1;
                }
            }
        }
    }
    left
}

// Writes a string between its quotes.
fn put_inside(s: &[u8], q: u8, out: &mut [u8], at: usize) -> usize
    requires { Room out.old at (inside q s.now) }
    ensures { Wrote out.old at (inside q s.now) out.new result }
{
    let mut a = at;
    let mut i = 0;
    while i < s.len() {
        if is_bare(q, s[i]) {
            out[a] = s[i];
            a += 1;
            i += 1;
        } else {
            let sequence = text::char_at(s, i);
            match sequence {
                Some((c, n)) => {
                    a = put_shown(q, c, out, a);
                    i += n;
                }
                None => {
                    i += 1;
                }
            }
        }
    }
    a
}

// What is left after a string with its quotes.
pub fn spend_literal(s: &[u8], q: u8, room: usize) -> usize
    ensures { result ≡ spent room (literal q s.now) }
{
    text::inner::splice::spend(spend_inside(s, q, room), 2)
}

// Writes a string with its quotes.
pub fn put_literal(s: &[u8], q: u8, out: &mut [u8], at: usize) -> usize
    requires { Room out.old at (literal q s.now) }
    ensures { Wrote out.old at (literal q s.now) out.new result }
{
    let a = text::inner::splice::put_byte(q, out, at);
    let b = put_inside(s, q, out, a);
    text::inner::splice::put_byte(q, out, b)
}
