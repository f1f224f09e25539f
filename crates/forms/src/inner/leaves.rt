// The texts of leaves.
#![tactic(auto, using(text::proofs::Splices::wrote_then), unfolding(text::specs::Splice::spent, crate::specs::Printing::character, crate::specs::Printing::signed, crate::specs::Printing::sort_text, crate::specs::Printing::range_text, crate::specs::Printing::slice_text))]

ghost use Rattle.std.specs.Prelude.{◌≡◌, true, ◌<◌};
ghost use Rattle.text.specs.Splice.{Room, Wrote, spent};
ghost use Rattle.table.specs.declared.Sort.TheVariants.{Insens, PushLiteral};
ghost use Rattle.table.specs.Record.{atom_of};
ghost use Rattle.table.specs.Check.{good_leaf};
ghost use Rattle.forms.specs.Printing.{character, signed, end_text, sort_text, range_text, slice_text, atom_text};

use literal::inner::shows::{put_literal, put_shown, spend_literal, spend_shown};
use table::{Leaf, Sort};
use text::inner::digits::{put_decimal, spend_decimal};
use text::inner::splice::{put, put_byte, spend};

// What is left after a character in its quotes.
fn spend_character(left: usize, c: u32) -> usize
    requires { c < 0x110000 }
    ensures { result ≡ spent left (character c) }
{
    spend(spend_shown(left, b'\'', c), 2)
}

fn put_character(c: u32, out: &mut [u8], at: usize) -> usize
    requires c_bound { c < 0x110000 }
    requires room { Room out.old at (character c) }
    ensures { Wrote out.old at (character c) out.new result }
{
    let a = put_byte(b'\'', out, at);
    let b = put_shown(b'\'', c, out, a);
    put_byte(b'\'', out, b)
}

// What is left after a number of two's complement.
fn spend_signed(left: usize, n: u32) -> usize
    ensures { result ≡ spent left (signed n) }
{
    if n < 0x8000_0000 {
        return spend_decimal(left, n);
    }
    spend_decimal(spend(left, 1), 0xffff_ffff - n + 1)
}

fn put_signed(n: u32, out: &mut [u8], at: usize) -> usize
    requires { Room out.old at (signed n) }
    ensures { Wrote out.old at (signed n) out.new result }
{
    if n < 0x8000_0000 {
        return put_decimal(n, out, at);
    }
    let a = put_byte(b'-', out, at);
    put_decimal(0xffff_ffff - n + 1, out, a)
}

fn spend_end(left: usize, end: Option<u32>) -> usize
    ensures { result ≡ spent left (end_text end) }
{
    match end {
        None => left,
        Some(n) => spend_signed(left, n),
    }
}

fn put_end(end: Option<u32>, out: &mut [u8], at: usize) -> usize
    requires { Room out.old at (end_text end) }
    ensures { Wrote out.old at (end_text end) out.new result }
{
    match end {
        None => at,
        Some(n) => put_signed(n, out, at),
    }
}

// What is left after a slice: PEEK[ and .. and ] are eight bytes.
fn spend_slice(left: usize, start: u32, end: Option<u32>) -> usize
    ensures { result ≡ spent left (slice_text start end) }
{
    spend_end(spend_signed(spend(left, 8), start), end)
}

fn put_slice(start: u32, end: Option<u32>, out: &mut [u8], at: usize) -> usize
    requires { Room out.old at (slice_text start end) }
    ensures { Wrote out.old at (slice_text start end) out.new result }
{
    let a = put(b"PEEK[", out, at);
    let b = put_signed(start, out, a);
    let c = put(b"..", out, b);
    let d = put_end(end, out, c);
    put_byte(b']', out, d)
}

fn spend_range(left: usize, x: u32, y: u32) -> usize
    requires x_bound { x < 0x110000 }
    requires y_bound { y < 0x110000 }
    ensures { result ≡ spent left (range_text x y) }
{
    spend_character(spend_character(spend(left, 2), x), y)
}

fn put_range(x: u32, y: u32, out: &mut [u8], at: usize) -> usize
    requires x_bound { x < 0x110000 }
    requires y_bound { y < 0x110000 }
    requires room { Room out.old at (range_text x y) }
    ensures { Wrote out.old at (range_text x y) out.new result }
{
    let a = put_character(x, out, at);
    let b = put(b"..", out, a);
    put_character(y, out, b)
}

// What is left after a text of the store: PUSH_LITERAL( ) takes fourteen bytes more than its string.
fn spend_text(s: &[u8], sort: Sort, left: usize) -> usize
    ensures { result ≡ spent left (sort_text sort s.now) }
{
    match sort {
        Sort::Str => spend_literal(s, b'"', left),
        Sort::Insens => spend_literal(s, b'"', spend(left, 1)),
        Sort::Ident => spend(left, s.len()),
        Sort::PushLiteral => spend_literal(s, b'"', spend(left, 14)),
    }
}

fn put_push_literal(s: &[u8], out: &mut [u8], at: usize) -> usize
    requires { Room out.old at (sort_text PushLiteral s.now) }
    ensures { Wrote out.old at (sort_text PushLiteral s.now) out.new result }
{
    let a = put(b"PUSH_LITERAL(", out, at);
    let b = put_literal(s, b'"', out, a);
    put_byte(b')', out, b)
}

fn put_insens(s: &[u8], out: &mut [u8], at: usize) -> usize
    requires { Room out.old at (sort_text Insens s.now) }
    ensures { Wrote out.old at (sort_text Insens s.now) out.new result }
{
    let a = put_byte(b'^', out, at);
    put_literal(s, b'"', out, a)
}

fn put_text(s: &[u8], sort: Sort, out: &mut [u8], at: usize) -> usize
    requires { Room out.old at (sort_text sort s.now) }
    ensures { Wrote out.old at (sort_text sort s.now) out.new result }
{
    match sort {
        Sort::Str => put_literal(s, b'"', out, at),
        Sort::Insens => put_insens(s, out, at),
        Sort::Ident => put(s, out, at),
        Sort::PushLiteral => put_push_literal(s, out, at),
    }
}

// What is left after a leaf without its brackets.
pub fn spend_leaf(store: &[u8], leaf: Leaf, left: usize) -> usize
    requires { good_leaf store.now leaf ≡ true }
    ensures { result ≡ spent left (atom_text (atom_of store.now leaf)) }
{
    match leaf {
        Leaf::Text(sort, p, n) => {
            let e = p + n;
            spend_text(&store[p..e], sort, left)
        }
        Leaf::Range(x, y) => spend_range(left, x, y),
        Leaf::PeekSlice(start, end) => spend_slice(left, start, end),
    }
}

// Writes a leaf without its brackets.
pub fn put_leaf(store: &[u8], leaf: Leaf, out: &mut [u8], at: usize) -> usize
    requires leaf_value { good_leaf store.now leaf ≡ true }
    requires room { Room out.old at (atom_text (atom_of store.now leaf)) }
    ensures { Wrote out.old at (atom_text (atom_of store.now leaf)) out.new result }
{
    match leaf {
        Leaf::Text(sort, p, n) => {
            let e = p + n;
            put_text(&store[p..e], sort, out, at)
        }
        Leaf::Range(x, y) => put_range(x, y, out, at),
        Leaf::PeekSlice(start, end) => put_slice(start, end, out, at),
    }
}
