// What stands before and after one child.
#![tactic(auto, unfolding(text::specs::Splice::spent, crate::specs::Printing::tag_text))]

ghost use Rattle.std.specs.Prelude.{◌≡◌, ◌≤◌, true, [], ◌++◌};
ghost use Rattle.text.specs.Splice.{Room, Wrote, spent};
ghost use Rattle.text.specs.Digits.{decimal};
ghost use Rattle.table.specs.declared.Unary.TheVariants.{RepMinMax};
ghost use Rattle.table.specs.declared.Op.TheVariants.{NodeTag};
ghost use Rattle.table.specs.Record.{wrap_of};
ghost use Rattle.table.specs.Check.{good_op};
ghost use Rattle.forms.specs.Printing.{unary_before, unary_after, before, after};

use table::{Op, Unary};
use text::inner::digits::{put_decimal, spend_decimal};
use text::inner::splice::{put, put_byte, spend};

// What is left after what stands before and after the child.
fn spend_unary(unary: Unary, left: usize) -> usize
    ensures { result ≡ spent left (unary_before unary ++ unary_after unary) }
{
    match unary {
        Unary::RepExact(n) => spend_decimal(spend(left, 2), n),
        Unary::RepMin(n) | Unary::RepMax(n) => spend_decimal(spend(left, 3), n),
        Unary::RepMinMax(n, m) => spend_decimal(spend_decimal(spend(left, 4), n), m),
        Unary::Push => spend(left, 6),
        _ => spend(left, 1),
    }
}

// The same for a tag too: # and " = " are four bytes.
pub fn spend_op(store: &[u8], op: Op, left: usize) -> usize
    requires { good_op store.now op ≡ true }
    ensures { result ≡ spent left (before (wrap_of store.now op) ++ after (wrap_of [] op)) }
{
    match op {
        Op::Plain(unary) => spend_unary(unary, left),
        Op::NodeTag(_, n) => spend(spend(left, n), 4),
    }
}

// Writes a tag, before the child.
pub fn put_tag(store: &[u8], p: usize, n: usize, out: &mut [u8], at: usize) -> usize
    requires n_value { good_op store.now (NodeTag p n) ≡ true }
    requires room { Room out.old at (before (wrap_of store.now (NodeTag p n))) }
    ensures { Wrote out.old at (before (wrap_of store.now (NodeTag p n))) out.new result }
{
    let e = p + n;
    let a = put_byte(b'#', out, at);
    let b = put(&store[p..e], out, a);
    put(b" = ", out, b)
}

// Writes what stands before the child where there is no tag.
pub fn put_before(unary: Unary, out: &mut [u8], at: usize) -> usize
    requires { Room out.old at (unary_before unary) }
    ensures { Wrote out.old at (unary_before unary) out.new result }
{
    match unary {
        Unary::PosPred => put_byte(b'&', out, at),
        Unary::NegPred => put_byte(b'!', out, at),
        Unary::Push => put(b"PUSH(", out, at),
        _ => at,
    }
}

// Writes what stands before the child.
pub fn put_front(store: &[u8], op: Op, out: &mut [u8], at: usize) -> usize
    requires op_value { good_op store.now op ≡ true }
    requires room { Room out.old at (before (wrap_of store.now op)) }
    ensures { Wrote out.old at (before (wrap_of store.now op)) out.new result }
{
    match op {
        Op::Plain(unary) => put_before(unary, out, at),
        Op::NodeTag(p, n) => put_tag(store, p, n, out, at),
    }
}

// Writes a count with what stands around it, whose sizes are known so that their bytes are stored without a loop.
fn put_count<const B: usize, const A: usize>(
    before: &[u8; B],
    n: u32,
    after: &[u8; A],
    out: &mut [u8],
    at: usize,
) -> usize
    requires short_before { B ≤ 2 }
    requires short_after { A ≤ 2 }
    requires room { Room out.old at (before.now ++ (decimal n ++ after.now)) }
    ensures { Wrote out.old at (before.now ++ (decimal n ++ after.now)) out.new result }
{
    let a = put(before, out, at);
    let b = put_decimal(n, out, a);
    put(after, out, b)
}

// Writes {n, m}.
fn put_counts(n: u32, m: u32, out: &mut [u8], at: usize) -> usize
    requires { Room out.old at (unary_after (RepMinMax n m)) }
    ensures { Wrote out.old at (unary_after (RepMinMax n m)) out.new result }
{
    let a = put_byte(b'{', out, at);
    let b = put_decimal(n, out, a);
    put_count(b", ", m, b"}", out, b)
}

// Writes what stands after the child.
pub fn put_after(unary: Unary, out: &mut [u8], at: usize) -> usize
    requires { Room out.old at (unary_after unary) }
    ensures { Wrote out.old at (unary_after unary) out.new result }
{
    match unary {
        Unary::Opt => put_byte(b'?', out, at),
        Unary::Rep => put_byte(b'*', out, at),
        Unary::RepOnce => put_byte(b'+', out, at),
        Unary::RepExact(n) => put_count(b"{", n, b"}", out, at),
        Unary::RepMin(n) => put_count(b"{", n, b",}", out, at),
        Unary::RepMax(n) => put_count(b"{,", n, b"}", out, at),
        Unary::RepMinMax(n, m) => put_counts(n, m, out, at),
        Unary::Push => put_byte(b')', out, at),
        _ => at,
    }
}
