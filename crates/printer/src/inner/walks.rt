// The two walks from a node to its children, whose indexes are smaller: one measures a text, so that
// nothing is written where it does not fit, and one writes it.
ghost use Rattle.std.specs.Prelude.{◌≡◌, ◌+◌, ◌*◌, ◌≤◌, ◌<◌, length, get_or};
ghost use Rattle.text.specs.Splice.{Room, Wrote, spent};
ghost use Rattle.table.specs.Record.{node_size, rules_in, tree_at, rule_at};
ghost use Rattle.table.specs.Check.{SoundUpTo, Valid};
ghost use Rattle.forms.specs.Printing.{printed, mark_text, printed_rule};
ghost use Rattle.printer.specs.Answers.{table_text, room_of, print_in};

use super::bounds::table_most;
use crate::PrintError;
use forms::inner::{brackets, leaves, unary};
use forms::{Over, Place, Style};
use table::Node;
use table::inner::layout::{RULE_SIZE, head_at, kind_at, node_at, node_with};
use text::inner::splice::{put, put_byte, spend};

// What is left after node i's text. Once nothing is left, no node is looked at any more.
pub fn measure(
    nodes: &[u32],
    store: &[u8],
    i: usize,
    place: Place,
    left: usize,
    style: Style,
) -> usize
    requires { SoundUpTo nodes.now store.now (i + 1) }
    ensures { result ≡ spent left (printed style place (tree_at nodes.now store.now i)) }
{
    if left == 0 {
        return 0;
    }
    let node = node_at(nodes, i);
    match node {
        Node::Tip(leaf) => {
            let on = brackets::leaf_brackets(style, place, leaf);
            leaves::spend_leaf(store, leaf, brackets::spend_brackets(on, left))
        }
        Node::One(op, c) => {
            let form = brackets::op_form(op);
            let on = brackets::brackets(style, place, form);
            let inside = unary::spend_op(store, op, brackets::spend_brackets(on, left));
            measure(nodes, store, c, brackets::under(form), inside, style)
        }
        Node::Two(join, a, b) => {
            let on = brackets::join_brackets(style, place, join);
            let inside = spend(brackets::spend_brackets(on, left), 3);
            let right = measure(nodes, store, a, Place::LeftOf(join), inside, style);
            measure(nodes, store, b, Place::RightOf(join), right, style)
        }
        Node::Unknown => left,
    }
}

// Writes node i's text. Who calls it has looked up the node's kind, while something else was being written: the walk
// branches on it at once, and most of these branches a processor guesses wrong.
fn write_kind(
    nodes: &[u32],
    store: &[u8],
    kind: u32,
    i: usize,
    out: &mut [u8],
    at: usize,
    place: Place,
    style: Style,
) -> usize
    requires sound_up_to { SoundUpTo nodes.now store.now (i + 1) }
    requires kind_value { kind ≡ get_or nodes.now (node_size * i) 0 }
    requires room { Room out.old at (printed style place (tree_at nodes.now store.now i)) }
    ensures { Wrote out.old at (printed style place (tree_at nodes.now store.now i)) out.new result }
{
    let node = node_with(nodes, kind, i);
    match node {
        Node::Tip(leaf) => {
            let on = brackets::leaf_brackets(style, place, leaf);
            let a1 = brackets::put_open(on, out, at);
            let a2 = leaves::put_leaf(store, leaf, out, a1);
            brackets::put_close(on, out, a2)
        }
        Node::One(op, c) => {
            let kc = kind_at(nodes, c);
            let over = brackets::over(style, place, op);
            match over {
                Over::Before(under, opens, closes) => {
                    let a1 = brackets::put_open(opens, out, at);
                    let a2 = unary::put_front(store, op, out, a1);
                    let a3 = write_kind(nodes, store, kc, c, out, a2, under, style);
                    brackets::put_close(closes, out, a3)
                }
                Over::Behind(unary) => {
                    let a1 = write_kind(nodes, store, kc, c, out, at, Place::Operand, style);
                    unary::put_after(unary, out, a1)
                }
            }
        }
        Node::Two(join, a, b) => {
            let ka = kind_at(nodes, a);
            let on = brackets::join_brackets(style, place, join);
            let a1 = brackets::put_open(on, out, at);
            let a2 = write_kind(nodes, store, ka, a, out, a1, Place::LeftOf(join), style);
            let a3 = brackets::put_separator(join, out, a2);
            let kb = kind_at(nodes, b);
            let a4 = write_kind(nodes, store, kb, b, out, a3, Place::RightOf(join), style);
            brackets::put_close(on, out, a4)
        }
        Node::Unknown => at,
    }
}

// Writes node i's text.
pub fn write(
    nodes: &[u32],
    store: &[u8],
    i: usize,
    place: Place,
    out: &mut [u8],
    at: usize,
    style: Style,
) -> usize
    requires sound_up_to { SoundUpTo nodes.now store.now (i + 1) }
    requires room { Room out.old at (printed style place (tree_at nodes.now store.now i)) }
    ensures { Wrote out.old at (printed style place (tree_at nodes.now store.now i)) out.new result }
{
    let kind = kind_at(nodes, i);
    write_kind(nodes, store, kind, i, out, at, place, style)
}

#[tactic(auto, unfolding(text::specs::Splice::spent, forms::specs::Printing::mark_text))]
fn spend_mark(mark: u32, left: usize) -> usize
    ensures { result ≡ spent left (mark_text mark) }
{
    match mark {
        1..=4 => spend(left, 1),
        _ => left,
    }
}

#[tactic(auto, unfolding(forms::specs::Printing::mark_text))]
fn put_mark(mark: u32, out: &mut [u8], at: usize) -> usize
    requires { Room out.old at (mark_text mark) }
    ensures { Wrote out.old at (mark_text mark) out.new result }
{
    match mark {
        1 => put_byte(b'_', out, at),
        2 => put_byte(b'@', out, at),
        3 => put_byte(b'$', out, at),
        4 => put_byte(b'!', out, at),
        _ => at,
    }
}

// What is left after a rule: " = ", "{ " and " }" with LF are eight bytes.
fn measure_rule(
    style: Style,
    nodes: &[u32],
    rules: &[u32],
    store: &[u8],
    k: usize,
    left: usize,
) -> usize
    requires valid { Valid nodes.now rules.now store.now }
    requires k_bound { k < rules_in rules.now }
    ensures { result ≡ spent left (printed_rule style (rule_at nodes.now rules.now store.now k)) }
{
    let head = head_at(rules, k);
    let frame = spend_mark(head.mark, spend(spend(left, head.length), 8));
    measure(nodes, store, head.root, Place::Alone, frame, style)
}

// Writes a rule.
fn print_rule(
    style: Style,
    nodes: &[u32],
    rules: &[u32],
    store: &[u8],
    k: usize,
    out: &mut [u8],
    at: usize,
) -> usize
    requires valid { Valid nodes.now rules.now store.now }
    requires k_bound { k < rules_in rules.now }
    requires room { Room out.old at (printed_rule style (rule_at nodes.now rules.now store.now k)) }
    ensures { Wrote out.old at (printed_rule style (rule_at nodes.now rules.now store.now k)) out.new result }
{
    let head = head_at(rules, k);
    let p = head.offset;
    let e = p + head.length;
    let a1 = put(&store[p..e], out, at);
    let a2 = put(b" = ", out, a1);
    let a3 = put_mark(head.mark, out, a2);
    let a4 = put(b"{ ", out, a3);
    let a5 = write(nodes, store, head.root, Place::Alone, out, a4, style);
    put(b" }\n", out, a5)
}

// What is left after all rules. Once nothing is left, the rest are not looked at.
pub fn measure_rules(style: Style, nodes: &[u32], rules: &[u32], store: &[u8], room: usize) -> usize
    requires { Valid nodes.now rules.now store.now }
    ensures { result ≡ spent room (table_text style nodes.now rules.now store.now) }
{
    let mut left = room;
    for k in 0..rules.len() / RULE_SIZE {
        if left == 0 {
            return 0;
        }
        left = measure_rule(style, nodes, rules, store, k, left);
    }
    left
}

// Writes all rules.
pub fn print_rules(
    style: Style,
    nodes: &[u32],
    rules: &[u32],
    store: &[u8],
    out: &mut [u8],
    at: usize,
) -> usize
    requires valid { Valid nodes.now rules.now store.now }
    requires room { Room out.old at (table_text style nodes.now rules.now store.now) }
    ensures { Wrote out.old at (table_text style nodes.now rules.now store.now) out.new result }
{
    let mut a = at;
    for k in 0..rules.len() / RULE_SIZE {
        a = print_rule(style, nodes, rules, store, k, out, a);
    }
    a
}

// Writes all rules to the front of an output that has room for them.
fn print_fitting(style: Style, nodes: &[u32], rules: &[u32], store: &[u8], out: &mut [u8]) -> usize
    requires valid { Valid nodes.now rules.now store.now }
    requires room { Room out.old 0 (table_text style nodes.now rules.now store.now) }
    ensures { Wrote out.old 0 (table_text style nodes.now rules.now store.now) out.new result }
{
    print_rules(style, nodes, rules, store, out, 0)
}

// Measures the text first, and writes it where it fits.
fn print_measured(
    style: Style,
    nodes: &[u32],
    rules: &[u32],
    store: &[u8],
    out: &mut [u8],
) -> Result<usize, PrintError>
    requires { Valid nodes.now rules.now store.now }
    ensures value { result ≡ room_of (table_text style nodes.now rules.now store.now) (length out.old) }
    ensures out_after { out.new ≡ print_in style nodes.now rules.now store.now out.old result }
{
    if measure_rules(style, nodes, rules, store, out.len() + 1) == 0 {
        return Err(PrintError::NoRoom);
    }
    Ok(print_fitting(style, nodes, rules, store, out))
}

// Writes the text to a stash that has room for it, and copies it from there where it fits: that costs less than to
// measure it first.
fn print_by(
    style: Style,
    nodes: &[u32],
    rules: &[u32],
    store: &[u8],
    stash: &mut [u8],
    out: &mut [u8],
) -> Result<usize, PrintError>
    requires valid { Valid nodes.now rules.now store.now }
    requires store_in_bounds { length (table_text style nodes.now rules.now store.now) ≤ length stash.old }
    ensures value { result ≡ room_of (table_text style nodes.now rules.now store.now) (length out.old) }
    ensures out_after { out.new ≡ print_in style nodes.now rules.now store.now out.old result }
{
    let n = print_fitting(style, nodes, rules, store, stash);
    if out.len() < n {
        return Err(PrintError::NoRoom);
    }
    Ok(put(&stash[..n], out, 0))
}

// A stash of N bytes: of four sizes, since a local array is cleared at each call.
fn print_stashed<const N: usize>(
    style: Style,
    nodes: &[u32],
    rules: &[u32],
    store: &[u8],
    out: &mut [u8],
) -> Result<usize, PrintError>
    requires valid { Valid nodes.now rules.now store.now }
    requires stash_size { N ≤ 65536 }
    requires store_len_bound { length (table_text style nodes.now rules.now store.now) ≤ N }
    ensures value { result ≡ room_of (table_text style nodes.now rules.now store.now) (length out.old) }
    ensures out_after { out.new ≡ print_in style nodes.now rules.now store.now out.old result }
{
    let mut stash = [0u8; N];
    print_by(style, nodes, rules, store, &mut stash, out)
}

// Prints a text of at most `most` bytes where that is more than the output has.
fn print_tight(
    style: Style,
    nodes: &[u32],
    rules: &[u32],
    store: &[u8],
    out: &mut [u8],
    most: usize,
) -> Result<usize, PrintError>
    requires valid { Valid nodes.now rules.now store.now }
    requires store_len_bound { length (table_text style nodes.now rules.now store.now) ≤ most }
    ensures value { result ≡ room_of (table_text style nodes.now rules.now store.now) (length out.old) }
    ensures out_after { out.new ≡ print_in style nodes.now rules.now store.now out.old result }
{
    if most <= 1024 {
        return print_stashed::<1024>(style, nodes, rules, store, out);
    }
    if most <= 8192 {
        return print_stashed::<8192>(style, nodes, rules, store, out);
    }
    if most <= 32768 {
        return print_stashed::<32768>(style, nodes, rules, store, out);
    }
    if most <= 65536 {
        return print_stashed::<65536>(style, nodes, rules, store, out);
    }
    print_measured(style, nodes, rules, store, out)
}

// Prints tables that are known not to be false, straight to the output where their bound fits.
pub fn print_valid(
    style: Style,
    nodes: &[u32],
    rules: &[u32],
    store: &[u8],
    out: &mut [u8],
) -> Result<usize, PrintError>
    requires { Valid nodes.now rules.now store.now }
    ensures value { result ≡ room_of (table_text style nodes.now rules.now store.now) (length out.old) }
    ensures out_after { out.new ≡ print_in style nodes.now rules.now store.now out.old result }
{
    let most = table_most(nodes, rules);
    if most <= out.len() {
        return Ok(print_fitting(style, nodes, rules, store, out));
    }
    print_tight(style, nodes, rules, store, out, most)
}
