// The lines of nodes, in one pass over the records once they are all there: brackets move starts until
// then.
ghost use Rattle.std.specs.Prelude.{◌≡◌, ◌+◌, ◌*◌, ◌≤◌, ◌<◌, length, get_or};
ghost use Rattle.text.specs.Limits.{max_text};
ghost use Rattle.table.specs.Record.{node_size};
ghost use Rattle.reader.specs.Lines.{feed, line_in, with_line, with_lines, Lined, first_child};

use crate::Mark;
use table::inner::layout::NODE_SIZE;
use table::kind;

// Bytes that are counted in one go.
const WINDOW: usize = 64;

// 1 for LF, 0 for any other byte.
fn feed_of(b: u8) -> u8
    ensures { result ≡ feed b }
{
    u8::from(b == b'\n')
}

// The LF bytes of the window at a place. It looks at each byte, and a processor at many at once.
#[tactic(auto, using(crate::proofs::Lines::line_more_in, crate::proofs::Lines::feed_most))]
fn feeds_in(text: &[u8], at: usize) -> u8
    requires { at + 64 ≤ length text.now }
    ensures { line_in text.now at + result ≡ line_in text.now (at + 64) }
{
    let mut n: u8 = 0;
    for b in &text[at..at + WINDOW] {
        n += feed_of(*b);
    }
    n
}

// The LF bytes from a place to a later one: window by window, and what is left byte by byte.
// Windows are of one size, so that the processor can count each in a few steps.
#[tactic(auto, using(crate::proofs::Lines::line_more_in, crate::proofs::Lines::line_most))]
fn feeds_between(text: &[u8], from: usize, to: usize) -> usize
    requires { (from ≤ to) × (to ≤ length text.now) }
    ensures { line_in text.now from + result ≡ line_in text.now to }
{
    let mut n: usize = 0;
    let mut i = from;
    while WINDOW <= to - i {
        n += usize::from(feeds_in(text, i));
        i += WINDOW;
    }
    for b in &text[i..to] {
        n += usize::from(feed_of(*b));
    }
    n
}

// A place, or the text's end where that comes first: the line is the same.
#[tactic(auto, using(crate::proofs::Lines::line_end_lem))]
fn inside(text: &[u8], at: usize) -> usize
    ensures { (line_in text.now result ≡ line_in text.now at) × (result ≤ length text.now) }
{
    at.min(text.len())
}

// The line of a place, counted from another one whose line is known.
#[tactic(auto, using(crate::proofs::Lines::line_most))]
fn line_from(text: &[u8], mark: Mark, at: usize) -> usize
    requires text_len_bound { length text.now ≤ max_text }
    requires line_value { mark.line ≡ line_in text.now mark.at }
    ensures { result ≡ line_in text.now at }
{
    let a = inside(text, mark.at);
    let z = inside(text, at);
    if a <= z {
        return mark.line + feeds_between(text, a, z);
    }
    mark.line - feeds_between(text, z, a)
}

// The line of a place, counted from the start of a node that has its line.
fn line_over(text: &[u8], nodes: &[u32], child: usize, at: usize) -> usize
    requires text_len_bound { length text.now ≤ max_text }
    requires child_in_bounds { node_size * (child + 1) ≤ length nodes.now }
    requires child_value { get_or nodes.now (node_size * child + 6) 0 ≡ line_in text.now (get_or nodes.now (node_size * child + 1) 0) }
    ensures { result ≡ line_in text.now at }
{
    let c = NODE_SIZE * child;
    let mark = Mark {
        at: nodes[c + 1] as usize,
        line: nodes[c + 6] as usize,
    };
    if mark.at == at {
        return mark.line;
    }
    line_from(text, mark, at)
}

// The line of a place, which most often is further on than another whose line is known.
#[tactic(auto, using(crate::proofs::Lines::line_most))]
fn line_after(text: &[u8], last: Mark, at: usize) -> usize
    requires text_len_bound { length text.now ≤ max_text }
    requires line_value { last.line ≡ line_in text.now last.at }
    ensures { result ≡ line_in text.now at }
{
    if at < last.at || text.len() < at {
        return line_from(text, last, at);
    }
    last.line + feeds_between(text, last.at, at)
}

// A node's first child, and the leaf itself where it is one.
fn first_child(nodes: &[u32], i: usize) -> usize
    requires { node_size * (i + 1) ≤ length nodes.now }
    ensures { result ≡ first_child nodes.now i }
{
    let b = NODE_SIZE * i;
    let kind = nodes[b];
    if kind <= kind::PEEK_SLICE || kind == kind::PUSH_LITERAL {
        return i;
    }
    nodes[b + 3] as usize
}

// Gives a node its line. Leaves start further on from one to the next, so theirs are counted from the
// last leaf before; any other node starts where its first child does or a little before. So no byte is
// passed more than twice.
#[tactic(auto, using(crate::proofs::Lines::line_most))]
fn number_line(text: &[u8], nodes: &mut [u32], i: usize, last: Mark) -> Mark
    requires text_len_bound { length text.now ≤ max_text }
    requires i_in_bounds { node_size * (i + 1) ≤ length nodes.old }
    requires lined { Lined (line_in text.now) nodes.old i }
    requires line_value { last.line ≡ line_in text.now last.at }
    ensures table { nodes.new ≡ with_line (line_in text.now) nodes.old i }
    ensures mark { result.line ≡ line_in text.now result.at }
{
    let b = NODE_SIZE * i;
    let at = nodes[b + 1] as usize;
    let child = first_child(nodes, i);
    if child < i {
        let line = line_over(text, nodes, child, at);
        nodes[b + 6] = line as u32;
        return last;
    }
    let line = line_after(text, last, at);
    nodes[b + 6] = line as u32;
    Mark { at, line }
}

// Gives the first nodes of a table the lines of their starts.
#[tactic(auto, using(crate::proofs::Lines::line_first, crate::proofs::Lines::numbering_none, crate::proofs::Lines::numbering_more))]
pub fn number_lines(text: &[u8], nodes: &mut [u32], used: usize)
    requires text_len_bound { length text.now ≤ max_text }
    requires used_in_bounds { node_size * used ≤ length nodes.old }
    ensures { nodes.new ≡ with_lines (line_in text.now) nodes.old used }
{
    let mut last = Mark { at: 0, line: 1 };
    for i in 0..used {
        last = number_line(text, nodes, i, last);
    }
}
