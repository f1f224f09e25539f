// Visits to nodes. Every function hands on how many nested visits and steps are left.
ghost use Rattle.std.specs.Prelude.{◌≡◌, ◌<◌};
ghost use Rattle.table.specs.Record.{nodes_in};
ghost use Rattle.links.specs.Program.{linked_at, Runnable};
ghost use Rattle.matcher.specs.Match.{repeat, visit};
ghost use Rattle.matcher.specs.Answers.{line_of};

use super::leaves::{any_at, is_full, range_at, text_at};
use crate::Outcome;
use links::Act;
use links::inner::nodes::linked_at;
use replies::Answer;
use table::limits;

// The nested visits that are allowed.
const VISITS: usize = 1024;

// Visits node `start` at a place. The visit that comes last of a name, a sequence or a choice is a turn of
// the loop, and no call.
#[cycle(repeat_visit)]
fn visit(
    nodes: &[u32],
    links: &[u16; limits::NODES],
    store: &[u8],
    line: &[u8],
    start: usize,
    from: usize,
    depth: usize,
    allowed: u64,
) -> Outcome
    requires runnable { Runnable nodes.now links.now store.now }
    requires start_bound { start < nodes_in nodes.now }
    ensures { result ≡ visit (linked_at nodes.now links.now) store.now line.now depth allowed start from }
{
    let mut i = start;
    let mut at = from;
    let mut deep = depth;
    let mut left = allowed;
    loop {
        if deep == 0 {
            return Outcome::Over;
        }
        if left == 0 {
            return Outcome::Over;
        }
        let d = deep - 1;
        let l = left - 1;
        let act = linked_at(nodes, links, i);
        match act {
            Act::Text(fold, p, n) => {
                return text_at(fold, store, p, n, line, at, l);
            }
            Act::Range(first, last) => {
                return range_at(first, last, line, at, l);
            }
            Act::Any => {
                return any_at(line, at, l);
            }
            Act::Call(root) => {
                i = root;
                deep = d;
                left = l;
            }
            Act::PosPred(c) => {
                let x = visit(nodes, links, store, line, c, at, d, l);
                match x {
                    Outcome::Matched(_, m) => {
                        return Outcome::Matched(at, m);
                    }
                    Outcome::Missed(m) => {
                        return Outcome::Missed(m);
                    }
                    Outcome::Over => {
                        return Outcome::Over;
                    }
                }
            }
            Act::NegPred(c) => {
                let x = visit(nodes, links, store, line, c, at, d, l);
                match x {
                    Outcome::Matched(_, m) => {
                        return Outcome::Missed(m);
                    }
                    Outcome::Missed(m) => {
                        return Outcome::Matched(at, m);
                    }
                    Outcome::Over => {
                        return Outcome::Over;
                    }
                }
            }
            Act::Seq(a, b) => {
                let x = visit(nodes, links, store, line, a, at, d, l);
                match x {
                    Outcome::Matched(e, m) => {
                        i = b;
                        at = e;
                        deep = d;
                        left = m;
                    }
                    Outcome::Missed(m) => {
                        return Outcome::Missed(m);
                    }
                    Outcome::Over => {
                        return Outcome::Over;
                    }
                }
            }
            Act::Choice(a, b) => {
                let x = visit(nodes, links, store, line, a, at, d, l);
                match x {
                    Outcome::Matched(e, m) => {
                        return Outcome::Matched(e, m);
                    }
                    Outcome::Missed(m) => {
                        i = b;
                        deep = d;
                        left = m;
                    }
                    Outcome::Over => {
                        return Outcome::Over;
                    }
                }
            }
            Act::Repeat(c, least, most) => {
                return repeat(nodes, links, store, line, c, least, most, at, d, l);
            }
            Act::Unfit => {
                return Outcome::Missed(l);
            }
        }
    }
}

// Visits node c at a place and on from there, as often as it matches and is due.
#[cycle(repeat_visit)]
fn repeat(
    nodes: &[u32],
    links: &[u16; limits::NODES],
    store: &[u8],
    line: &[u8],
    c: usize,
    least: u32,
    most: Option<u32>,
    start: usize,
    depth: usize,
    allowed: u64,
) -> Outcome
    requires runnable { Runnable nodes.now links.now store.now }
    requires c_bound { c < nodes_in nodes.now }
    ensures { result ≡ repeat (visit (linked_at nodes.now links.now) store.now line.now depth) c least most 0 start allowed }
{
    let mut at = start;
    let mut left = allowed;
    let mut n: u64 = 0;
    loop {
        if is_full(most, n) {
            return Outcome::Matched(at, left);
        }
        let x = visit(nodes, links, store, line, c, at, depth, left);
        match x {
            Outcome::Matched(e, m) => {
                at = e;
                left = m;
                n += 1;
            }
            Outcome::Missed(m) => {
                if u64::from(least) <= n {
                    return Outcome::Matched(at, m);
                }
                return Outcome::Missed(m);
            }
            Outcome::Over => {
                return Outcome::Over;
            }
        }
    }
}

// Runs a line from a root.
pub(crate) fn run_line(
    nodes: &[u32],
    links: &[u16; limits::NODES],
    store: &[u8],
    root: usize,
    allowance: u64,
    line: &[u8],
) -> Answer
    requires runnable { Runnable nodes.now links.now store.now }
    requires root_bound { root < nodes_in nodes.now }
    ensures { result ≡ line_of (linked_at nodes.now links.now) store.now root allowance line.now }
{
    let bad = table::inner::characters::first_bad(line);
    if let Some(i) = bad {
        return Answer::NotUtf8(i);
    }
    let x = visit(nodes, links, store, line, root, 0, VISITS, allowance);
    match x {
        Outcome::Matched(e, l) => Answer::Matched(e, allowance - l),
        Outcome::Missed(l) => Answer::NoMatch(allowance - l),
        Outcome::Over => Answer::Over,
    }
}
