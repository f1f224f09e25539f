// Runs the line matcher on the vectors of its standard input. It writes each vector with the answer in
// numbers: the refusal's number and place, 1 for a match, its length, the steps.
#![tactic(auto)]

use replies::{Answer, FindError, RunError};
use table::inner::layout::NODE_SIZE;

// The numbers of a string under one `!` more than visits may nest.
const CHAIN: usize = NODE_SIZE * 1026;

fn tell(answer: Answer) {
    let row = replies::row_of(answer);
    vectors::write_numbers(&[row.number, row.place, row.matched, row.length, row.steps]);
}

fn tell_lines(lines: Result<(usize, usize), RunError>) {
    let tally = replies::tally_of(lines);
    vectors::write_numbers(&[tally.number, tally.place, tally.lines, tally.next]);
}

fn tell_found(found: Result<usize, FindError>) {
    let finding = replies::finding_of(found);
    vectors::write_numbers(&[finding.number, finding.place, finding.rule]);
}

// m NODES RULES STORE START LINE ALLOWANCE; or, of many,
// l NODES RULES STORE START TEXT ALLOWANCE ROOM, into numbers that stand at 7: the ones behind the room
// stay. It writes the refusal's number and place, how many lines were run, where the next one begins, and
// then all numbers.
fn run_given(line: &[u8], many: bool) {
    let mut nodes = [0u32; 600];
    let mut rules = [0u32; 24];
    let mut store = [0u8; 256];
    let mut text = [0u8; 1024];
    let mut records = [7u64; 22];
    let start = vectors::number(vectors::word(line, 4)) as usize;
    let allowance = vectors::number(vectors::word(line, 6));
    let room = vectors::number(vectors::word(line, 7)) as usize;
    let n = vectors::numbers(vectors::word(line, 1), &mut nodes);
    let m = vectors::numbers(vectors::word(line, 2), &mut rules);
    let k = vectors::unhex(vectors::word(line, 3), &mut store);
    let t = vectors::unhex(vectors::word(line, 5), &mut text);
    let nodes = &nodes[..n];
    let rules = &rules[..m];
    let store = &store[..k];
    let text = &text[..t];
    if !many {
        tell(matcher::match_line(nodes, rules, store, start, text, allowance));
        return;
    }
    let Some(lent) = records.get_mut(..room) else {
        return;
    };
    tell_lines(matcher::match_lines(nodes, rules, store, start, text, allowance, lent));
    vectors::write_numbers(&records);
}

// n NODES RULES STORE NAME: the refusal's number and place, the index of the lowest rule of that name
fn run_named(line: &[u8]) {
    let mut nodes = [0u32; 600];
    let mut rules = [0u32; 24];
    let mut store = [0u8; 256];
    let mut name = [0u8; 256];
    let n = vectors::numbers(vectors::word(line, 1), &mut nodes);
    let m = vectors::numbers(vectors::word(line, 2), &mut rules);
    let k = vectors::unhex(vectors::word(line, 3), &mut store);
    let t = vectors::unhex(vectors::word(line, 4), &mut name);
    tell_found(matcher::rule_named(&nodes[..n], &rules[..m], &store[..k], &name[..t]));
}

// A string, and NegPred over NegPred.
fn chain() -> [u32; CHAIN] {
    let mut nodes = [0; CHAIN];
    nodes[0] = 1;
    nodes[3] = 1;
    nodes[4] = 1;
    for i in 1..1026 {
        nodes[NODE_SIZE * i] = 7;
        nodes[NODE_SIZE * i + 3] = i as u32 - 1;
    }
    nodes
}

// d N ALLOWANCE: as many times !, up to 1,025, before a string, over its own line
fn run_deep(line: &[u8]) {
    let nodes = chain();
    let n = vectors::number(vectors::word(line, 1));
    let allowance = vectors::number(vectors::word(line, 2));
    if n <= 1025 {
        let nodes = &nodes[..NODE_SIZE * (n as usize + 1)];
        let rules = [0, 1, 0, n as u32, 0, 0];
        tell(matcher::match_line(nodes, &rules, b"ra", 0, b"a", allowance));
    }
}

fn run_line(line: &[u8]) {
    vectors::write(line);
    let Some(letter) = vectors::word(line, 0).first() else {
        return;
    };
    match letter {
        b'm' => run_given(line, false),
        b'l' => run_given(line, true),
        b'd' => run_deep(line),
        b'n' => run_named(line),
        _ => {}
    }
    vectors::write(b"\n");
}

fn main() {
    vectors::run_lines(&mut io::large_buffer(), run_line);
}
