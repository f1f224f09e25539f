// Prints the tables of its standard input, and writes each line with what came of it: the answer's
// number, its place, the bytes used, how many bytes of the output behind those were left alone, and
// on lines of its own the text. A small letter at a line's front asks for the full text, a capital for the
// short one.
#![tactic(auto)]

ghost use Rattle.std.specs.Prelude.{◌≤◌};
ghost use Rattle.io.specs.Counts.{IsPrefixLen};

use forms::Style;
use lending::Tables;
use table::inner::layout::{NODE_SIZE, RULE_SIZE};

fn answer(told: &[u64; 3], out: &[u8]) {
    let used = told[2] as usize;
    vectors::write_numbers(told);
    vectors::write_number(vectors::bytes_alone(out, used));
    vectors::write(b"\n");
    if let Some(text) = out.get(..used) {
        vectors::write(text);
    }
}

// Prints tables into the first bytes of a buffer that stands at 170.
fn run_print(style: Style, tables: Tables, room: usize, out: &mut [u8]) {
    let told = lending::print_within(style, tables, room, out);
    answer(&told, out);
}

// The numbers of a leaf and of the operator over it.
const PAIR: usize = 2 * NODE_SIZE;

fn turn(i: usize) -> u32 {
    if i % 2 == 1 { 7 } else { 11 }
}

// A name under n - 1 operators: a predicate and a repetition by turns.
fn make_deep(n: usize, nodes: &mut [u32]) -> usize
    ensures { IsPrefixLen result nodes.new }
{
    if 4097 < n || nodes.len() < NODE_SIZE * n + NODE_SIZE {
        return 0;
    }
    nodes[0] = 4;
    nodes[4] = 1;
    for i in 1..n {
        let b = NODE_SIZE * i;
        nodes[b] = turn(i);
        nodes[b + 3] = (i - 1) as u32;
    }
    NODE_SIZE * n
}

// Leaves whose texts are the first bytes of the store.
fn make_leaves(n: usize, kind: u32, length: u32, nodes: &mut [u32]) -> usize
    ensures { IsPrefixLen result nodes.new }
{
    if 4097 < n || nodes.len() < NODE_SIZE * n {
        return 0;
    }
    for i in 0..n {
        let b = NODE_SIZE * i;
        nodes[b] = kind;
        nodes[b + 4] = length;
    }
    NODE_SIZE * n
}

// The chain to the right over n leaves.
fn make_chain(n: usize, nodes: &mut [u32]) -> usize
    ensures { IsPrefixLen result nodes.new }
{
    if n < 2 || 2048 < n || nodes.len() < PAIR * n {
        return 0;
    }
    for j in 1..n {
        let b = NODE_SIZE * (n - 1 + j);
        nodes[b] = 8;
        nodes[b + 3] = (n - 1 - j) as u32;
        nodes[b + 4] = (n - 2 + j) as u32;
    }
    PAIR * n - NODE_SIZE
}

// Rules called by the first byte of the store, each with a node of its own.
fn make_rules(n: usize, rules: &mut [u32]) -> usize
    ensures { IsPrefixLen result rules.new }
{
    if 1025 < n || rules.len() < RULE_SIZE * n {
        return 0;
    }
    for k in 0..n {
        let b = RULE_SIZE * k;
        rules[b + 1] = 1;
        rules[b + 3] = k as u32;
    }
    RULE_SIZE * n
}

// One rule over all nodes.
fn run_tree(style: Style, nodes: &[u32], store: &[u8], room: usize, out: &mut [u8]) {
    let n = nodes.len() / NODE_SIZE;
    if n == 0 || 5000 < n {
        return;
    }
    let rules = [0, 1, 0, (n - 1) as u32, 0, 0];
    let tables = Tables {
        nodes,
        rules: &rules,
        store,
    };
    run_print(style, tables, room, out);
}

fn run_deep(style: Style, n: usize, room: usize, store: &[u8], out: &mut [u8]) {
    let mut nodes = [0u32; NODE_SIZE * 4098];
    let k = make_deep(n, &mut nodes);
    run_tree(style, &nodes[..k], store, room, out);
}

fn run_chain(
    style: Style,
    n: usize,
    kind: u32,
    length: u32,
    room: usize,
    store: &[u8],
    out: &mut [u8],
) {
    let mut nodes = [0u32; NODE_SIZE * 4098];
    make_leaves(n, kind, length, &mut nodes);
    let k = make_chain(n, &mut nodes);
    run_tree(style, &nodes[..k], store, room, out);
}

fn run_many(style: Style, n: usize, room: usize, store: &[u8], out: &mut [u8]) {
    let mut nodes = [0u32; NODE_SIZE * 1025];
    let mut rules = [0u32; RULE_SIZE * 1025];
    let k = make_leaves(n, 4, 1, &mut nodes);
    let m = make_rules(n, &mut rules);
    let tables = Tables {
        nodes: &nodes[..k],
        rules: &rules[..m],
        store,
    };
    run_print(style, tables, room, out);
}

// p ROOM NODES RULES STORE: tables as they stand
fn run_tables(style: Style, line: &[u8], room: usize, out: &mut [u8]) {
    let mut nodes = [0u32; 600];
    let mut rules = [0u32; 600];
    let mut store = [0u8; 600];
    let n = vectors::numbers(vectors::word(line, 2), &mut nodes);
    let m = vectors::numbers(vectors::word(line, 3), &mut rules);
    let k = vectors::unhex(vectors::word(line, 4), &mut store);
    let tables = Tables {
        nodes: &nodes[..n],
        rules: &rules[..m],
        store: &store[..k],
    };
    run_print(style, tables, room, out);
}

// d ROOM N, c ROOM N KIND LENGTH, m ROOM N, s ROOM N: tables that are made here, over a store of a's
fn run_made(style: Style, line: &[u8], op: u8, room: usize, out: &mut [u8]) {
    let store = [97u8; 65537];
    let n = vectors::number(vectors::word(line, 2)) as usize;
    let kind = vectors::small(vectors::number(vectors::word(line, 3)));
    let length = vectors::small(vectors::number(vectors::word(line, 4)));
    match op {
        b'd' => run_deep(style, n, room, &store[..65536], out),
        b'c' => run_chain(style, n, kind, length, room, &store[..65536], out),
        b'm' => run_many(style, n, room, &store[..65536], out),
        b's' => {
            if let Some(store) = store.get(..n) {
                let tables = Tables {
                    nodes: &[],
                    rules: &[],
                    store,
                };
                run_print(style, tables, room, out);
            }
        }
        _ => {}
    }
}

fn style_of(letter: u8) -> Style {
    if letter.is_ascii_uppercase() {
        Style::Short
    } else {
        Style::Full
    }
}

fn run_line(line: &[u8]) {
    let mut out = [170u8; 16384];
    let room = vectors::number(vectors::word(line, 1)) as usize;
    vectors::write(line);
    let Some(letter) = vectors::word(line, 0).first() else {
        return;
    };
    let style = style_of(*letter);
    match letter.to_ascii_lowercase() {
        b'p' => run_tables(style, line, room, &mut out),
        form => run_made(style, line, form, room, &mut out),
    }
}

fn main() {
    vectors::run_lines(&mut [0u8; 131072], run_line);
}
