// Runs the check of whole tables on the vectors of its standard input: each way in which a node or a
// rule can be false. It writes each vector with the answer's number and place.
#![tactic(auto)]

use table::TableError;
use table::inner::layout::{NODE_SIZE, RULE_SIZE};

// The numbers of tables with one node, or one rule, too many.
const CHAIN: usize = NODE_SIZE * 4097;

const NAMES: usize = NODE_SIZE * 1025;

const NAMED: usize = RULE_SIZE * 1025;

// All nineteen kinds, in two rules.
const NODES: [u32; NODE_SIZE * 25] = [
    1, 0, 0, 6, 2, 0, 0, 2, 0, 0, 7, 0, 0, 0, 9, 0, 0, 0, 1, 0, 0, 3, 0, 0, 122, 97, 0, 0, 9, 0, 0,
    2, 3, 0, 0, 4, 0, 0, 4, 1, 0, 0, 9, 0, 0, 4, 5, 0, 0, 5, 0, 0, 4294967295, 0, 7, 0, 9, 0, 0, 6,
    7, 0, 0, 18, 0, 0, 5, 1, 0, 0, 8, 0, 0, 8, 9, 0, 0, 6, 0, 0, 10, 9, 9, 0, 7, 0, 0, 11, 0, 0, 0,
    10, 0, 0, 12, 0, 0, 0, 11, 0, 0, 13, 0, 0, 0, 12, 0, 0, 14, 0, 0, 0, 13, 0, 0, 15, 0, 0, 0, 14,
    0, 0, 16, 0, 0, 0, 15, 0, 0, 17, 0, 0, 0, 16, 0, 0, 18, 3, 2, 0, 17, 0, 0, 19, 0, 0, 0, 19, 0,
    0, 20, 8, 5, 0, 4, 0, 0, 1, 1, 0, 0, 4, 0, 0, 2, 4, 0, 0, 8, 0, 0, 22, 23, 0, 0,
];

const RULES: [u32; 12] = [0, 1, 0, 21, 0, 1, 1, 1, 4, 24, 0, 1];

// The letters r s x Y a p, an e with an acute accent, then PUSHt9.
const STORE: [u8; 14] = [
    114, 115, 120, 89, 97, 112, 195, 169, 80, 85, 83, 72, 116, 57,
];

fn tell(n: usize, place: usize) {
    vectors::write_number(n);
    vectors::write_number(place);
}

fn answer(nodes: &[u32], rules: &[u32], store: &[u8]) {
    let r = table::check_tables(nodes, rules, store);
    match r {
        Ok(()) => tell(0, 0),
        Err(TableError::Shape) => tell(20, 0),
        Err(TableError::Node(i)) => tell(21, i),
        Err(TableError::Rule(k)) => tell(22, k),
    }
}

// n NODE WHICH VALUE: the tables with one number of a node changed
fn node(i: usize, j: usize, value: u32) {
    if i < 25 && j < NODE_SIZE {
        let mut nodes = NODES;
        nodes[NODE_SIZE * i + j] = value;
        answer(&nodes, &RULES, &STORE);
    }
}

// r RULE WHICH VALUE: the tables with one number of a rule changed
// (beside `node`: one function for both would be longer, since each changes another of the three tables)
fn rule(k: usize, j: usize, value: u32) {
    if k < 2 && j < RULE_SIZE {
        let mut rules = RULES;
        rules[RULE_SIZE * k + j] = value;
        answer(&NODES, &rules, &STORE);
    }
}

// t N M K: the first n numbers of the nodes, m of the rules, and k bytes of the store
fn cut(n: usize, m: usize, k: usize) {
    if let Some(nodes) = NODES.get(..n)
        && let Some(rules) = RULES.get(..m)
        && let Some(store) = STORE.get(..k)
    {
        answer(nodes, rules, store);
    }
}

// A name, and Opt over Opt.
fn chain() -> [u32; CHAIN] {
    let mut nodes = [0; CHAIN];
    nodes[0] = 4;
    nodes[4] = 1;
    for i in 1..4097 {
        nodes[NODE_SIZE * i] = 10;
        nodes[NODE_SIZE * i + 3] = i as u32 - 1;
    }
    nodes
}

// d N: as many nodes, up to 4,097, in one rule
fn deep(n: u32) {
    let nodes = chain();
    if (1..=4097).contains(&n) {
        answer(
            &nodes[..NODE_SIZE * n as usize],
            &[0, 1, 0, n - 1, 0, 0],
            b"a",
        );
    }
}

// m M: as many rules, up to 1,025, of one name each
fn many(m: usize) {
    let mut nodes = [0u32; NAMES];
    let mut rules = [0u32; NAMED];
    for i in 0..1025 {
        nodes[NODE_SIZE * i] = 4;
        nodes[NODE_SIZE * i + 4] = 1;
        rules[RULE_SIZE * i + 1] = 1;
        rules[RULE_SIZE * i + 3] = i as u32;
    }
    if m <= 1025 {
        answer(&nodes[..NODE_SIZE * m], &rules[..RULE_SIZE * m], b"a");
    }
}

// s K: a store of as many bytes, up to 65,537
fn long(k: usize) {
    let store = [0u8; 65537];
    if let Some(store) = store.get(..k) {
        answer(&[], &[], store);
    }
}

fn small(v: u64) -> u32 {
    u32::try_from(v).unwrap_or(0)
}

fn run_line(line: &[u8]) {
    let x = small(vectors::number(vectors::word(line, 1)));
    let y = small(vectors::number(vectors::word(line, 2)));
    let z = small(vectors::number(vectors::word(line, 3)));
    let a = x as usize;
    let b = y as usize;
    vectors::write(line);
    let Some(letter) = vectors::word(line, 0).first() else {
        return;
    };
    match letter {
        b'n' => node(a, b, z),
        b'r' => rule(a, b, z),
        b't' => cut(a, b, z as usize),
        b'd' => deep(x),
        b'm' => many(a),
        b's' => long(a),
        _ => {}
    }
    vectors::write(b"\n");
}

fn main() {
    vectors::run_lines(&mut io::large_buffer(), run_line);
}
