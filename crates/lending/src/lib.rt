// What the programs that run vectors share: a text is read and tables are printed with a part of each buffer
// lent, and what is answered is told in numbers.
#![tactic(auto)]

use forms::Style;
use numbers::inner::{printed_numbers, read_numbers};
use structure::{Edition, Level};
use table::inner::layout::{NODE_SIZE, RULE_SIZE};

// Tables to read: numbers, and the bytes of their texts.
#[derive(Clone, Copy)]
pub struct Tables<'a> {
    pub nodes: &'a [u32],
    pub rules: &'a [u32],
    pub store: &'a [u8],
}

// How many numbers and bytes of the tables' buffers are lent, at most all of them.
#[derive(Clone, Copy)]
pub struct Room {
    pub nodes: usize,
    pub rules: usize,
    pub store: usize,
}

// Number, place, and the nodes, rules and store bytes used, in the room lent.
pub fn read_within(
    text: &[u8],
    edition: Edition,
    level: Level,
    room: Room,
    nodes: &mut [u32],
    rules: &mut [u32],
    store: &mut [u8],
) -> [u64; 5] {
    let a = room.nodes.min(nodes.len());
    let b = room.rules.min(rules.len());
    let c = room.store.min(store.len());
    let reading = reader::read(
        text,
        edition,
        level,
        &mut nodes[..a],
        &mut rules[..b],
        &mut store[..c],
    );
    read_numbers(reading)
}

// Number, place and bytes used, with so many bytes lent.
pub fn print_within(style: Style, tables: Tables, room: usize, out: &mut [u8]) -> [u64; 3] {
    let a = room.min(out.len());
    let printed = printer::print(
        style,
        tables.nodes,
        tables.rules,
        tables.store,
        &mut out[..a],
    );
    printed_numbers(printed)
}

// The parts of the tables' buffers that a reading says it used, and the parts behind them. No reading uses more than
// 5,000 nodes or rules.
pub fn parts<'a>(told: &[u64; 5], whole: Tables<'a>) -> Option<(Tables<'a>, Tables<'a>)> {
    let [_, _, n, m, k] = *told;
    if 5000 < n || 5000 < m {
        return None;
    }
    let nodes = whole.nodes.split_at_checked(NODE_SIZE * n as usize)?;
    let rules = whole.rules.split_at_checked(RULE_SIZE * m as usize)?;
    let store = whole.store.split_at_checked(k as usize)?;
    let used = Tables {
        nodes: nodes.0,
        rules: rules.0,
        store: store.0,
    };
    let left = Tables {
        nodes: nodes.1,
        rules: rules.1,
        store: store.1,
    };
    Some((used, left))
}
