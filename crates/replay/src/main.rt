// Asks the questions of its standard input again, whose answers are stored: they come from a comparison
// with the Rust. Each line is written again with ` = ` and the answer. The buffers lent stand at a number
// that no answer should leave elsewhere: where anything behind what was used has changed, or anything at
// all by a refusal, the line ends in CHANGED. At the end stands how many answers were given.
//
// - t LEVEL HEX NODES RULES STORE: a text is read, at level 1 tagged, 0 plain; the rooms in numbers and
//   bytes. Number, place, the nodes, rules and store bytes used; the nodes, the rules, the store.
// - e LEVEL HEX NODES RULES STORE: the same by the second edition; every other reading is by the first.
// - x LEVEL COUNT:HEX,.. NODES RULES STORE: as t, of a long text, made of pieces. A sum in place of each.
// - k PLACE HEX, l PLACE COUNT:HEX,..: the lister. Number, place, kind, start, end.
// - p ROOM NODES RULES STORE, s ROOM NODES RULES STORE: tables are printed, in full and short. Number,
//   place, bytes used; the text.
// - m ALLOWANCE START HEX NODES RULES STORE: a rule is run over a line. Number, place, 1 for a match, its
//   length, steps.
// - r ALLOWANCE START HEX NODES RULES STORE ROOM: a rule is run over the lines of a text; the room in
//   numbers. Number, place, lines, where the next one begins; the records.
// - f CALLS..: tokens as they arrive, in the words that crates/calls has for them. Number, place and records of
//   each call; the list's records.
//
// The input is read in blocks of 65,536 bytes, and no line lies in two of them: empty lines fill a block up.
#![tactic(auto)]

ghost use Rattle.std.specs.Prelude.{◌≤◌, ◌+◌, length};
ghost use Rattle.io.specs.Counts.{IsPrefixLen};

use forms::Style;
use lending::{Room, Tables};
use structure::{Edition, Level};
use token::Listed;

fn write_bytes(s: &[u8]) {
    if s.is_empty() {
        vectors::write(b" -");
    } else {
        vectors::write_hex(s);
    }
}

fn write_changed(met: bool) {
    if met {
        vectors::write(b" CHANGED");
    }
}

fn write_tables(long: bool, tables: Tables) {
    if long {
        vectors::write_small(vectors::numbers_sum(tables.nodes));
        vectors::write_small(vectors::numbers_sum(tables.rules));
        vectors::write_small(vectors::bytes_sum(tables.store));
    } else {
        vectors::write_list(tables.nodes);
        vectors::write_list(tables.rules);
        write_bytes(tables.store);
    }
}

// For each buffer, whether what is left of it has changed.
fn write_changes(left: Tables) {
    write_changed(vectors::numbers_alone(left.nodes, 0) != left.nodes.len());
    write_changed(vectors::numbers_alone(left.rules, 0) != left.rules.len());
    write_changed(vectors::bytes_alone(left.store, 0) != left.store.len());
}

fn answer_text(told: &[u64; 5], long: bool, whole: Tables) {
    vectors::write_numbers(told);
    if told[0] != 0 {
        write_changes(whole);
        return;
    }
    let Some((used, left)) = lending::parts(told, whole) else {
        return;
    };
    write_tables(long, used);
    write_changes(left);
}

fn run_next(text: &[u8], at: usize) {
    let listed = token::next_token(text, at);
    match listed {
        Listed::TooLong => vectors::write_numbers(&[1, 0, 0, 0, 0]),
        Listed::NotUtf8(place) => vectors::write_numbers(&[2, place as u64, 0, 0, 0]),
        Listed::Next { kind, start, end } => {
            vectors::write_numbers(&[0, 0, u64::from(kind), start as u64, end as u64])
        }
        Listed::End(n) => vectors::write_numbers(&[0, 0, 0, n as u64, n as u64]),
        Listed::NoToken(place) => vectors::write_numbers(&[3, place as u64, 0, 0, 0]),
    }
}

fn answer_printed(told: &[u64; 3], out: &[u8]) {
    vectors::write_numbers(told);
    let Some((text, left)) = out.split_at_checked(told[2] as usize) else {
        return;
    };
    if told[0] == 0 {
        write_bytes(text);
    }
    write_changed(vectors::bytes_alone(left, 0) != left.len());
}

fn text_of(s: &[u8], long: bool, out: &mut [u8]) -> usize
    ensures { IsPrefixLen result out.new }
{
    if long {
        vectors::parts(s, out)
    } else {
        vectors::unhex(s, out)
    }
}

fn level_of(n: u64) -> Level {
    if n == 0 { Level::Plain } else { Level::Tagged }
}

fn run_text(line: &[u8], edition: Edition, level: Level, long: bool) {
    let mut text = [0u8; 70100];
    let mut nodes = [2863311530u32; 28720];
    let mut rules = [2863311530u32; 6200];
    let mut store = [170u8; 65600];
    let used = text_of(vectors::word(line, 2), long, &mut text);
    let room = Room {
        nodes: vectors::number(vectors::word(line, 3)) as usize,
        rules: vectors::number(vectors::word(line, 4)) as usize,
        store: vectors::number(vectors::word(line, 5)) as usize,
    };
    let told = lending::read_within(
        &text[..used],
        edition,
        level,
        room,
        &mut nodes,
        &mut rules,
        &mut store,
    );
    let whole = Tables {
        nodes: &nodes,
        rules: &rules,
        store: &store,
    };
    answer_text(&told, long, whole);
}

fn run_lister(line: &[u8], at: usize, long: bool) {
    let mut text = [0u8; 70100];
    let used = text_of(vectors::word(line, 2), long, &mut text);
    run_next(&text[..used], at);
}

fn run_tables(style: Style, line: &[u8], room: usize) {
    let mut nodes = [0u32; 600];
    let mut rules = [0u32; 600];
    let mut store = [0u8; 600];
    let mut out = [170u8; 1200];
    let n = vectors::numbers(vectors::word(line, 2), &mut nodes);
    let m = vectors::numbers(vectors::word(line, 3), &mut rules);
    let k = vectors::unhex(vectors::word(line, 4), &mut store);
    let tables = Tables {
        nodes: &nodes[..n],
        rules: &rules[..m],
        store: &store[..k],
    };
    let told = lending::print_within(style, tables, room, &mut out);
    answer_printed(&told, &out);
}

fn write_records(records: &[u64], used: usize) {
    let Some((written, left)) = records.split_at_checked(used) else {
        return;
    };
    vectors::write(b" ");
    if written.is_empty() {
        vectors::write(b"-");
    }
    for v in written {
        io::print_decimal(1, *v);
        vectors::write(b",");
    }
    write_changed(left.iter().any(|v| *v != 2863311530));
}

fn run_rule(line: &[u8], allowance: u64, many: bool) {
    let mut text = [0u8; 600];
    let mut nodes = [0u32; 600];
    let mut rules = [0u32; 600];
    let mut store = [0u8; 600];
    let start = vectors::number(vectors::word(line, 2)) as usize;
    let room = vectors::number(vectors::word(line, 7)) as usize;
    let t = vectors::unhex(vectors::word(line, 3), &mut text);
    let n = vectors::numbers(vectors::word(line, 4), &mut nodes);
    let m = vectors::numbers(vectors::word(line, 5), &mut rules);
    let k = vectors::unhex(vectors::word(line, 6), &mut store);
    let nodes = &nodes[..n];
    let rules = &rules[..m];
    let store = &store[..k];
    let text = &text[..t];
    if !many {
        let row = replies::row_of(matcher::match_line(nodes, rules, store, start, text, allowance));
        vectors::write_numbers(&[row.number, row.place, row.matched, row.length, row.steps]);
        return;
    }
    let mut records = [2863311530u64; 120];
    let Some(lent) = records.get_mut(..room) else {
        return;
    };
    let lines = matcher::match_lines(nodes, rules, store, start, text, allowance, lent);
    let tally = replies::tally_of(lines);
    vectors::write_numbers(&[tally.number, tally.place, tally.lines, tally.next]);
    if tally.lines <= 24 {
        write_records(&records, 5 * tally.lines as usize);
    }
}

fn run_line(line: &[u8]) {
    let op = vectors::field(line, 0);
    let at = op.start;
    let n = vectors::number(vectors::word(line, 1));
    vectors::write(line);
    vectors::write(b" =");
    if line.len() <= at {
        return;
    }
    match line[at] {
        b't' => run_text(line, Edition::First, level_of(n), false),
        b'e' => run_text(line, Edition::Second, level_of(n), false),
        b'x' => run_text(line, Edition::First, level_of(n), true),
        b'k' => run_lister(line, n as usize, false),
        b'l' => run_lister(line, n as usize, true),
        b'p' => run_tables(Style::Full, line, n as usize),
        b's' => run_tables(Style::Short, line, n as usize),
        b'm' => run_rule(line, n, false),
        b'r' => run_rule(line, n, true),
        b'f' => calls::run(line, op.end),
        _ => {}
    }
    vectors::write(b"\n");
}

// Asks what a line asks, and counts it. An empty line asks nothing.
fn ask(line: &[u8]) -> u64
    ensures { result ≤ 1 }
{
    if line.is_empty() {
        return 0;
    }
    run_line(line);
    1
}

fn run_block(block: &[u8]) -> u64
    ensures { result ≤ 1 + length block.now }
{
    let mut answers = 0;
    // the place bounds the answers; over a `split`, how many pieces it gives would have to be shown first
    let mut at = 0;
    while at < block.len() {
        let end = vectors::find(block, at, b'\n', true);
        answers += ask(&block[at..end]);
        at = end + 1;
    }
    answers
}

fn main() {
    let mut input = io::large_buffer();
    let mut answers = 0;
    for _block in 0..1024u64 {
        let n = io::read_full(0, &mut input);
        if n == 0 {
            break;
        }
        answers += run_block(&input[..n]);
    }
    io::print_decimal(1, answers);
    vectors::write(b" answers\n");
}
