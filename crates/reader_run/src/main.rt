// Reads the texts of its standard input. A line names the level (t or p; T or P by the second edition), how many
// numbers of the nodes' and the rules' buffers and how many bytes of the store are lent, and the text, in pieces: how
// many times, and what in hex. It is written again with what came of it: number, place, the nodes,
// rules and store bytes used, how many numbers or bytes of each whole buffer still stand at what was
// there before, then what was used of each (of the longer ones a sum).
#![tactic(auto)]

use lending::{Room, Tables};
use structure::{Edition, Level};

fn write_numbers(s: &[u32]) {
    if 300 < s.len() {
        vectors::write_small(vectors::numbers_sum(s));
        return;
    }
    for v in s {
        vectors::write_small(*v);
    }
}

fn write_bytes(s: &[u8]) {
    if 300 < s.len() {
        vectors::write_small(vectors::bytes_sum(s));
        return;
    }
    vectors::write_hex(s);
}

// Number, place and counts; what stands behind what was used; what was used.
fn answer(told: &[u64; 5], whole: Tables) {
    vectors::write_numbers(told);
    let Some((used, left)) = lending::parts(told, whole) else {
        return;
    };
    vectors::write_number(vectors::numbers_alone(left.nodes, 0));
    vectors::write_number(vectors::numbers_alone(left.rules, 0));
    vectors::write_number(vectors::bytes_alone(left.store, 0));
    write_numbers(used.nodes);
    write_numbers(used.rules);
    write_bytes(used.store);
}

fn level_of(b: u8) -> Level {
    match b {
        b'p' | b'P' => Level::Plain,
        _ => Level::Tagged,
    }
}

fn edition_of(b: u8) -> Edition {
    match b {
        b'T' | b'P' => Edition::Second,
        _ => Edition::First,
    }
}

fn run_line(line: &[u8]) {
    let mut text = [0u8; 65600];
    let mut nodes = [2863311530u32; 28686];
    let mut rules = [2863311530u32; 6156];
    let mut store = [170u8; 65600];
    let room = Room {
        nodes: vectors::number(vectors::word(line, 1)) as usize,
        rules: vectors::number(vectors::word(line, 2)) as usize,
        store: vectors::number(vectors::word(line, 3)) as usize,
    };
    vectors::write(line);
    let Some(letter) = vectors::word(line, 0).first() else {
        return;
    };
    let long = vectors::pieces(line, 4, &mut text);
    let told = lending::read_within(
        &text[..long],
        edition_of(*letter),
        level_of(*letter),
        room,
        &mut nodes,
        &mut rules,
        &mut store,
    );
    let whole = Tables {
        nodes: &nodes,
        rules: &rules,
        store: &store,
    };
    answer(&told, whole);
    vectors::write(b"\n");
}

fn main() {
    vectors::run_lines(&mut io::large_buffer(), run_line);
}
