// Runs what programs write on the vectors of its standard input. A line names what is run, how many bytes of
// the output are lent, and
//     d   a text in pieces: how many times, and what in hex; `show::desk` is run on it in the full style
//     s   the same, in the short style
//     r   a number and a place; `rows::refusal` is run on them
//     l   an answer's five numbers; `rows::answer_line` is run on them
//     w   a text in pieces; `rows::whole_lines` is run on it
//     b   the steps allowed, a rule's name, a layout in hex, and camera lines in pieces; `show::read_layout` and
//         then `rows::answer_block` are run on them
// It is written again with what came of it: `text`, `line`, `refused` or `no room`; of a block `lines`, the
// place of the next line and the refused lines; of a layout `no rule`, or `not read` with a number and a place.
// Then the bytes put, and how many bytes of the whole output behind them still stand at what was there before;
// then of more than 300 bytes a sum, and of others, on lines of their own, all.
#![tactic(auto)]

use forms::Style;
use replies::Row;
use rows::Block;
use show::{Layout, Shown};

fn answer(word: &[u8], n: usize, out: &[u8]) {
    vectors::write(word);
    vectors::write_number(n);
    vectors::write_number(vectors::bytes_alone(out, n));
    let Some(put) = out.get(..n) else {
        return;
    };
    if 300 < n {
        vectors::write_small(vectors::bytes_sum(put));
        vectors::write(b"\n");
    } else {
        vectors::write(b"\n");
        vectors::write(put);
    }
}

fn run_desk(style: Style, text: &[u8], room: usize, out: &mut [u8]) {
    let Some(lent) = out.get_mut(..room) else {
        return;
    };
    let shown = show::desk(style, text, lent);
    match shown {
        Shown::Text(n) => answer(b" text", n, out),
        Shown::Refused(n) => answer(b" refused", n, out),
        Shown::NoRoom => answer(b" no room", 0, out),
    }
}

fn run_refusal(number: u64, place: u64, room: usize, out: &mut [u8]) {
    let Some(lent) = out.get_mut(..room) else {
        return;
    };
    let line = rows::refusal(number, place, lent);
    match line {
        Some(n) => answer(b" refused", n, out),
        None => answer(b" no room", 0, out),
    }
}

fn run_answer(row: Row, room: usize, out: &mut [u8]) {
    let Some(lent) = out.get_mut(..room) else {
        return;
    };
    let line = rows::answer_line(row, lent);
    match line {
        Some(n) => answer(b" line", n, out),
        None => answer(b" no room", 0, out),
    }
}

fn answer_two(word: &[u8], a: u64, b: u64, n: usize, out: &[u8]) {
    vectors::write(word);
    vectors::write_numbers(&[a, b]);
    answer(b"", n, out);
}

// A layout's tables, and the index of the rule that is run.
#[derive(Clone, Copy)]
struct Rule<'a> {
    nodes: &'a [u32],
    rules: &'a [u32],
    store: &'a [u8],
    start: usize,
}

fn run_block(rule: Rule, camera: &[u8], steps: u64, room: usize, out: &mut [u8]) {
    let Some(lent) = out.get_mut(..room) else {
        return;
    };
    let block = rows::answer_block(
        rule.nodes, rule.rules, rule.store, rule.start, camera, steps, lent,
    );
    match block {
        Block::Lines {
            size,
            next,
            refused,
        } => answer_two(b" lines", next as u64, refused as u64, size, out),
        Block::Refused { number, place } => answer_two(b" refused", number, place, 0, out),
        Block::NoRoom => answer(b" no room", 0, out),
    }
}

fn run_layout(text: &[u8], name: &[u8], camera: &[u8], steps: u64, room: usize, out: &mut [u8]) {
    let mut nodes = [0u32; 700];
    let mut rules = [0u32; 60];
    let mut store = [0u8; 400];
    let layout = show::read_layout(text, name, &mut nodes, &mut rules, &mut store);
    match layout {
        Layout::Tables {
            nodes: a,
            rules: b,
            store: c,
            start,
        } => {
            let rule = Rule {
                nodes: &nodes[..a],
                rules: &rules[..b],
                store: &store[..c],
                start,
            };
            run_block(rule, camera, steps, room, out);
        }
        Layout::Refused { number, place } => answer_two(b" not read", number, place, 0, out),
        Layout::NoRule => answer(b" no rule", 0, out),
    }
}

fn number(line: &[u8], k: usize) -> u64 {
    vectors::number(vectors::word(line, k))
}

fn run_row(line: &[u8], room: usize, out: &mut [u8]) {
    let row = Row {
        number: number(line, 2),
        place: number(line, 3),
        matched: number(line, 4),
        length: number(line, 5),
        steps: number(line, 6),
    };
    run_answer(row, room, out);
}

fn run_whole(line: &[u8]) {
    let mut text = [0u8; 65600];
    let n = vectors::pieces(line, 2, &mut text);
    vectors::write_number(rows::whole_lines(&text[..n]));
    vectors::write(b"\n");
}

fn run_lines(line: &[u8], room: usize, out: &mut [u8]) {
    let mut text = [0u8; 4096];
    let mut camera = [0u8; 65600];
    let n = vectors::unhex(vectors::word(line, 4), &mut text);
    let m = vectors::pieces(line, 5, &mut camera);
    run_layout(
        &text[..n],
        vectors::word(line, 3),
        &camera[..m],
        number(line, 2),
        room,
        out,
    );
}

fn run_text(style: Style, line: &[u8], room: usize, out: &mut [u8]) {
    let mut text = [0u8; 65600];
    let n = vectors::pieces(line, 2, &mut text);
    run_desk(style, &text[..n], room, out);
}

fn run_line(line: &[u8]) {
    let mut out = [170u8; 65600];
    let op = vectors::word(line, 0);
    let room = number(line, 1) as usize;
    vectors::write(line);
    let Some(letter) = op.first() else {
        return;
    };
    match letter {
        b'd' => run_text(Style::Full, line, room, &mut out),
        b's' => run_text(Style::Short, line, room, &mut out),
        b'l' => run_row(line, room, &mut out),
        b'w' => run_whole(line),
        b'b' => run_lines(line, room, &mut out),
        _ => run_refusal(number(line, 2), number(line, 3), room, &mut out),
    }
}

fn main() {
    vectors::run_lines(&mut io::large_buffer(), run_line);
}
