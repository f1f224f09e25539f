// Runs the lister, its cursor and the filling of a table on the vectors of its standard input, and writes
// each with its answer: a token's kind, start and end; 0 and the length twice; or a refusal's number and place.
//
// A line is an operation, a number and bytes. Behind a small letter the bytes are the rest of the line as
// it stands, behind a capital they are in hex.
#![tactic(auto)]

use token::inner::listing::TOKEN_SIZE;
use token::{FillError, Listed};

fn write_token(kind: u8, start: usize, end: usize) {
    vectors::write_number(usize::from(kind));
    vectors::write_number(start);
    vectors::write_number(end);
}

fn write_refused(number: usize, place: usize) {
    vectors::write(b" refused");
    vectors::write_number(number);
    vectors::write(b" at");
    vectors::write_number(place);
}

fn write_listed(listed: Listed) {
    match listed {
        Listed::TooLong => write_refused(1, 0),
        Listed::NotUtf8(place) => write_refused(2, place),
        Listed::Next { kind, start, end } => write_token(kind, start, end),
        Listed::End(n) => write_token(0, n, n),
        Listed::NoToken(place) => write_refused(3, place),
    }
}

// t PLACE BYTES: the next token from a place on
fn run_next(bytes: &[u8], at: usize) {
    let listed = token::next_token(bytes, at);
    write_listed(listed);
}

// l PLACE BYTES: one call after the other, each at the end of the token before
fn run_list(bytes: &[u8], from: usize) {
    let mut at = from;
    loop {
        let listed = token::next_token(bytes, at);
        write_listed(listed);
        let Listed::Next { end, .. } = listed else {
            return;
        };
        at = end;
    }
}

// c PLACE BYTES: the same by a cursor, two calls at a time, up to a second call that gives no token; then
// the cursor's place
fn run_cursor(bytes: &[u8], from: usize) {
    let mut at = from;
    loop {
        let two = cursor::next_two(bytes, at);
        let second = two.second;
        at = two.place;
        write_listed(two.first);
        write_listed(second);
        let Listed::Next { .. } = second else {
            vectors::write(b" then");
            vectors::write_number(at);
            return;
        };
    }
}

// The tokens that the table holds: the numbers behind them stand at 170, as they did before.
fn write_held(tokens: &[u32]) {
    let (tokens, _) = tokens.as_chunks::<TOKEN_SIZE>();
    for [kind, start, end] in tokens {
        if *kind != 170 {
            vectors::write_small(*kind);
        }
        vectors::write_small(*start);
        vectors::write_small(*end);
        if *kind == 170 {
            return;
        }
    }
}

// f BYTES: all tokens into a table
fn run_fill(bytes: &[u8]) {
    if 512 < bytes.len() {
        return;
    }
    let classes = text::inner::classes::classes();
    let mut tokens = [170u32; 1539];
    let filled = token::inner::fill(&classes, bytes, &mut tokens);
    match filled {
        Ok(n) => {
            vectors::write(b" all");
            vectors::write_number(n);
        }
        Err(FillError::NoToken(place)) => write_refused(3, place),
        Err(FillError::Full) => vectors::write(b" full"),
    }
    write_held(&tokens);
}

// R COUNT BYTES: the next token of bytes that are repeated
fn run_repeated(bytes: &[u8], count: usize) {
    let mut long = [0u8; 65537];
    let n = vectors::repeat(bytes, count, &mut long, 0);
    run_next(&long[..n], 0);
}

// N COUNT BYTES: the next token of so many nested comments with bytes behind them
fn run_nested(bytes: &[u8], count: usize) {
    let mut long = [0u8; 65537];
    let opened = vectors::repeat(b"/*", count, &mut long, 0);
    let closed = vectors::repeat(b"*/", count, &mut long, opened);
    let n = vectors::repeat(bytes, 1, &mut long, closed);
    run_next(&long[..n], 0);
}

fn run(letter: u8, number: usize, bytes: &[u8]) {
    match letter {
        b't' | b'T' => run_next(bytes, number),
        b'l' | b'L' => run_list(bytes, number),
        b'c' | b'C' => run_cursor(bytes, number),
        b'f' | b'F' => run_fill(bytes),
        b'R' => run_repeated(bytes, number),
        b'N' => run_nested(bytes, number),
        _ => {}
    }
}

fn run_line(line: &[u8]) {
    if vectors::run_operation(line, run) {
        vectors::write(b"\n");
    }
}

fn main() {
    vectors::run_lines(&mut io::large_buffer(), run_line);
}
