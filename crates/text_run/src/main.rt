// Runs the entry points of `text` on the vectors of its standard input, and writes each with its answer.
#![tactic(auto)]

use text::{DecimalError, EncodeError, Word};

// c BYTES PLACE
fn run_char(bytes: &[u8], at: usize) {
    let sequence = text::char_at(bytes, at);
    match sequence {
        Some((c, n)) => {
            vectors::write(b" is");
            vectors::write_small(c);
            vectors::write_number(n);
        }
        None => vectors::write(b" broken"),
    }
}

// b BYTES
fn run_bad(bytes: &[u8]) {
    let check = text::first_bad(bytes);
    match check {
        None => vectors::write(b" good"),
        Some(i) => {
            vectors::write(b" bad");
            vectors::write_number(i);
        }
    }
}

// e ROOM NUMBER, into bytes that stand at 170: the ones behind the room stay
fn run_encode(c: u32, room: usize, out: &mut [u8]) {
    let Some(lent) = out.get_mut(..room) else {
        return;
    };
    let encoded = text::encode(c, lent);
    match encoded {
        Ok(n) => {
            vectors::write(b" wrote");
            vectors::write_number(n);
        }
        Err(EncodeError::NoRoom) => vectors::write(b" no room"),
        Err(EncodeError::NotScalar) => vectors::write(b" not scalar"),
    }
    vectors::write_hex(out);
}

// k: the class of each byte
fn run_classes() {
    vectors::write(b" ");
    for b in 0..=255u8 {
        io::print_decimal(1, u64::from(text::class_of(b)));
    }
}

// w BYTES
fn run_word(bytes: &[u8]) {
    let word = text::word_of(bytes);
    match word {
        Word::Name => vectors::write(b" name"),
        Word::Push => vectors::write(b" push"),
        Word::Neither => vectors::write(b" neither"),
    }
}

// d BYTES LIMIT
fn run_decimal(bytes: &[u8], limit: u32) {
    let decimal = text::decimal_of(bytes, limit);
    match decimal {
        Ok(n) => {
            vectors::write(b" is");
            vectors::write_small(n);
        }
        Err(DecimalError::Over) => vectors::write(b" over"),
        Err(DecimalError::NotDigits) => vectors::write(b" not digits"),
    }
}

// n ROOM NUMBER, into bytes that stand at 170
fn run_write(n: u32, room: usize, out: &mut [u8]) {
    let Some(lent) = out.get_mut(..room) else {
        return;
    };
    let put = text::write_decimal(n, lent);
    match put {
        Some(k) => {
            vectors::write(b" wrote");
            vectors::write_number(k);
        }
        None => vectors::write(b" no room"),
    }
    vectors::write_hex(out);
}

// h: the value of each byte that is a hex digit
fn run_hex() {
    for b in 0..=255u8 {
        let value = text::hex_of(b);
        if let Some(v) = value {
            vectors::write_number(usize::from(b));
            vectors::write_number(v as usize);
        }
    }
}

// 9 LIMIT: sixty thousand nines
fn run_nines(limit: u32) {
    let nines = [b'9'; 60000];
    run_decimal(&nines, limit);
}

fn run_line(line: &[u8]) {
    let mut bytes = [0u8; 512];
    let mut out = [170u8; 12];
    let op = vectors::word(line, 0);
    let first = vectors::word(line, 1);
    let n = vectors::unhex(first, &mut bytes);
    let bytes = &bytes[..n];
    let size = vectors::number(first);
    let value = vectors::number(vectors::word(line, 2));
    vectors::write(line);
    let Some(letter) = op.first() else {
        return;
    };
    match letter {
        b'c' => run_char(bytes, value as usize),
        b'b' => run_bad(bytes),
        b'e' => run_encode(vectors::small(value), size as usize, &mut out),
        b'k' => run_classes(),
        b'w' => run_word(bytes),
        b'd' => run_decimal(bytes, vectors::small(value)),
        b'n' => run_write(vectors::small(value), size as usize, &mut out),
        b'h' => run_hex(),
        b'9' => run_nines(vectors::small(size)),
        _ => {}
    }
    vectors::write(b"\n");
}

fn main() {
    vectors::run_lines(&mut io::large_buffer(), run_line);
}
