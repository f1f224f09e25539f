// Runs the entry points of `literal` on the vectors of its standard input, and writes each with its answer.
//
// A line is an operation, a number and bytes. Behind a small letter the bytes are the rest of the line as
// it stands, behind a capital they are in hex.
#![tactic(auto)]

use literal::{FormatError, Quote, UnescapeError};

fn write_place(what: &[u8], place: usize) {
    vectors::write(what);
    vectors::write_number(place);
}

// Whether what is left of the output stands at 170, as it did before.
fn write_kept(left: &[u8]) {
    if left.iter().all(|b| *b == 170) {
        vectors::write(b" kept");
    } else {
        vectors::write(b" spoiled");
    }
}

// a PLACE BYTES
fn run_escape(bytes: &[u8], at: usize) {
    let escape = literal::escape_at(bytes, at);
    match escape {
        Some((c, n)) => {
            write_place(b" means", c as usize);
            write_place(b" length", n);
        }
        None => vectors::write(b" plain"),
    }
}

// u ROOM BYTES, into the front of a buffer
fn run_unescape(bytes: &[u8], room: usize, out: &mut [u8]) {
    let Some(lent) = out.get_mut(..room) else {
        return;
    };
    let unescaped = literal::unescape(bytes, lent);
    match unescaped {
        Ok(n) => {
            write_place(b" wrote", n);
            if let Some((wrote, left)) = out.split_at_checked(n) {
                vectors::write_hex(wrote);
                write_kept(left);
            }
        }
        Err(UnescapeError::NotUtf8(i)) => {
            write_place(b" not utf8 at", i);
            write_kept(out);
        }
        Err(UnescapeError::NoEscape(i)) => {
            write_place(b" no escape at", i);
            write_kept(out);
        }
        Err(UnescapeError::NotScalar(i)) => {
            write_place(b" not scalar at", i);
            write_kept(out);
        }
        Err(UnescapeError::NoRoom) => {
            vectors::write(b" no room");
            write_kept(out);
        }
    }
}

// q ROOM BYTES between double quotes, s ROOM BYTES between single ones, into the front of a buffer
fn run_format(bytes: &[u8], quote: Quote, room: usize, out: &mut [u8]) {
    let Some(lent) = out.get_mut(..room) else {
        return;
    };
    let formatted = literal::fmt_literal(bytes, quote, lent);
    match formatted {
        Ok(n) => {
            write_place(b" wrote", n);
            if let Some((wrote, left)) = out.split_at_checked(n) {
                vectors::write(b" ");
                vectors::write(wrote);
                write_kept(left);
            }
        }
        Err(FormatError::NotUtf8(i)) => {
            write_place(b" not utf8 at", i);
            write_kept(out);
        }
        Err(FormatError::NoRoom) => {
            vectors::write(b" no room");
            write_kept(out);
        }
    }
}

fn run(letter: u8, number: usize, bytes: &[u8]) {
    let mut out = [170u8; 768];
    match letter.to_ascii_lowercase() {
        b'a' => run_escape(bytes, number),
        b'u' => run_unescape(bytes, number, &mut out),
        b'q' => run_format(bytes, Quote::Double, number, &mut out),
        b's' => run_format(bytes, Quote::Single, number, &mut out),
        _ => {}
    }
}

fn run_line(line: &[u8]) {
    vectors::run_operation(line, run);
    vectors::write(b"\n");
}

fn main() {
    vectors::run_lines(&mut io::large_buffer(), run_line);
}
