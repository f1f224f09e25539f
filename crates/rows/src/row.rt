// The line of a camera line's answer: room for it, its bytes, and the lines of many records.
#![tactic(auto, unfolding(text::specs::Splice::spent, crate::specs::Rows::length_word, crate::specs::Rows::run_line, crate::specs::Rows::row_line, crate::specs::Rows::row_refused))]

ghost use Rattle.std.specs.Prelude.{◌≡◌, ◌+◌, ◌*◌, ◌≤◌, ◌<◌, length, drop};
ghost use Rattle.text.specs.Splice.{Room, Wrote, spent};
ghost use Rattle.matcher.specs.Lines.{row_size};
ghost use Rattle.rows.specs.Rows.{length_word, run_line, row_line, row_refused, Small, longest_line, row_from, record_lines, records_refused};

use crate::Rows;
use crate::line::{put_line, spend_line};
use replies::Row;
use text::inner::digits::{put_number, spend_number};
use text::inner::splice::{put, put_byte, spend};

// What is left after an answer's line.
pub fn spend_row(left: usize, row: Row) -> usize
    ensures { result ≡ spent left (row_line row) }
{
    if row.number != 0 {
        return spend_line(left, row.number, row.place);
    }
    if row.matched == 0 {
        return spend_number(spend(left, 6), row.steps);
    }
    spend_number(spend_number(spend(left, 2), row.length), row.steps)
}

fn put_length(matched: u64, length: u64, out: &mut [u8], at: usize) -> usize
    requires { Room out.old at (length_word matched length) }
    ensures { Wrote out.old at (length_word matched length) out.new result }
{
    if matched == 0 {
        return put(b"none", out, at);
    }
    put_number(length, out, at)
}

fn put_run(matched: u64, length: u64, steps: u64, out: &mut [u8], at: usize) -> usize
    requires { Room out.old at (run_line matched length steps) }
    ensures { Wrote out.old at (run_line matched length steps) out.new result }
{
    let a = put_length(matched, length, out, at);
    let b = put_byte(b' ', out, a);
    let c = put_number(steps, out, b);
    put_byte(b'\n', out, c)
}

pub fn put_row(row: Row, out: &mut [u8], at: usize) -> usize
    requires { Room out.old at (row_line row) }
    ensures { Wrote out.old at (row_line row) out.new result }
{
    if row.number == 0 {
        return put_run(row.matched, row.length, row.steps, out, at);
    }
    put_line(row.number, row.place, out, at)
}

// 1 for a refusal.
fn count_refused(row: Row) -> usize
    ensures { result ≡ row_refused row }
{
    usize::from(row.number != 0)
}

// The record at an index.
fn row_at(records: &[u64], i: usize) -> Row
    requires { row_size * i + row_size ≤ length records.now }
    ensures value { result ≡ row_from (drop (row_size * i) records.now) }
    ensures small { Small result }
{
    let at = 5 * i;
    Row {
        number: records[at],
        place: records[at + 1],
        matched: records[at + 2],
        length: records[at + 3],
        steps: records[at + 4],
    }
}

// Writes the lines of the first k records to an output's front.
pub fn put_rows(records: &[u64], k: usize, out: &mut [u8]) -> Rows
    requires k_in_bounds { row_size * k ≤ length records.now }
    requires k_in_bounds_2 { longest_line * k ≤ length out.old }
    ensures wrote { Wrote out.old 0 (record_lines k records.now) out.new result.size }
    ensures refused_value { result.refused ≡ records_refused k records.now }
    ensures size_bound { result.size ≤ longest_line * k }
{
    let mut at = 0;
    let mut refused = 0;
    for i in 0..k {
        let row = row_at(records, i);
        at = put_row(row, out, at);
        refused += count_refused(row);
    }
    Rows { size: at, refused }
}
