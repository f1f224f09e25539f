// The lines of a text, and their records.
ghost use Rattle.std.specs.Prelude.{◌≡◌, ◌+◌, ◌≤◌, ◌<◌, length, drop};
ghost use Rattle.std.proofs.lemmas.List.Edits.{sets};
ghost use Rattle.table.specs.Record.{nodes_in};
ghost use Rattle.links.specs.Program.{linked_at, Runnable};
ghost use Rattle.matcher.specs.Answers.{line_of};
ghost use Rattle.matcher.specs.Lines.{body_size, line_size, row_size, fields, ran_over, recorded};

use super::visits::run_line;
use crate::Line;
use replies::{Row, RunError, row_of};
use table::limits;

// The numbers in a line's record.
pub const ROW_SIZE: usize = 5;

fn put_row(row: Row, records: &mut [u64], at: usize)
    requires { at + row_size ≤ length records.old }
    ensures { records.new ≡ sets records.old at (fields row) }
{
    records[at] = row.number;
    records[at + 1] = row.place;
    records[at + 2] = row.matched;
    records[at + 3] = row.length;
    records[at + 4] = row.steps;
}

// The line that begins at a place.
fn line_at(text: &[u8], at: usize) -> Line
    requires { at ≤ length text.now }
    ensures { (result.end ≡ at + body_size (drop at text.now)) × (result.next ≡ at + line_size (drop at text.now)) }
{
    let n = text.len();
    for i in at..n {
        let e = i + 1;
        if text[i] == b'\n' {
            return Line { end: i, next: e };
        }
        if text[i] == b'\r' && e < n && text[e] == b'\n' {
            return Line {
                end: i,
                next: e + 1,
            };
        }
    }
    Line { end: n, next: n }
}

// Runs each line from a root, as far as there is room for records.
pub(crate) fn run_lines(
    nodes: &[u32],
    links: &[u16; limits::NODES],
    store: &[u8],
    root: usize,
    allowance: u64,
    text: &[u8],
    records: &mut [u64],
) -> Result<(usize, usize), RunError>
    requires runnable { Runnable nodes.now links.now store.now }
    requires root_bound { root < nodes_in nodes.now }
    ensures value { result ≡ ran_over text.now (length records.old) }
    ensures records_after { records.new ≡ recorded (line_of (linked_at nodes.now links.now) store.now root allowance) text.now records.old }
{
    let m = records.len() / ROW_SIZE;
    let n = text.len();
    let mut at = 0;
    for k in 0..m {
        if n <= at {
            return Ok((k, at));
        }
        let line = line_at(text, at);
        let end = line.end;
        let answer = run_line(nodes, links, store, root, allowance, &text[at..end]);
        put_row(row_of(answer), records, k * ROW_SIZE);
        at = line.next;
    }
    Ok((m, at))
}
