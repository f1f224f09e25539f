// The lines of tokens: `KIND START END` for each record of a list.
#![tactic(auto, unfolding(crate::specs::Tokens::token_line))]

ghost use Rattle.std.specs.Prelude.{◌+◌, ◌*◌, ◌≤◌, length, drop};
ghost use Rattle.text.specs.Splice.{Room, Wrote};
ghost use Rattle.rows.specs.Tokens.{token_line, token_size, record_line, token_lines, longest_token};

use text::inner::digits::put_decimal;
use text::inner::splice::put_byte;

fn put_token(kind: u32, start: u32, end: u32, out: &mut [u8], at: usize) -> usize
    requires { Room out.old at (token_line kind start end) }
    ensures { Wrote out.old at (token_line kind start end) out.new result }
{
    let a = put_decimal(kind, out, at);
    let b = put_byte(b' ', out, a);
    let c = put_decimal(start, out, b);
    let d = put_byte(b' ', out, c);
    let e = put_decimal(end, out, d);
    put_byte(b'\n', out, e)
}

// The line of the record at an index.
fn put_record(list: &[u32], i: usize, out: &mut [u8], at: usize) -> usize
    requires token_size_in_bounds { token_size * i + token_size ≤ length list.now }
    requires longest_token_in_bounds { at + longest_token ≤ length out.old }
    ensures wrote { Wrote out.old at (record_line (drop (token_size * i) list.now)) out.new result }
    ensures upper_bound { result ≤ at + longest_token }
{
    let k = 3 * i;
    put_token(list[k], list[k + 1], list[k + 2], out, at)
}

// Writes the lines of the first k records to an output's front.
pub fn put_tokens(list: &[u32], k: usize, out: &mut [u8]) -> usize
    requires k_in_bounds { token_size * k ≤ length list.now }
    requires k_in_bounds_2 { longest_token * k ≤ length out.old }
    ensures wrote { Wrote out.old 0 (token_lines k list.now) out.new result }
    ensures upper_bound { result ≤ longest_token * k }
{
    let mut at = 0;
    for i in 0..k {
        at = put_record(list, i, out, at);
    }
    at
}
