// The line `refused N at P`: room for it, and its bytes.
#![tactic(auto, unfolding(text::specs::Splice::spent, crate::specs::Line::refusal_line))]

ghost use Rattle.std.specs.Prelude.{◌≡◌};
ghost use Rattle.text.specs.Splice.{Room, Wrote, spent};
ghost use Rattle.rows.specs.Line.{refusal_line};

use text::inner::digits::{put_number, spend_number};
use text::inner::splice::{put, put_byte, spend};

// What is left after the line: its words, blanks and LF are thirteen bytes.
pub fn spend_line(left: usize, number: u64, place: u64) -> usize
    ensures { result ≡ spent left (refusal_line number place) }
{
    spend_number(spend_number(spend(left, 13), number), place)
}

pub fn put_line(number: u64, place: u64, out: &mut [u8], at: usize) -> usize
    requires { Room out.old at (refusal_line number place) }
    ensures { Wrote out.old at (refusal_line number place) out.new result }
{
    let a = put(b"refused ", out, at);
    let b = put_number(number, out, a);
    let c = put(b" at ", out, b);
    let d = put_number(place, out, c);
    put_byte(b'\n', out, d)
}
