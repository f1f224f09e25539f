// What an escape is, and the string that the inside of a literal means.
ghost use Rattle.std.specs.Prelude.{◌≡◌, ◌≤◌, ◌<◌, length, drop, None};
ghost use Rattle.text.specs.Splice.{Room, Wrote, spent};
ghost use Rattle.literal.specs.Escapes.{digits_of, simple_of, pair_of, braced_of, after_of, escape_of, no_escape, bad_escape, unescaped};

use crate::Digits;

// The first hex digits, up to m of them.
fn digits_of(s: &[u8], m: usize) -> Digits
    requires { m ≤ 6 }
    ensures { result ≡ digits_of m 0 0 s.now }
{
    let mut digits = Digits { value: 0, count: 0 };
    for b in &s[..m.min(s.len())] {
        let Some(d) = text::hex_of(*b) else {
            return digits;
        };
        digits = Digits {
            value: digits.value * 16 + d,
            count: digits.count + 1,
        };
    }
    digits
}

// The escapes of one letter.
#[tactic(auto, unfolding(crate::specs::Escapes::simple_of))]
fn simple_of(b: u8) -> Option<u32>
    ensures { result ≡ simple_of b }
{
    match b {
        b'"' | b'\\' | b'\'' => Some(u32::from(b)),
        b'r' => Some(13),
        b'n' => Some(10),
        b't' => Some(9),
        b'0' => Some(0),
        _ => None,
    }
}

// After `\x`.
#[tactic(auto, unfolding(crate::specs::Escapes::pair_of))]
fn pair_of(s: &[u8]) -> Option<(u32, usize)>
    ensures { result ≡ pair_of s.now }
{
    let d = digits_of(s, 2);
    if d.count == 2 {
        Some((d.value, 4))
    } else {
        None
    }
}

// After `\u`.
#[tactic(auto, unfolding(crate::specs::Escapes::braced_of))]
fn braced_of(s: &[u8]) -> Option<(u32, usize)>
    ensures { result ≡ braced_of s.now }
{
    let [b'{', rest @ ..] = s else {
        return None;
    };
    let d = digits_of(rest, 6);
    if d.count < 2 || rest.len() <= d.count || rest[d.count] != b'}' {
        return None;
    }
    Some((d.value, d.count + 4))
}

// After a backslash.
#[tactic(auto, unfolding(crate::specs::Escapes::after_of))]
pub(crate) fn after_of(s: &[u8]) -> Option<(u32, usize)>
    ensures { result ≡ after_of s.now }
{
    let [first, rest @ ..] = s else {
        return None;
    };
    match simple_of(*first) {
        Some(c) => Some((c, 2)),
        None => match first {
            b'x' => pair_of(rest),
            b'u' => braced_of(rest),
            _ => None,
        },
    }
}

// The escape at a place of the text. Most bytes are no backslash, and are told so at once.
fn escape_in(s: &[u8], at: usize) -> Option<(u32, usize)>
    requires { at < length s.now }
    ensures { result ≡ escape_of (drop at s.now) }
{
    if s[at] != b'\\' {
        return None;
    }
    crate::escape_at(s, at)
}

// The first backslash that begins no escape.
pub fn no_escape(s: &[u8]) -> Option<usize>
    ensures { result ≡ no_escape s.now }
{
    let mut i = 0;
    while i < s.len() {
        let escape = escape_in(s, i);
        match escape {
            None => {
                if s[i] == b'\\' {
                    return Some(i);
                }
                i += 1;
            }
            Some((_, n)) => {
                i += n;
            }
        }
    }
    None
}

// The backslash of the first escape that is no character.
pub fn bad_escape(s: &[u8]) -> Option<usize>
    ensures { result ≡ bad_escape s.now }
{
    let mut i = 0;
    while i < s.len() {
        let escape = escape_in(s, i);
        match escape {
            None => {
                i += 1;
            }
            Some((c, n)) => {
                if !text::inner::utf8::is_scalar(c) {
                    return Some(i);
                }
                i += n;
            }
        }
    }
    None
}

// What is left after the string that the inside of a literal means.
pub fn spend_unescaped(s: &[u8], room: usize) -> usize
    ensures { result ≡ spent room (unescaped s.now) }
{
    let mut left = room;
    let mut i = 0;
    while i < s.len() {
        let escape = escape_in(s, i);
        match escape {
            None => {
                left = text::inner::splice::spend(left, 1);
                i += 1;
            }
            Some((c, n)) => {
                left = text::inner::utf8::spend_char(left, c);
                i += n;
            }
        }
    }
    left
}

// Writes the string that the inside of a literal means.
pub fn put_unescaped(s: &[u8], out: &mut [u8], at: usize) -> usize
    requires s_value { bad_escape s.now ≡ None }
    requires room { Room out.old at (unescaped s.now) }
    ensures { Wrote out.old at (unescaped s.now) out.new result }
{
    let mut a = at;
    let mut i = 0;
    while i < s.len() {
        let escape = escape_in(s, i);
        match escape {
            None => {
                a = text::inner::splice::put_byte(s[i], out, a);
                i += 1;
            }
            Some((c, n)) => {
                a = text::inner::utf8::put_char(c, out, a);
                i += n;
            }
        }
    }
    a
}
