// The parts of UTF-8: what a first byte says, the bytes after it, a character's bytes.
ghost use Rattle.std.specs.Prelude.{◌≡◌, true, false, ℕ, ◌<◌, ◌≤◌, length, get_or, drop};
ghost use Rattle.text.specs.Splice.{Room, Wrote, spent};
ghost use Rattle.text.specs.Utf8.{scalar, lead_of, gathered, judged, encoded};

pub fn wide(b: u8) -> u32
    ensures { result ≡ b }
{
    u32::from(b)
}

#[tactic(auto, unfolding(crate::specs::Utf8::scalar))]
pub fn is_scalar(c: u32) -> bool
    ensures { result ≡ scalar c }
{
    char::from_u32(c).is_some()
}

// Whether all bytes are below 128. It looks at each, and a processor at many at once.
pub fn is_ascii(s: &[u8]) -> bool
    ensures k_bound { result ≡ true → (k : ℕ) → get_or s.now k 0 < 128 }
    ensures fact { result ≡ false → ((k : ℕ) → get_or s.now k 0 < 128) → ⊥ }
{
    let mut x: u8 = 0;
    for b in s {
        x = x.max(*b);
    }
    x < 128
}

#[tactic(auto, unfolding(crate::specs::Utf8::lead_of))]
pub(crate) fn lead_of(x: u8) -> Option<(u32, usize, u32)>
    ensures { result ≡ lead_of x }
{
    match x {
        0..=0x7f => Some((u32::from(x), 0, 0)),
        0xc0..=0xdf => Some((u32::from(x - 0xc0), 1, 0x80)),
        0xe0..=0xef => Some((u32::from(x - 0xe0), 2, 0x800)),
        0xf0..=0xf7 => Some((u32::from(x - 0xf0), 3, 0x10000)),
        _ => None,
    }
}

// A number with the six bits of each of the first `more` bytes.
pub(crate) fn gather(s: &[u8], more: usize, bits: u32) -> Option<u32>
    requires more_bound { more ≤ 3 }
    requires bits_bound { bits < 256 }
    ensures { result ≡ gathered more bits s.now }
{
    let Some(tail) = s.get(..more) else {
        return None;
    };
    let mut v = bits;
    for x in tail {
        match x {
            0x80..=0xbf => v = v * 64 + u32::from(x - 0x80),
            _ => return None,
        }
    }
    Some(v)
}

// A number is a character if it is at least its row's least and a scalar value.
#[tactic(auto, unfolding(crate::specs::Utf8::judged))]
pub(crate) fn judge(low: u32, n: usize, v: Option<u32>) -> Option<(u32, usize)>
    ensures { result ≡ judged low n v }
{
    match v {
        Some(c) if low <= c && is_scalar(c) => Some((c, n)),
        _ => None,
    }
}

// What is left after a character's bytes.
#[tactic(auto, unfolding(crate::specs::Utf8::encoded, crate::specs::Splice::spent))]
pub fn spend_char(left: usize, c: u32) -> usize
    ensures { result ≡ spent left (encoded c) }
{
    let n = match c {
        0..=0x7f => 1,
        0x80..=0x7ff => 2,
        0x800..=0xffff => 3,
        _ => 4,
    };
    super::splice::spend(left, n)
}

// Writes a character's bytes. Each is stored by itself: to copy them out of an array is slower.
#[tactic(auto, using(crate::proofs::Splices::wrote_one, crate::proofs::Splices::wrote_two, crate::proofs::Splices::wrote_three, crate::proofs::Splices::wrote_four), unfolding(crate::specs::Utf8::encoded))]
pub fn put_char(c: u32, out: &mut [u8], at: usize) -> usize
    requires c_bound { c < 0x110000 }
    requires room { Room out.old at (encoded c) }
    ensures { Wrote out.old at (encoded c) out.new result }
{
    match c {
        0..=0x7f => {
            out[at] = c as u8;
            at + 1
        }
        0x80..=0x7ff => {
            out[at] = (0xc0 + c / 64) as u8;
            out[at + 1] = (0x80 + c % 64) as u8;
            at + 2
        }
        0x800..=0xffff => {
            out[at] = (0xe0 + c / 4096) as u8;
            out[at + 1] = (0x80 + c / 64 % 64) as u8;
            out[at + 2] = (0x80 + c % 64) as u8;
            at + 3
        }
        _ => {
            out[at] = (0xf0 + c / 262144) as u8;
            out[at + 1] = (0x80 + c / 4096 % 64) as u8;
            out[at + 2] = (0x80 + c / 64 % 64) as u8;
            out[at + 3] = (0x80 + c % 64) as u8;
            at + 4
        }
    }
}
