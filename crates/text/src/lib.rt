// Bytes and characters: UTF-8 as RFC 3629 has it, the 256 classes of bytes, words, decimal and hex digits.
//
// The entry points stand here and ask nothing of their callers. `inner` has what this crate and the
// crates above it build on.
#![tactic(auto)]

pub mod inner;
pub mod limits;

ghost use Rattle.std.specs.Prelude.{◌≡◌, length, drop};
ghost use Rattle.text.specs.Utf8.{char_of, first_bad, encode_of, encode_in};
ghost use Rattle.text.specs.Classes.{class_of};
ghost use Rattle.text.specs.Words.{word_of};
ghost use Rattle.text.specs.Digits.{decimal_of, decimal_put, decimal_in, hex_of};

// Why a character was not written.
#[derive(Clone, Copy, Debug, PartialEq, Eq)]
pub enum EncodeError {
    NoRoom,
    NotScalar,
}

// A word that may be a name, one that begins PUSH and may be a tag's alone, or no word.
#[derive(Clone, Copy)]
pub enum Word {
    Name,
    Push,
    Neither,
}

// Why digits have no worth: it is over the limit, or they are none.
#[derive(Clone, Copy, Debug, PartialEq, Eq)]
pub enum DecimalError {
    Over,
    NotDigits,
}

// The sequence at a place.
#[tactic(auto, using(crate::proofs::Encodes::lead_small), unfolding(crate::specs::Utf8::char_of))]
pub fn char_at(s: &[u8], at: usize) -> Option<(u32, usize)>
    ensures { result ≡ char_of (drop at s.now) }
{
    if s.len() <= at {
        return None;
    }
    match inner::utf8::lead_of(s[at]) {
        Some((bits, more, low)) => {
            let v = inner::utf8::gather(&s[at + 1..], more, bits);
            inner::utf8::judge(low, more + 1, v)
        }
        None => None,
    }
}

// The start of the first bad sequence.
pub fn first_bad(s: &[u8]) -> Option<usize>
    ensures { result ≡ first_bad s.now }
{
    if inner::utf8::is_ascii(s) {
        return None;
    }
    let mut i = 0;
    while i < s.len() {
        if s[i] < 128 {
            i += 1;
        } else {
            let sequence = char_at(s, i);
            match sequence {
                Some((_, n)) => {
                    i += n;
                }
                None => {
                    return Some(i);
                }
            }
        }
    }
    None
}

// Writes a character's bytes to the front of a buffer.
pub fn encode(c: u32, out: &mut [u8]) -> Result<usize, EncodeError>
    ensures value { result ≡ encode_of c (length out.old) }
    ensures out_after { out.new ≡ encode_in c out.old result }
{
    if !inner::utf8::is_scalar(c) {
        return Err(EncodeError::NotScalar);
    }
    if inner::utf8::spend_char(out.len() + 1, c) == 0 {
        return Err(EncodeError::NoRoom);
    }
    Ok(inner::utf8::put_char(c, out, 0))
}

// The class of a byte.
pub fn class_of(b: u8) -> u8
    ensures { result ≡ class_of b }
{
    let t = inner::classes::classes();
    inner::classes::class(&t, b)
}

// What kind of word a text is.
pub fn word_of(s: &[u8]) -> Word
    ensures { result ≡ word_of s.now }
{
    let t = inner::classes::classes();
    inner::words::word(&t, s)
}

// What decimal digits are worth, if it is at most a limit. Leading zeros are free.
#[tactic(auto, using(crate::proofs::Decimals::of_none, crate::proofs::Decimals::of_from))]
pub fn decimal_of(s: &[u8], limit: u32) -> Result<u32, DecimalError>
    ensures { result ≡ decimal_of limit s.now }
{
    if s.is_empty() {
        return Err(DecimalError::NotDigits);
    }
    inner::digits::decimal_from(s, limit)
}

// Writes a number in decimal to the front of a buffer.
pub fn write_decimal(n: u32, out: &mut [u8]) -> Option<usize>
    ensures value { result ≡ decimal_put n (length out.old) }
    ensures out_after { out.new ≡ decimal_in n out.old result }
{
    if inner::digits::spend_decimal(out.len() + 1, n) == 0 {
        return None;
    }
    Some(inner::digits::put_decimal(n, out, 0))
}

// The value of a hex digit, either case.
#[tactic(auto, unfolding(crate::specs::Digits::hex_of))]
pub fn hex_of(b: u8) -> Option<u32>
    ensures { result ≡ hex_of b }
{
    match b {
        b'0'..=b'9' => Some(u32::from(b - b'0')),
        b'A'..=b'F' => Some(u32::from(b - b'A') + 10),
        b'a'..=b'f' => Some(u32::from(b - b'a') + 10),
        _ => None,
    }
}
