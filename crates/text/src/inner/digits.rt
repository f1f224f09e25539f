// Decimal and hex digits.
ghost use Rattle.std.specs.Prelude.{◌≡◌, ◌+◌, ◌*◌, ◌≤◌, ◌<◌, leb};
ghost use Rattle.text.specs.Booleans.{choose};
ghost use Rattle.text.specs.Splice.{Room, Wrote, spent};
ghost use Rattle.text.specs.Digits.{decimal_from, decimal, hex_digit, hexes};

use crate::DecimalError;

// One more digit, unless the limit is exceeded already: then it stays exceeded.
fn decimal_more(v: u64, limit: u32, d: u64) -> u64
    requires { d < 10 }
    ensures { result ≡ choose (leb v limit) (λ u. v * 10 + d) (λ u. v) }
{
    if v <= u64::from(limit) { v * 10 + d } else { v }
}

// What decimal digits are worth, if it is at most a limit; none are worth 0.
#[tactic(auto, using(crate::proofs::Decimals::from_step, crate::proofs::Decimals::from_stop, crate::proofs::Decimals::from_end))]
pub fn decimal_from(s: &[u8], limit: u32) -> Result<u32, DecimalError>
    ensures { result ≡ decimal_from limit 0 s.now }
{
    let mut v: u64 = 0;
    for b in s {
        if !b.is_ascii_digit() {
            return Err(DecimalError::NotDigits);
        }
        v = decimal_more(v, limit, u64::from(b - b'0'));
    }
    if v <= u64::from(limit) {
        Ok(v as u32)
    } else {
        Err(DecimalError::Over)
    }
}

// What is left after a number in decimal.
pub fn spend_number(left: usize, n: u64) -> usize
    ensures { result ≡ spent left (decimal n) }
{
    if n < 10 {
        return super::splice::spend(left, 1);
    }
    super::splice::spend(spend_number(left, n / 10), 1)
}

// Writes a number in decimal.
pub fn put_number(n: u64, out: &mut [u8], at: usize) -> usize
    requires { Room out.old at (decimal n) }
    ensures { Wrote out.old at (decimal n) out.new result }
{
    if n < 10 {
        return super::splice::put_byte(b'0' + n as u8, out, at);
    }
    let next = put_number(n / 10, out, at);
    super::splice::put_byte(b'0' + (n % 10) as u8, out, next)
}

// Both for a number of 32 bits, as records have it.
pub fn spend_decimal(left: usize, n: u32) -> usize
    ensures { result ≡ spent left (decimal n) }
{
    spend_number(left, u64::from(n))
}

pub fn put_decimal(n: u32, out: &mut [u8], at: usize) -> usize
    requires { Room out.old at (decimal n) }
    ensures { Wrote out.old at (decimal n) out.new result }
{
    put_number(u64::from(n), out, at)
}

// The hex digit of a value below sixteen.
#[tactic(auto, unfolding(crate::specs::Digits::hex_digit))]
fn hex_digit(d: u32) -> u8
    requires { d < 16 }
    ensures { result ≡ hex_digit d }
{
    if d < 10 {
        b'0' + d as u8
    } else {
        b'a' + (d - 10) as u8
    }
}

// Writes the last k hex digits of a number.
pub fn put_hex(k: usize, c: u32, out: &mut [u8], at: usize) -> usize
    requires { Room out.old at (hexes k c) }
    ensures { Wrote out.old at (hexes k c) out.new result }
{
    if k == 0 {
        return at;
    }
    let next = put_hex(k - 1, c / 16, out, at);
    super::splice::put_byte(hex_digit(c % 16), out, next)
}
