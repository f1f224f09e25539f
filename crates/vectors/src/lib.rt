// Lines of test vectors. A program of the gate reads them on its standard input, one to a line, takes
// a line's fields apart, and writes what came of each.
#![tactic(auto)]

ghost use Rattle.std.specs.Prelude.{◌≤◌, ◌≡◌, length, drop, count_by};
ghost use Rattle.io.specs.Counts.{IsPrefixLen};
ghost use Rattle.vectors.specs.Vectors.{find_of, field_of, word_of, hex_value, number_from, alone, mixed_of, sum_from};
ghost use Rattle.vectors.specs.Buffers.{filled, put, unhexed, appended, repeated, more_of, numbers_from, pieces_from, parts_from};

// Where a field lies in its line. It is empty where there is none.
#[derive(Clone, Copy)]
pub struct Part {
    pub start: usize,
    pub end: usize,
}

// From a place on, the first byte that is b (or, asked so, that is not), or the end.
pub fn find(s: &[u8], at: usize, b: u8, wanted: bool) -> usize
    ensures { (result ≤ length s.now) × (at ≤ length s.now → at ≤ result) × (result ≡ find_of s.now at b wanted) }
{
    for i in at..s.len() {
        if (s[i] == b) == wanted {
            return i;
        }
    }
    s.len()
}

// The next field of a line from a place on.
pub fn field(s: &[u8], at: usize) -> Part
    ensures { (result.start ≤ result.end) × (result.end ≤ length s.now) × (result ≡ field_of s.now at) }
{
    let start = find(s, at, b' ', false);
    let end = find(s, start, b' ', true);
    Part { start, end }
}

// The field of a line that k others stand before.
pub fn word(s: &[u8], k: usize) -> &[u8]
    ensures { result.now ≡ word_of s.now k }
{
    let mut at = 0;
    for _turn in 0..k {
        at = field(s, at).end;
    }
    let Part { start, end } = field(s, at);
    &s[start..end]
}

#[tactic(auto, unfolding(crate::specs::Vectors::hex_value))]
fn hex_value(b: u8) -> u8
    ensures { (result ≤ 15) × (result ≡ hex_value b) }
{
    match b {
        b'0'..=b'9' => b - b'0',
        b'a'..=b'f' => b - b'a' + 10,
        _ => 0,
    }
}

// The bytes that pairs of hex digits spell, as many as there is room for.
pub fn unhex(s: &[u8], out: &mut [u8]) -> usize
    ensures counts { IsPrefixLen result out.new }
    ensures left { filled result out.new ≡ put out.old 0 (unhexed s.now) }
{
    let n = out.len().min(s.len() / 2);
    for k in 0..n {
        out[k] = hex_value(s[2 * k]) * 16 + hex_value(s[2 * k + 1]);
    }
    n
}

// A decimal number. One that a u64 doesn't hold is cut short.
pub fn number(s: &[u8]) -> u64
    ensures { result ≡ number_from 0 s.now }
{
    let mut v: u64 = 0;
    for b in s {
        if 1000000000000000000 <= v {
            return v;
        }
        v = v * 10 + u64::from(hex_value(*b));
    }
    v
}

// A number's last 32 bits.
pub fn small(n: u64) -> u32 {
    (n & 0xffff_ffff) as u32
}

// A number with one more digit, kept to 32 bits; other bytes mean nothing.
#[tactic(auto, unfolding(crate::specs::Buffers::more_of))]
fn more(v: u32, b: u8) -> u32
    ensures { result ≡ more_of v b }
{
    if !b.is_ascii_digit() {
        return v;
    }
    v.wrapping_mul(10).wrapping_add(u32::from(b - b'0'))
}

// The numbers of a list in which a comma stands behind each.
pub fn numbers(s: &[u8], out: &mut [u32]) -> usize
    ensures counts { IsPrefixLen result out.new }
    ensures left { filled result out.new ≡ numbers_from 0 out.old 0 s.now }
{
    let mut v: u32 = 0;
    let mut k = 0;
    for b in s {
        if out.len() <= k {
            return k;
        }
        v = more(v, *b);
        out[k] = v;
        if *b == b',' {
            k += 1;
            v = 0;
        }
    }
    k
}

// Copies a piece behind what a buffer has, as far as there is room.
fn append(piece: &[u8], out: &mut [u8], from: usize) -> usize
    ensures counts { IsPrefixLen result out.new }
    ensures left { filled result out.new ≡ appended out.old from piece.now }
{
    if out.len() < from {
        return 0;
    }
    let n = piece.len().min(out.len() - from);
    out[from..from + n].copy_from_slice(&piece[..n]);
    from + n
}

// A piece of a few bytes so many times: of one byte or two the library's copy took about twice as long.
fn repeat_few(piece: &[u8], times: usize, out: &mut [u8], from: usize) -> usize
    requires { from ≤ length out.old }
    ensures counts { IsPrefixLen result out.new }
    ensures left { filled result out.new ≡ repeated times piece.now out.old from }
{
    let mut k = from;
    for _turn in 0..times {
        for b in piece {
            if out.len() <= k {
                return k;
            }
            out[k] = *b;
            k += 1;
        }
    }
    k
}

// A piece so many times, behind what a buffer has. Where nothing is put, or there is no room left, the turns to come
// change nothing.
pub fn repeat(piece: &[u8], times: usize, out: &mut [u8], from: usize) -> usize
    ensures counts { IsPrefixLen result out.new }
    ensures left { filled result out.new ≡ repeated times piece.now out.old from }
{
    if out.len() < from {
        return 0;
    }
    if piece.is_empty() {
        return from;
    }
    if piece.len() < 4 {
        return repeat_few(piece, times, out, from);
    }
    let mut k = from;
    for _turn in 0..times {
        if out.len() <= k {
            return k;
        }
        k = append(piece, out, k);
    }
    k
}

// A text in pieces, at most nine: how many times, and what in hex, from behind the line's first fields on.
pub fn pieces(line: &[u8], fields: u8, out: &mut [u8]) -> usize
    ensures counts { IsPrefixLen result out.new }
    ensures left { filled result out.new ≡ pieces_from 9 line.now fields (filled 0 out.old) }
{
    let mut piece = [0u8; 4096];
    let mut k = 0;
    for turn in 0..9 {
        let at = usize::from(fields) + 2 * turn;
        let times = number(word(line, at)) as usize;
        let n = unhex(word(line, at + 1), &mut piece);
        k = repeat(&piece[..n], times, out, k);
    }
    k
}

// The text of pieces: how often, a colon, in hex what, a comma.
pub fn parts(s: &[u8], out: &mut [u8]) -> usize
    ensures counts { IsPrefixLen result out.new }
    ensures left { filled result out.new ≡ parts_from (length s.now) s.now 0 (filled 0 out.old) }
{
    let mut piece = [0u8; 1024];
    let mut at = 0;
    let mut k = 0;
    while at < s.len() {
        let colon = find(s, at, b':', true);
        if s.len() <= colon {
            return k;
        }
        let from = colon + 1;
        let comma = find(s, from, b',', true);
        let n = unhex(&s[from..comma], &mut piece);
        k = repeat(&piece[..n], number(&s[at..colon]) as usize, out, k);
        at = comma + 1;
    }
    k
}

// How many stand at a value from a place on.
fn alone<T: PartialEq>(s: &[T], from: usize, v: &T) -> usize
    ensures { result ≡ count_by (λ x. T.eq x v.now) (drop from s.now) }
{
    let mut n = 0;
    for x in &s[from.min(s.len())..] {
        if x == v {
            n += 1;
        }
    }
    n
}

// How many numbers stand at 2,863,311,530 from a place on.
pub fn numbers_alone(s: &[u32], from: usize) -> usize
    ensures { result ≡ alone 2863311530 (drop from s.now) }
{
    alone(s, from, &2863311530)
}

// How many bytes stand at 170 from a place on.
pub fn bytes_alone(s: &[u8], from: usize) -> usize
    ensures { result ≡ alone 170 (drop from s.now) }
{
    alone(s, from, &170)
}

fn mixed(sum: u32, v: u32) -> u32
    ensures { result ≡ mixed_of sum v }
{
    sum.wrapping_mul(31).wrapping_add(v)
}

pub fn numbers_sum(s: &[u32]) -> u32
    ensures { result ≡ sum_from 0 s.now }
{
    s.iter().fold(0, |sum, v| mixed(sum, *v))
}

pub fn bytes_sum(s: &[u8]) -> u32
    ensures { result ≡ sum_from 0 s.now }
{
    s.iter().fold(0, |sum, b| mixed(sum, u32::from(*b)))
}

pub fn write(s: &[u8]) {
    io::write_all(1, s);
}

pub fn write_number(n: usize) {
    write(b" ");
    io::print_decimal(1, n as u64);
}

pub fn write_small(v: u32) {
    write_number(v as usize);
}

// Numbers, a space before each.
pub fn write_numbers(s: &[u64]) {
    for n in s {
        write(b" ");
        io::print_decimal(1, *n);
    }
}

// Numbers with a comma behind each, a dash where there are none.
pub fn write_list(s: &[u32]) {
    if s.is_empty() {
        write(b" -");
        return;
    }
    write(b" ");
    for v in s {
        io::print_decimal(1, u64::from(*v));
        write(b",");
    }
}

// Bytes in hex, behind a space.
pub fn write_hex(s: &[u8]) {
    write(b" ");
    for b in s {
        io::print_hex(1, u64::from(*b), 2);
    }
}

// Runs each line of standard input, which is read as far as the buffer has room.
pub fn run_lines<F: Fn(&[u8])>(input: &mut [u8], run_line: F)
    requires { F.IsAlwaysCallable run_line }
{
    let n = io::read_full(0, input);
    for line in input[..n].split_inclusive(|b| *b == b'\n') {
        run_line(line.strip_suffix(b"\n").unwrap_or(line));
    }
}

// Runs a line that is an operation's letter, a number and bytes, and writes it before what came of it. Behind a
// small letter the bytes are the rest of the line as it stands, behind a capital they are in hex. Whether there
// was an operation.
pub fn run_operation<F: Fn(u8, usize, &[u8])>(line: &[u8], run: F) -> bool
    requires { F.IsAlwaysCallable run }
{
    let mut spelled = [0u8; 512];
    let op = field(line, 0);
    let digits = field(line, op.end);
    let Part { start, end } = field(line, digits.end);
    let number = number(&line[digits.start..digits.end]) as usize;
    let n = unhex(&line[start..end], &mut spelled);
    write(line);
    write(b" =");
    if line.len() <= op.start {
        return false;
    }
    let letter = line[op.start];
    if letter < b'a' {
        run(letter, number, &spelled[..n]);
    } else {
        run(letter, number, &line[start..]);
    }
    true
}
