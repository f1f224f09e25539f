// Runs of bytes of one sort.
ghost use Rattle.std.specs.Prelude.{◌≡◌, ℕ, Bool, List, true, false, ◌+◌, ◌<◌, ◌≤◌, length, drop};
ghost use Rattle.text.specs.Booleans.{next_is};
ghost use Rattle.text.specs.Classes.{classes};
ghost use Rattle.token.specs.Blanks.{run, words, digit_run, zeros, line, line_ends, Plain};

// The bytes that are looked at in one go where nothing is wanted of most.
const WINDOW: usize = 16;

// The byte at a place is b.
pub(crate) fn next_is(s: &[u8], i: usize, b: u8) -> bool
    ensures { result ≡ next_is b (drop i s.now) }
{
    i < s.len() && s[i] == b
}

// Past the places from one on that pass a test.
fn run_end<F: Fn(usize) -> bool>(s: &[u8], at: usize, inside: F) -> usize
    requires callable { (i : ℕ) → i < length s.now → F.pre inside i }
    ensures { (p : List ℕ → Bool) → ((i : ℕ) (r : Bool) → i < length s.now → F.post inside i r → r ≡ p (drop i s.now)) → result ≡ at + run p (drop at s.now) }
{
    for i in at..s.len() {
        if !inside(i) {
            return i;
        }
    }
    at.max(s.len())
}

// Past letters, `_` and digits.
pub(crate) fn word_end(t: &[u8; 256], s: &[u8], at: usize) -> usize
    requires { t.now ≡ classes }
    ensures { result ≡ at + words (drop at s.now) }
{
    run_end(s, at, |i| text::inner::words::in_word(t, s[i]))
}

// Past digits.
pub(crate) fn digits_end(t: &[u8; 256], s: &[u8], at: usize) -> usize
    requires { t.now ≡ classes }
    ensures { result ≡ at + digit_run (drop at s.now) }
{
    run_end(s, at, |i| text::inner::classes::class(t, s[i]) == 3)
}

// Past zeros.
pub(crate) fn zeros_end(s: &[u8], at: usize) -> usize
    ensures { result ≡ at + zeros (drop at s.now) }
{
    run_end(s, at, |i| s[i] == b'0')
}

// LF or CRLF stands here.
fn line_ends(s: &[u8], i: usize) -> bool
    requires { i < length s.now }
    ensures { result ≡ line_ends (drop i s.now) }
{
    let b = s[i];
    b <= 13 && (b == b'\n' || b == b'\r' && next_is(s, i + 1, b'\n'))
}

// Whether the bytes of the window at a place are all above CR, so that no line ends there. It looks at
// each, and a processor at all at once.
#[tactic(auto, using(crate::proofs::Runs::looked_none, crate::proofs::Runs::looked_low, crate::proofs::Runs::looked_high))]
fn is_plain(s: &[u8], at: usize) -> bool
    requires { at + 16 ≤ length s.now }
    ensures plain { result ≡ true → Plain 16 s.now at }
    ensures fact { result ≡ false → Plain 16 s.now at → ⊥ }
{
    let mut plain = true;
    for b in &s[at..at + WINDOW] {
        if *b <= 13 {
            plain = false;
        }
    }
    plain
}

// Past the windows in which no line ends.
fn plain_end(s: &[u8], at: usize) -> usize
    ensures { result + line (drop result s.now) ≡ at + line (drop at s.now) }
{
    let mut i = at;
    while i < s.len() && WINDOW <= s.len() - i && is_plain(s, i) {
        i += WINDOW;
    }
    i
}

// Up to LF, CRLF or the text's end. Most lines that are gone through so are comments.
pub(crate) fn line_end(s: &[u8], at: usize) -> usize
    ensures { result ≡ at + line (drop at s.now) }
{
    run_end(s, plain_end(s, at), |i| !line_ends(s, i))
}
