// Words.
ghost use Rattle.std.specs.Prelude.{◌≡◌, ◌≤◌, length, drop};
ghost use Rattle.text.specs.Booleans.{all};
ghost use Rattle.text.specs.Classes.{classes};
ghost use Rattle.text.specs.Words.{starts_word, in_word, begins, word_of};

use crate::Word;

// A letter or `_`.
pub fn starts_word(t: &[u8; 256], b: u8) -> bool
    requires { t.now ≡ classes }
    ensures { result ≡ starts_word b }
{
    super::classes::class(t, b) == 2
}

// A letter, `_` or a digit.
pub fn in_word(t: &[u8; 256], b: u8) -> bool
    requires { t.now ≡ classes }
    ensures { result ≡ in_word b }
{
    matches!(super::classes::class(t, b), 2 | 3)
}

// There is nothing but letters, `_` and digits.
fn all_in_word(t: &[u8; 256], s: &[u8]) -> bool
    requires { t.now ≡ classes }
    ensures { result ≡ all in_word s.now }
{
    s.iter().all(|b| in_word(t, *b))
}

// From a place on, p stands at the front.
pub fn begins_at(p: &[u8], s: &[u8], at: usize) -> bool
    requires { at ≤ length s.now }
    ensures { result ≡ begins p.now (drop at s.now) }
{
    s[at..].starts_with(p)
}

#[tactic(auto, using(crate::proofs::Runs::word_at), unfolding(crate::specs::Words::word_of, crate::specs::Words::is_word))]
pub fn word(t: &[u8; 256], s: &[u8]) -> Word
    requires { t.now ≡ classes }
    ensures { result ≡ word_of s.now }
{
    let [first, rest @ ..] = s else {
        return Word::Neither;
    };
    if !starts_word(t, *first) || !all_in_word(t, rest) {
        return Word::Neither;
    }
    if s.starts_with(b"PUSH") {
        Word::Push
    } else {
        Word::Name
    }
}
