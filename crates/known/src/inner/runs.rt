// Where the letters, `_` and digits stop that begin at the first place of each block of 64 bytes, and words judged by
// that.
ghost use Rattle.std.specs.Prelude.{◌≡◌, ◌+◌, ◌≤◌, ◌<◌, length, take, drop};
ghost use Rattle.text.specs.Booleans.{all};
ghost use Rattle.text.specs.Classes.{classes};
ghost use Rattle.text.specs.Limits.{max_store};
ghost use Rattle.text.specs.Words.{in_word, word_of};
ghost use Rattle.known.specs.Runs.{run_from, noted, Runs};

use text::Word;
use text::inner::words::{in_word, starts_word};

// Where the run from place i on stops, by where that from the next one stops.
#[tactic(auto, using(crate::proofs::Runs::run_step, crate::proofs::Runs::run_stop))]
fn run_at(t: &[u8; 256], store: &[u8], i: usize, next: usize) -> usize
    requires t_value { t.now ≡ classes }
    requires i_in_bounds { i < length store.now }
    requires next_value { next ≡ run_from store.now (i + 1) }
    ensures { result ≡ run_from store.now i }
{
    if in_word(t, store[i]) { next } else { i }
}

// Keeps a stop if its place is the first of its block.
fn note(runs: &mut [u32; 1024], i: usize, stop: usize)
    requires i_lt_max_store { i < max_store }
    requires stop_le_max_store { stop ≤ max_store }
    ensures { runs.new ≡ noted runs.old i stop }
{
    if i % 64 == 0 {
        runs[i / 64] = stop as u32;
    }
}

// Fills the table from the store's end on.
pub fn fill_runs(t: &[u8; 256], store: &[u8], runs: &mut [u32; 1024])
    requires t_value { t.now ≡ classes }
    requires store_len_bound { length store.now ≤ max_store }
    requires runs_len { length runs.old ≡ 1024 }
    ensures { Runs store.now runs.new }
{
    let mut stop = store.len();
    for i in (0..store.len()).rev() {
        stop = run_at(t, store, i, stop);
        note(runs, i, stop);
    }
}

// Whether there is nothing but letters, `_` and digits from p to e: byte by byte up to a place that the table has.
fn all_in_word(t: &[u8; 256], runs: &[u32; 1024], store: &[u8], p: usize, e: usize) -> bool
    requires t_value { t.now ≡ classes }
    requires store_len_bound { length store.now ≤ max_store }
    requires runs { Runs store.now runs.now }
    requires p_le_e { p ≤ e }
    requires e_in_bounds { e ≤ length store.now }
    ensures { result ≡ all in_word (drop p (take e store.now)) }
{
    for i in p..e {
        if i % 64 == 0 {
            return e <= runs[i / 64] as usize;
        }
        if !in_word(t, store[i]) {
            return false;
        }
    }
    true
}

// What kind of word the part from p to e is.
#[tactic(auto, using(crate::proofs::Runs::word_none, crate::proofs::Runs::word_start, crate::proofs::Runs::word_rest))]
pub fn word_part(t: &[u8; 256], runs: &[u32; 1024], store: &[u8], p: usize, e: usize) -> Word
    requires t_value { t.now ≡ classes }
    requires store_len_bound { length store.now ≤ max_store }
    requires runs { Runs store.now runs.now }
    requires p_le_e { p ≤ e }
    requires e_in_bounds { e ≤ length store.now }
    ensures { result ≡ word_of (drop p (take e store.now)) }
{
    if p == e || !starts_word(t, store[p]) || !all_in_word(t, runs, store, p + 1, e) {
        return Word::Neither;
    }
    if store[p..e].starts_with(b"PUSH") {
        Word::Push
    } else {
        Word::Name
    }
}
