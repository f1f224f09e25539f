// How the texts of a store are judged: by going over each, or by what is known of the store once.
ghost use Rattle.std.specs.Prelude.{◌≡◌, ℕ, List, true, length};
ghost use Rattle.text.specs.Classes.{classes};
ghost use Rattle.text.specs.Words.{word_of};
ghost use Rattle.table.specs.Record.{part};
ghost use Rattle.table.specs.Check.{in_store, is_utf8};
ghost use Rattle.table.specs.Heavy.{Known};

use known::inner::runs::word_part;
use known::inner::stops::is_part;
use text::Word;

pub(crate) trait Texts {
    ghost bytes: { Self → List ℕ };

    // The length of the store.
    fn len(&self) -> usize
        ensures { result ≡ length (bytes self.now) };

    // Whether a part is UTF-8.
    fn is_utf8(&self, p: usize, n: usize) -> bool
        requires { in_store (bytes self.now) p n ≡ true }
        ensures { result ≡ is_utf8 (part (bytes self.now) p n) };

    // What kind of word a part is.
    fn word(&self, p: usize, n: usize) -> Word
        requires { in_store (bytes self.now) p n ≡ true }
        ensures { result ≡ word_of (part (bytes self.now) p n) };
}

// Texts that are gone over, each for itself.
#[derive(Clone, Copy)]
pub(crate) struct Scanned<'a> {
    pub(crate) t: &'a [u8; 256],
    pub(crate) store: &'a [u8],
    ghost t_value: { t.now ≡ classes },
}

impl<'a> Texts for Scanned<'a> {
    ghost bytes = { λ s. s.store.now };

    fn len(&self) -> usize {
        self.store.len()
    }

    fn is_utf8(&self, p: usize, n: usize) -> bool {
        matches!(text::first_bad(&self.store[p..p + n]), None)
    }

    fn word(&self, p: usize, n: usize) -> Word {
        text::inner::words::word(self.t, &self.store[p..p + n])
    }
}

// Texts by two tables of the store: where words stop, and where characters do.
#[derive(Clone, Copy)]
pub(crate) struct Noted<'a> {
    pub(crate) t: &'a [u8; 256],
    pub(crate) store: &'a [u8],
    pub(crate) runs: &'a [u32; 1024],
    pub(crate) stops: &'a [u32; 4096],
    ghost t_value: { t.now ≡ classes },
    ghost known: { Known store.now runs.now stops.now },
}

impl<'a> Texts for Noted<'a> {
    ghost bytes = { λ s. s.store.now };

    fn len(&self) -> usize {
        self.store.len()
    }

    fn is_utf8(&self, p: usize, n: usize) -> bool {
        is_part(self.stops, self.store, p, p + n)
    }

    fn word(&self, p: usize, n: usize) -> Word {
        word_part(self.t, self.runs, self.store, p, p + n)
    }
}
