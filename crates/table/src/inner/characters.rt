// Characters, for crates that see the tables alone.
ghost use Rattle.std.specs.Prelude.{◌≡◌, drop};
ghost use Rattle.table.specs.Characters.{char_of, first_bad};

// The start of a line's first bad sequence.
pub fn first_bad(line: &[u8]) -> Option<usize>
    ensures { result ≡ first_bad line.now }
{
    match text::first_bad(line) {
        None => None,
        Some(i) => Some(i),
    }
}

// The character at a place. Below 128 it is its byte.
#[tactic(auto, using(crate::proofs::Characters::ascii_at))]
pub fn char_at(line: &[u8], at: usize) -> Option<(u32, usize)>
    ensures { result ≡ char_of (drop at line.now) }
{
    if at < line.len() && line[at] < 128 {
        return Some((u32::from(line[at]), 1));
    }
    match text::char_at(line, at) {
        Some((c, n)) => Some((c, n)),
        None => None,
    }
}
