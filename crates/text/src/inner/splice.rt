// Room that is spent while a text is measured, and bytes stored in a row.
ghost use Rattle.std.specs.Prelude.{◌≡◌, [], ◌∷◌, ◌-◌};
ghost use Rattle.text.specs.Splice.{Room, Wrote};

// What is left after n more bytes: 0 once they are too many.
pub fn spend(left: usize, n: usize) -> usize
    ensures { result ≡ left - n }
{
    left.saturating_sub(n)
}

pub fn put_byte(b: u8, out: &mut [u8], at: usize) -> usize
    requires { Room out.old at (b ∷ []) }
    ensures { Wrote out.old at (b ∷ []) out.new result }
{
    out[at] = b;
    at + 1
}

// Copies a text into a buffer. By stores: `copy_from_slice` is a call of `memmove`, which the archive for C would then want from outside.
pub fn put(x: &[u8], out: &mut [u8], at: usize) -> usize
    requires { Room out.old at x.now }
    ensures { Wrote out.old at x.now out.new result }
{
    for i in 0..x.len() {
        out[at + i] = x[i];
    }
    at + x.len()
}
