// The bytes of the store.
ghost use Rattle.std.specs.Prelude.{◌≡◌, ◌≤◌, length, None};
ghost use Rattle.text.specs.Splice.{Room, Wrote};
ghost use Rattle.literal.specs.Escapes.{bad_escape, unescaped};
ghost use Rattle.token.specs.Table.{between};

// Copies bytes of the text into the store.
pub fn put_bytes(text: &[u8], store: &mut [u8], a: usize, z: usize, free: usize) -> usize
    requires a_le_z { (a ≤ z) × (z ≤ length text.now) }
    requires room { Room store.old free (between text.now a z) }
    ensures { Wrote store.old free (between text.now a z) store.new result }
{
    text::inner::splice::put(&text[a..z], store, free)
}

// Writes the string that the bytes of the text from one place to another mean.
pub fn put_string(text: &[u8], store: &mut [u8], a: usize, z: usize, free: usize) -> usize
    requires a_le_z { (a ≤ z) × (z ≤ length text.now) }
    requires z_value { bad_escape (between text.now a z) ≡ None }
    requires room { Room store.old free (unescaped (between text.now a z)) }
    ensures { Wrote store.old free (unescaped (between text.now a z)) store.new result }
{
    literal::inner::escapes::put_unescaped(&text[a..z], store, free)
}
