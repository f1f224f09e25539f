// Where the characters stop that begin at the first four places of each block of 64 bytes, and parts judged by that.
// A character has at most four bytes, so whoever goes on by characters meets one of the four.
ghost use Rattle.std.specs.Prelude.{◌≡◌, ◌+◌, ◌≤◌, ◌<◌, length};
ghost use Rattle.text.specs.Limits.{max_store};
ghost use Rattle.known.specs.Stops.{stop_from, noted, Stops, ends_at, is_part};

// Where the characters from place i on stop, by where those from each of the next four stop.
fn stop_at(store: &[u8], i: usize, s1: usize, s2: usize, s3: usize, s4: usize) -> usize
    requires i_in_bounds { i < length store.now }
    requires s1_value { s1 ≡ stop_from store.now (i + 1) }
    requires s2_value { s2 ≡ stop_from store.now (i + 2) }
    requires s3_value { s3 ≡ stop_from store.now (i + 3) }
    requires s4_value { s4 ≡ stop_from store.now (i + 4) }
    ensures { result ≡ stop_from store.now i }
{
    if store[i] < 128 {
        return s1;
    }
    let sequence = text::char_at(store, i);
    match sequence {
        Some((_, n)) => match n {
            1 => s1,
            2 => s2,
            3 => s3,
            _ => s4,
        },
        None => i,
    }
}

// Keeps a stop if its place is one of the four of its block.
fn note(stops: &mut [u32; 4096], i: usize, stop: usize)
    requires i_lt_max_store { i < max_store }
    requires stop_le_max_store { stop ≤ max_store }
    ensures { stops.new ≡ noted stops.old i stop }
{
    if i % 64 < 4 {
        stops[i / 64 * 4 + i % 64] = stop as u32;
    }
}

// Fills the table from the store's end on.
pub fn fill_stops(store: &[u8], stops: &mut [u32; 4096])
    requires store_len_bound { length store.now ≤ max_store }
    requires stops_len { length stops.old ≡ 4096 }
    ensures { Stops store.now stops.new }
{
    let mut s1 = store.len();
    let mut s2 = store.len();
    let mut s3 = store.len();
    let mut s4 = store.len();
    for i in (0..store.len()).rev() {
        let stop = stop_at(store, i, s1, s2, s3, s4);
        note(stops, i, stop);
        s4 = s3;
        s3 = s2;
        s2 = s1;
        s1 = stop;
    }
}

// Whether characters that stop at `stop` can end at e.
#[tactic(auto, unfolding(crate::specs::Stops::ends_at))]
fn ends(store: &[u8], stop: usize, e: usize) -> bool
    requires { stop ≤ length store.now }
    ensures { result ≡ ends_at store.now stop e }
{
    stop == e || e < stop && !matches!(store[e], 0x80..=0xbf)
}

// Whether the part from p to e is UTF-8: character by character up to a place that the table has.
pub fn is_part(stops: &[u32; 4096], store: &[u8], p: usize, e: usize) -> bool
    requires store_len_bound { length store.now ≤ max_store }
    requires stops { Stops store.now stops.now }
    requires p_le_e { p ≤ e }
    requires e_in_bounds { e ≤ length store.now }
    ensures { result ≡ is_part store.now p e }
{
    let mut i = p;
    while i < e {
        if i % 64 < 4 {
            return ends(store, stops[i / 64 * 4 + i % 64] as usize, e);
        }
        let sequence = text::char_at(store, i);
        match sequence {
            Some((_, n)) => {
                if e - i < n {
                    return false;
                }
                i += n;
            }
            None => {
                return false;
            }
        }
    }
    true
}
