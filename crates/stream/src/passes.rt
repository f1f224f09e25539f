// A byte, a packet and the end: what is refused, where the stream stands then, and the tokens.
mod quick;
pub(crate) mod rooms;

ghost use Rattle.std.specs.Prelude.{◌≡◌, true, suc, ◌*◌, ◌≤◌};
ghost use Rattle.std.proofs.lemmas.List.Edits.{sets};
ghost use Rattle.text.specs.Classes.{classes};
ghost use Rattle.text.specs.Limits.{max_text};
ghost use Rattle.token.specs.Table.{flat, room_of};
ghost use Rattle.states.specs.Steps.{long_at, step_of, ran_of, last_of};
ghost use Rattle.steps.specs.Shapes.{out_of};
ghost use Rattle.stream.specs.Shapes.{taken_by, stepped_of, ran_by, gives_of, is_good, Coherent};

use crate::{Moved, Stop};
use states::{Stand, Utf};
use steps::Row;
use text::limits;

// One byte more is too many.
#[tactic(auto, unfolding(states::specs::Steps::long_at))]
fn long(seen: usize) -> Option<usize>
    ensures { result ≡ long_at (suc seen) }
{
    if limits::TEXT <= seen {
        return Some(0);
    }
    None
}

// A byte that UTF-8 took to a state and the table to a row: 3, then 14.
fn take(room: usize, c: Stand, utf: Utf, row: Row) -> Result<Moved, Stop>
    requires seen_le_max_text { c.seen ≤ max_text }
    requires count_le_max_text { c.count ≤ max_text }
    ensures { stepped_of result ≡ taken_by room c utf (out_of row) }
{
    if let Some(place) = keep::inner::kept::refused(row.conf) {
        return Err(Stop { number: 3, place });
    }
    if let Some(place) = rooms::over_two(room, c.count, row.before, row.here) {
        return Err(Stop { number: 14, place });
    }
    Ok(Moved {
        before: row.before,
        here: row.here,
        stand: Stand {
            conf: row.conf,
            utf,
            seen: c.seen + 1,
            count: c.count + rooms::many(row.before) + rooms::many(row.here),
        },
    })
}

// A byte: its faults in the order 1, 2, 3, 14.
fn step(t: &[u8; 256], room: usize, c: Stand, x: u8) -> Result<Moved, Stop>
    requires t_value { t.now ≡ classes }
    requires coherent { Coherent c }
    ensures { stepped_of result ≡ step_of room c x }
{
    if let Some(place) = long(c.seen) {
        return Err(Stop { number: 1, place });
    }
    let utf = steps::inner::utf8::step(c.utf, c.seen, x);
    if let Some(place) = steps::inner::utf8::broken(utf) {
        return Err(Stop { number: 2, place });
    }
    take(room, c, utf, steps::inner::transitions::step(t, c.conf, x))
}

// The first pass over a packet writes nothing.
pub(crate) fn run(t: &[u8; 256], room: usize, from: Stand, packet: &[u8]) -> Result<Stand, Stop>
    requires t_value { t.now ≡ classes }
    requires coherent { Coherent from }
    ensures { result ≡ ran_by (ran_of room from packet.now) }
{
    let mut c = from;
    for x in packet {
        match step(t, room, c, *x) {
            Ok(moved) => c = moved.stand,
            Err(stop) => return Err(stop),
        }
    }
    Ok(c)
}

// The second writes the tokens of a packet that is good.
pub(crate) fn write(t: &[u8; 256], from: Stand, packet: &[u8], list: &mut [u32])
    requires t_value { t.now ≡ classes }
    requires coherent { Coherent from }
    requires packet_value { is_good (ran_of (room_of list.old) from packet.now) ≡ true }
    ensures { list.new ≡ sets list.old (from.count * 3) (flat (gives_of (ran_of (room_of list.old) from packet.now))) }
{
    let room = list.len() / 3;
    let mut c = from;
    for x in packet {
        let Ok(moved) = step(t, room, c, *x) else {
            return;
        };
        rooms::put_two(list, c.count, moved.before, moved.here);
        c = moved.stand;
    }
}

// Both passes.
fn both(t: &[u8; 256], from: Stand, packet: &[u8], list: &mut [u32]) -> Result<Stand, Stop>
    requires t_value { t.now ≡ classes }
    requires coherent { Coherent from }
    ensures answer { result ≡ ran_by (ran_of (room_of list.old) from packet.now) }
    ensures held { list.new ≡ sets list.old (from.count * 3) (flat (gives_of (ran_of (room_of list.old) from packet.now))) }
{
    let next = run(t, list.len() / 3, from, packet)?;
    write(t, from, packet, list);
    Ok(next)
}

// A packet: its refusal, or where the stream stands then, with the tokens in the list. A short one
// isn't worth the stash.
pub(crate) fn feed(
    t: &[u8; 256],
    from: Stand,
    packet: &[u8],
    list: &mut [u32],
) -> Result<Stand, Stop>
    requires t_value { t.now ≡ classes }
    requires coherent { Coherent from }
    ensures answer { result ≡ ran_by (ran_of (room_of list.old) from packet.now) }
    ensures held { list.new ≡ sets list.old (from.count * 3) (flat (gives_of (ran_of (room_of list.old) from packet.now))) }
{
    if packet.len() < 512 {
        return both(t, from, packet, list);
    }
    quick::fast(t, from, packet, list)
}

// The text's end.
pub(crate) fn last(room: usize, c: Stand) -> Result<Moved, Stop>
    requires { Coherent c }
    ensures { stepped_of result ≡ last_of room c }
{
    if let Some(place) = steps::inner::utf8::ended(c.utf) {
        return Err(Stop { number: 2, place });
    }
    let finish = steps::inner::ends::finish(c.conf);
    if let Some(place) = finish.fault {
        return Err(Stop { number: 3, place });
    }
    if let Some(place) = rooms::over(room, c.count, finish.token) {
        return Err(Stop { number: 14, place });
    }
    Ok(Moved {
        before: None,
        here: finish.token,
        stand: keep::inner::opened::fresh(),
    })
}
