// Long packets. Between tokens the next one is found as in a whole text, which is much faster than the
// table. What is found is stashed, since a call that is refused writes nothing.
ghost use Rattle.std.specs.Prelude.{◌≡◌, true, ◌+◌, ◌*◌, ◌≤◌, ◌<◌, length, take};
ghost use Rattle.std.proofs.lemmas.List.Edits.{sets};
ghost use Rattle.text.specs.Classes.{classes};
ghost use Rattle.token.specs.Table.{flat, room_of};
ghost use Rattle.states.specs.Steps.{ran_of};
ghost use Rattle.stream.specs.Shapes.{ran_by, gives_of, Coherent};
ghost use Rattle.stream.specs.Quick.{start_at, is_between, Free, HoldsIf, Leapt};

use super::rooms;
use crate::{Part, Stop};
use states::{Conf, Stand, State, Utf};
use steps::inner::transitions::moves;
use text::limits;
use token::Token;

// The stream stands between tokens and between characters.
#[tactic(auto, unfolding(crate::specs::Quick::is_between))]
fn between(c: Stand) -> bool
    ensures { result ≡ is_between c }
{
    matches!(c.conf.state, State::Start) && matches!(c.utf, Utf::Whole)
}

fn start_at(place: usize, count: usize) -> Stand
    ensures { result ≡ start_at place count }
{
    Stand {
        conf: Conf {
            state: State::Start,
            start: place,
            size: 0,
        },
        utf: Utf::Whole,
        seen: place,
        count,
    }
}

// A packet may begin inside a token: by the table, up to the first place between tokens.
fn settle(t: &[u8; 256], room: usize, from: Stand, packet: &[u8], stash: &mut [u32]) -> Part
    requires t_value { t.now ≡ classes }
    requires coherent { Coherent from }
    ensures { Leapt room from 0 0 packet.now stash.old stash.new result.stand result.at }
{
    let space = stash.len() / 3;
    let mut c = from;
    let mut n = 0;
    for (i, x) in packet.iter().enumerate() {
        // A byte may end two tokens.
        if between(c) || space < n + 2 {
            return Part { stand: c, at: i };
        }
        let Ok(moved) = super::step(t, room, c, *x) else {
            return Part { stand: c, at: i };
        };
        rooms::put_two(stash, n, moved.before, moved.here);
        n += rooms::many(moved.before) + rooms::many(moved.here);
        c = moved.stand;
    }
    Part {
        stand: c,
        at: packet.len(),
    }
}

// The end of a token is known: a doc's where its line's end is there too.
fn ahead(t: &[u8; 256], packet: &[u8], at: usize) -> Option<(usize, usize, usize)>
    requires { t.now ≡ classes }
    ensures { HoldsIf packet.now at result }
{
    match token::inner::token_at(t, packet, at) {
        Token::End | Token::NoToken(_) => None,
        Token::Found { kind, start, end } => {
            if packet.len() <= end || packet.len() - end < 2 || 128 <= packet[end] {
                return None;
            }
            Some((usize::from(kind), start, end))
        }
    }
}

// The stream stands between tokens, and no byte of the rest is refused by 1 or 2.
fn may_leap(c: Stand, rest: &[u8]) -> bool
    requires { Coherent c }
    ensures { result ≡ true → Free c rest.now }
{
    if limits::TEXT - c.seen < rest.len() || !between(c) {
        return false;
    }
    matches!(text::first_bad(rest), None)
}

// From token to token, as long as the packet holds their ends and there is room for them. In the stash
// stand m records.
fn leap(
    t: &[u8; 256],
    room: usize,
    from: Stand,
    i: usize,
    m: usize,
    packet: &[u8],
    stash: &mut [u32],
) -> Part
    requires t_value { t.now ≡ classes }
    requires coherent { Coherent from }
    requires i_in_bounds { i ≤ length packet.now }
    requires m_bound { m ≤ room_of stash.old }
    ensures { Leapt room from i m packet.now stash.old stash.new result.stand result.at }
{
    if !may_leap(from, &packet[i..]) {
        return Part { stand: from, at: i };
    }
    let space = stash.len() / 3;
    let mut seen = from.seen;
    let mut count = from.count;
    let mut at = i;
    for n in m..space {
        if room <= count {
            break;
        }
        let Some((kind, start, end)) = ahead(t, packet, at) else {
            break;
        };
        let token = moves::token(kind, seen + (start - at), seen + (end - at));
        rooms::put(stash, n, token);
        seen += end - at;
        count += 1;
        at = end;
    }
    Part {
        stand: start_at(seen, count),
        at,
    }
}

// The first n numbers of the stash, into the list at a place.
fn copy(list: &mut [u32], at: usize, stash: &[u32], n: usize)
    requires n_in_bounds { n ≤ length stash.now }
    requires n_in_bounds_2 { 0 < n → at + n ≤ length list.old }
    ensures { list.new ≡ sets list.old at (take n stash.now) }
{
    if 0 < n {
        list[at..at + n].copy_from_slice(&stash[..n]);
    }
}

// A packet may end inside a character: up to its last ASCII byte.
fn cut(packet: &[u8]) -> usize
    ensures { result ≤ length packet.now }
{
    packet
        .iter()
        .rposition(|b| *b < 128)
        .map_or(0, |last| last + 1)
}

// A packet.
pub(crate) fn fast(
    t: &[u8; 256],
    from: Stand,
    packet: &[u8],
    list: &mut [u32],
) -> Result<Stand, Stop>
    requires t_value { t.now ≡ classes }
    requires coherent { Coherent from }
    ensures answer { result ≡ ran_by (ran_of (room_of list.old) from packet.now) }
    ensures held { list.new ≡ sets list.old (from.count * 3) (flat (gives_of (ran_of (room_of list.old) from packet.now))) }
{
    let mut stash = [0; 6144];
    let room = list.len() / 3;
    let end = cut(packet);
    let front = settle(t, room, from, &packet[0..end], &mut stash);
    let s = front.stand;
    let middle = leap(
        t,
        room,
        s,
        front.at,
        s.count - from.count,
        &packet[0..end],
        &mut stash,
    );
    let c = middle.stand;
    let at = middle.at;
    let next = super::run(t, room, c, &packet[at..])?;
    copy(list, from.count * 3, &stash, (c.count - from.count) * 3);
    super::write(t, c, &packet[at..], list);
    Ok(next)
}
