// Tokens as they arrive: a text is fed in packets and then ended, and each call writes the tokens
// whose end is known.
//
// The entry points stand here and ask nothing of their callers.
#![tactic(auto)]

mod passes;

ghost use Rattle.std.specs.Prelude.{◌≡◌};
ghost use Rattle.states.specs.Feed.{feed_of, feed_in, end_of, end_in};
ghost use Rattle.stream.specs.Shapes.{refusing, standing};

use states::{Call, Feed, Stand, Status};

// What a byte or the end gives: at most two tokens, and where the stream stands then.
#[derive(Clone, Copy)]
pub struct Moved {
    pub before: Option<(u32, u32, u32)>,
    pub here: Option<(u32, u32, u32)>,
    pub stand: Stand,
}

// A refusal, as `Call` reports it.
#[derive(Clone, Copy)]
pub struct Stop {
    pub number: usize,
    pub place: usize,
}

// How far a packet was read, and where the stream stands there.
#[derive(Clone, Copy)]
pub struct Part {
    pub stand: Stand,
    pub at: usize,
}

// A call that is refused, with so many records in the list: it reports none.
fn refused(number: usize, place: usize, records: usize) -> Call
    ensures { result ≡ refusing number place records }
{
    Call {
        number,
        place,
        records: 0,
        next: keep::inner::kept::held(number, place, records),
    }
}

// A call that is good.
fn good(c: Stand, records: usize) -> Call
    ensures { result ≡ standing c records }
{
    Call {
        number: 0,
        place: 0,
        records,
        next: keep::inner::kept::standing(c),
    }
}

// A packet. The list holds the records of the calls before, and those of this one are put behind
// them. A call that is refused leaves it as it is.
pub fn feed_packet(state: Feed, packet: &[u8], list: &mut [u32]) -> Call
    ensures answer { result ≡ feed_of state packet.now list.old }
    ensures held { list.new ≡ feed_in state packet.now list.old }
{
    let status = keep::inner::opened::status(state);
    match status {
        Status::Held(number, place, records) => refused(number, place, records),
        Status::Open(c) => {
            let t = text::inner::classes::classes();
            let ran = passes::feed(&t, c, packet, list);
            match ran {
                Err(stop) => refused(stop.number, stop.place, c.count),
                Ok(next) => good(next, next.count),
            }
        }
    }
}

// The text's end. After a good end the stream is fresh.
pub fn feed_end(state: Feed, list: &mut [u32]) -> Call
    ensures answer { result ≡ end_of state list.old }
    ensures held { list.new ≡ end_in state list.old }
{
    let status = keep::inner::opened::status(state);
    match status {
        Status::Held(number, place, records) => refused(number, place, records),
        Status::Open(c) => {
            let last = passes::last(list.len() / 3, c);
            match last {
                Err(stop) => refused(stop.number, stop.place, c.count),
                Ok(moved) => {
                    passes::rooms::put_two(list, c.count, moved.before, moved.here);
                    let records = c.count
                        + passes::rooms::many(moved.before)
                        + passes::rooms::many(moved.here);
                    good(moved.stand, records)
                }
            }
        }
    }
}
