// The program for texts that arrive: writes a line `KIND START END` for each token of standard input as soon as
// its end is known. Where the text is refused it writes the line `refused N at P`, and ends.
//
// What one read gives is a packet, so nothing waits for a buffer to fill. What a packet adds to the list of
// tokens is the promise of `stream::feed_packet`, and what is written of it that of `rows::token_lines`; the rest
// moves bytes. The list has room for every text, so 14 is never given.
#![tactic(auto)]

use states::{Call, Feed};
use std::io::Read;
use std::rt::Env;
use text::limits;
use token::inner::listing::TOKEN_SIZE;

// The program is to end, and has told why.
#[derive(Clone, Copy)]
struct Ended;

// A stream of which nothing has come.
fn fresh() -> Feed {
    Feed {
        state: 0,
        start: 0,
        seen: 0,
        backslash: 0,
        kind: 0,
        depth: 0,
        utf: 0,
        sequence: 0,
        count: 0,
        number: 0,
    }
}

// Writes bytes.
fn write(rt: &impl Env, out: &[u8]) -> Result<(), Ended> {
    if io::write_all(1, out) {
        return Ok(());
    }
    program::fail(rt, b"arrive", b": standard output could not be written\n");
    Err(Ended)
}

// Writes the line of a refusal, at which the program ends.
fn refuse(rt: &impl Env, number: usize, place: usize) -> Result<(), Ended> {
    let mut out = [0u8; 64];
    let put = rows::refusal(number as u64, place as u64, &mut out);
    let Some(n) = put else {
        program::fail(rt, b"arrive", b": the refusal has no room\n");
        return Err(Ended);
    };
    write(rt, &out[..n])?;
    program::tell(rt, b'1');
    Err(Ended)
}

// Writes the lines of a list's records from one on up to another. A packet has 1,024 bytes at most, so it ends
// 1,025 tokens at most, and their lines have room.
fn write_new(rt: &impl Env, list: &[u32], from: usize, to: usize) -> Result<(), Ended> {
    let mut out = [0u8; 33825];
    if list.len() / 3 < to {
        program::fail(rt, b"arrive", b": the list is too short\n");
        return Err(Ended);
    }
    if to <= from {
        return Ok(());
    }
    let put = rows::token_lines(&list[3 * from..3 * to], &mut out);
    let Some(n) = put else {
        program::fail(rt, b"arrive", b": the tokens have no room\n");
        return Err(Ended);
    };
    write(rt, &out[..n])
}

// Writes what a call gave behind the records before, or its refusal.
fn write_call(rt: &impl Env, call: Call, before: usize, list: &[u32]) -> Result<(), Ended> {
    if call.number != 0 {
        return refuse(rt, call.number, call.place);
    }
    write_new(rt, list, before, call.records)
}

// Reads once, and feeds what has come; or ends the text where nothing more comes. What to keep for the next packet.
fn take_turn(
    rt: &impl Env,
    input: &mut impl Read,
    state: Feed,
    list: &mut [u32],
) -> Result<Feed, Ended> {
    let mut packet = [0u8; 1024];
    let Ok(n) = input.read(&mut packet) else {
        program::fail(rt, b"arrive", b": standard input could not be read\n");
        return Err(Ended);
    };
    if n == 0 {
        let last = stream::feed_end(state, list);
        write_call(rt, last, state.count, list)?;
        program::tell(rt, b'0');
        return Err(Ended);
    }
    let call = stream::feed_packet(state, &packet[..n], list);
    write_call(rt, call, state.count, list)?;
    Ok(call.next)
}

fn main(rt: HostRuntime) {
    let mut list = [0u32; TOKEN_SIZE * limits::TEXT];
    let mut input = rt.stdin();
    let mut state = fresh();
    // a proved loop has to end: no run uses up its turns
    for _turn in 0..u64::MAX {
        let Ok(next) = take_turn(&rt, &mut input, state, &mut list) else {
            return;
        };
        state = next;
    }
}
