// Calls of tokens as they arrive, each a word of a line, and what they answer.
//
// - rN: the list lent has N numbers from here on, at most 600.
// - tTEXT, xHEX, nCOUNT:HEX,..: a packet as it stands; in hex; made of pieces.
// - e: the text's end.
// - sN,N,..: the ten numbers of the state, whoever made them.
//
// For each call its number, its place and the records are written, and a semicolon. CHANGED stands before
// that where a refused call changed the list, or a good one what isn't behind the records of the calls before
// or is behind its own. At the end stand the records that the list holds.
#![tactic(auto)]

ghost use Rattle.std.specs.Prelude.{◌≤◌};

use states::{Call, Feed};

// The numbers of a list: three for each of 200 records.
const NUMBERS: usize = 600;

// Between calls: the state, the list and how many of its numbers are lent, the text's records so far, and the
// most that a call reported.
#[derive(Drop)]
struct Case {
    state: Feed,
    list: [u32; NUMBERS],
    room: usize,
    held: usize,
    most: usize,
}

// The numbers of so many records.
fn numbers(records: usize) -> usize
    ensures { result ≤ 600 }
{
    3 * records.min(NUMBERS / 3)
}

// A number of a list in which a comma stands behind each; 0 where there are fewer.
fn nth(s: &[u8], k: usize) -> usize {
    s.split(|b| *b == b',')
        .nth(k)
        .map_or(0, |digits| vectors::number(digits) as usize)
}

fn state_of(s: &[u8]) -> Feed {
    Feed {
        state: nth(s, 0),
        start: nth(s, 1),
        seen: nth(s, 2),
        backslash: nth(s, 3),
        kind: nth(s, 4),
        depth: nth(s, 5),
        utf: nth(s, 6),
        sequence: nth(s, 7),
        count: nth(s, 8),
        number: nth(s, 9),
    }
}

fn write_call(call: Call, kept: bool) {
    vectors::write_number(call.number);
    vectors::write_number(call.place);
    vectors::write_number(call.records);
    if !kept {
        vectors::write(b" CHANGED");
    }
    vectors::write(b";");
}

impl Case {
    fn new() -> Self {
        Case {
            state: state_of(b""),
            list: [2863311530; NUMBERS],
            room: 0,
            held: 0,
            most: 0,
        }
    }

    // Whether a call left what it was to leave of the list.
    fn kept(&self, call: Call, before: &[u32; NUMBERS]) -> bool {
        if call.number != 0 {
            return self.list.starts_with(before);
        }
        self.list.starts_with(&before[..numbers(self.held)])
            && self.list.ends_with(&before[numbers(call.records)..])
    }

    // A packet, or none at the text's end.
    fn call(&mut self, packet: Option<&[u8]>) {
        let state = self.state;
        let before = self.list;
        let room = self.room.min(NUMBERS);
        let lent = &mut self.list[..room];
        let call = match packet {
            Some(bytes) => stream::feed_packet(state, bytes, lent),
            None => stream::feed_end(state, lent),
        };
        write_call(call, self.kept(call, &before));
        self.state = call.next;
        if call.number == 0 {
            self.held = if packet.is_some() { call.records } else { 0 };
            self.most = self.most.max(call.records);
        }
    }

    fn call_hex(&mut self, s: &[u8]) {
        let mut packet = [0u8; 1024];
        let n = vectors::unhex(s, &mut packet);
        self.call(Some(&packet[..n]));
    }

    fn call_pieces(&mut self, s: &[u8]) {
        let mut packet = [0u8; 70100];
        let n = vectors::parts(s, &mut packet);
        self.call(Some(&packet[..n]));
    }

    fn run_word(&mut self, word: &[u8]) {
        let Some((letter, rest)) = word.split_first() else {
            return;
        };
        match letter {
            b'r' => self.room = vectors::number(rest) as usize,
            b't' => self.call(Some(rest)),
            b'x' => self.call_hex(rest),
            b'n' => self.call_pieces(rest),
            b'e' => self.call(None),
            b's' => {
                self.state = state_of(rest);
                self.held = 0;
            }
            _ => {}
        }
    }
}

// The calls of a line from a place on, over one state and one list.
pub fn run(line: &[u8], from: usize) {
    let mut case = Case::new();
    for word in line.get(from..).unwrap_or(&[]).split(|b| *b == b' ') {
        case.run_word(word);
    }
    vectors::write_list(&case.list[..numbers(case.most)]);
}
