// The program for camera lines: reads a layout on descriptor 7, at the tagged level, and runs a rule of it over
// each line of standard input. It writes a line for each: `LENGTH STEPS`, `none STEPS` or `refused N at P`. A
// line may take 1,000,000 steps. All of that is the promise of `show::read_layout` and `rows::answer_block`;
// the rest moves bytes.
//
// Its arguments are the layout's name, for its complaints, and the rule's. It works in blocks: the whole lines
// that have come are answered at once, and of the last one what has come is kept until its end does. That this
// changes nothing is proved beside them (`answers_first` and `answers_after` in crates/rows/proofs/Blocks.antt).
#![tactic(auto)]

ghost use Rattle.std.specs.Prelude.{◌≤◌, length, IfOk};
ghost use Rattle.program.specs.Input.{Within};

use program::Input;
use rows::Block;
use show::Layout;
use std::io::Read;
use std::rt::Env;
use table::inner::layout::{NODE_SIZE, RULE_SIZE};
use text::limits;

const STEPS: u64 = 1000000;

// A layout's tables, and the index of the rule that is run over the lines.
#[derive(Clone, Copy)]
struct Rule<'a> {
    nodes: &'a [u32],
    rules: &'a [u32],
    store: &'a [u8],
    start: usize,
}

// A place in a text, and whether there was a refusal so far.
#[derive(Clone, Copy)]
struct Place {
    at: usize,
    refused: bool,
}

// The program is to end, and has told why.
#[derive(Clone, Copy)]
struct Ended;

// Writes an argument on standard error, with a `?` for each byte that would spoil a line.
fn complain_word(rt: &impl Env, i: usize) {
    let mut buffer = io::large_buffer();
    let n = program::word(rt, i, &mut buffer);
    let word = &mut buffer[..n];
    for b in word.iter_mut() {
        if b.is_ascii_control() {
            *b = b'?';
        }
    }
    io::write_all(2, word);
}

// What can't be run, in a line.
fn complain(rt: &impl Env, what: &[u8], number: u64, place: u64) {
    io::write_all(2, b"lines: ");
    complain_word(rt, 1);
    io::write_all(2, what);
    io::print_decimal(2, number);
    io::write_all(2, b" at ");
    io::print_decimal(2, place);
    io::write_all(2, b"\n");
    program::tell(rt, b'1');
}

fn complain_rule(rt: &impl Env) {
    io::write_all(2, b"lines: ");
    complain_word(rt, 1);
    io::write_all(2, b" has no rule ");
    complain_word(rt, 2);
    io::write_all(2, b"\n");
    program::tell(rt, b'1');
}

// Writes the answers to the first lines of a text, and says where the others begin.
fn answer_some(rt: &impl Env, rule: Rule, text: &[u8]) -> Result<Place, Ended>
    ensures { IfOk result (λ p. p.at ≤ length text.now) }
{
    let mut out = [0u8; limits::STORE];
    let block = rows::answer_block(
        rule.nodes, rule.rules, rule.store, rule.start, text, STEPS, &mut out,
    );
    match block {
        Block::Lines {
            size,
            next,
            refused,
        } => {
            if io::write_all(1, &out[..size]) {
                return Ok(Place {
                    at: next,
                    refused: refused != 0,
                });
            }
            program::fail(rt, b"lines", b": standard output could not be written\n");
        }
        Block::Refused { number, place } => complain(rt, b" can't be run: ", number, place),
        Block::NoRoom => program::fail(rt, b"lines", b": the answers have no room\n"),
    }
    Err(Ended)
}

// Writes the answers to all lines of a text, and says whether there was a refusal.
fn answer(rt: &impl Env, rule: Rule, text: &[u8]) -> Result<bool, Ended> {
    let mut at = 0;
    let mut refused = false;
    while at < text.len() {
        let next = answer_some(rt, rule, &text[at..])?;
        refused = refused || next.refused;
        if next.at == 0 {
            break;
        }
        at += next.at;
    }
    Ok(refused)
}

// Reads once, behind the bytes that were kept. At the input's end there are no more than those.
fn read_more(input: &mut impl Read, text: &mut [u8], kept: usize) -> Input
    requires { kept ≤ length text.old }
    ensures { Within result (length text.new) }
{
    match input.read(&mut text[kept..]) {
        Ok(n) => Input::Bytes(kept + n),
        Err(_) => Input::Failed,
    }
}

// Reads once, answers the whole lines that have come, and keeps the rest: its end is the place. Where nothing more
// comes it answers the last line, which has no end, and tells how all went.
fn take_turn(
    rt: &impl Env,
    input: &mut impl Read,
    rule: Rule,
    text: &mut [u8],
    kept: Place,
) -> Result<Place, Ended>
    requires { kept.at ≤ length text.old }
    ensures { IfOk result (λ p. p.at ≤ length text.new) }
{
    let came = read_more(input, text, kept.at);
    let Input::Bytes(have) = came else {
        program::fail(rt, b"lines", b": standard input could not be read\n");
        return Err(Ended);
    };
    if have == kept.at {
        let refused = answer(rt, rule, &text[..have])? || kept.refused;
        program::tell(rt, if refused { b'1' } else { b'0' });
        return Err(Ended);
    }
    let whole = rows::whole_lines(&text[..have]);
    if whole == 0 {
        if have == text.len() {
            program::fail(rt, b"lines", b": a line has more than 65,536 bytes\n");
            return Err(Ended);
        }
        return Ok(Place { at: have, ..kept });
    }
    let refused = answer(rt, rule, &text[..whole])? || kept.refused;
    text.copy_within(whole..have, 0);
    Ok(Place {
        at: have - whole,
        refused,
    })
}

// All lines. A line has at most one byte less than the buffer: a full buffer has a whole line in it, or one that
// is too long.
fn run(rt: &impl Env, input: &mut impl Read, rule: Rule) {
    let mut text = [0u8; limits::TEXT + 1];
    // tables that can't be run are told before a line is waited for
    if answer_some(rt, rule, b"").is_err() {
        return;
    }
    let mut kept = Place {
        at: 0,
        refused: false,
    };
    // a proved loop has to end: no run uses up its turns
    for _turn in 0..u64::MAX {
        let Ok(next) = take_turn(rt, input, rule, &mut text, kept) else {
            return;
        };
        kept = next;
    }
}

fn main(rt: HostRuntime) {
    let mut text = [0u8; limits::TEXT + 1];
    let mut name = [0u8; limits::TEXT + 1];
    let mut nodes = [0u32; NODE_SIZE * 2048];
    let mut rules = [0u32; RULE_SIZE * limits::RULES];
    let mut store = [0u8; limits::STORE];
    if !program::has_word(&rt, 2) {
        program::fail(&rt, b"lines", b": no layout and rule were named\n");
        return;
    }
    let input = program::read_all(&rt, 7, &mut text);
    let Input::Bytes(n) = input else {
        program::fail(&rt, b"lines", b": the layout could not be read\n");
        return;
    };
    let m = program::word(&rt, 2, &mut name);
    let layout = show::read_layout(&text[..n], &name[..m], &mut nodes, &mut rules, &mut store);
    match layout {
        Layout::Tables {
            nodes: a,
            rules: b,
            store: c,
            start,
        } => run(
            &rt,
            &mut rt.stdin(),
            Rule {
                nodes: &nodes[..a],
                rules: &rules[..b],
                store: &store[..c],
                start,
            },
        ),
        Layout::Refused { number, place } => complain(&rt, b" is refused: ", number, place),
        Layout::NoRule => complain_rule(&rt),
    }
}
