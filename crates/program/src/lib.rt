// What programs that read texts and write what is shown of them have in common. `name` is the program's, for
// its complaints.
//
// A program in Rattle has no exit status. One that was started with an argument, whatever it says, tells its
// launcher how it ended by one byte on descriptor 3: `0` all was written and nothing refused, `1` something
// was refused, `2` input or output failed. Without an argument it leaves descriptor 3 alone.
#![tactic(auto)]

pub mod inner;

ghost use Rattle.std.specs.Prelude.{◌≤◌, length};
ghost use Rattle.program.specs.Input.{Within};

use forms::Style;
use std::env::FillError;
use std::io::Read;
use std::rt::Env;
use std_io::io::last_error;
use text::limits;

// The bytes that were read, up to the input's end or the buffer's; or reading failed.
#[derive(Clone, Copy)]
pub enum Input {
    Bytes(usize),
    Failed,
}

// Whether the program was started with a word of that number. Its own name is word 0.
pub fn has_word(rt: &impl Env, i: usize) -> bool {
    !matches!(rt.arg(i, &mut []), Err(FillError::NotPresent))
}

// Puts a word that the program was started with at the buffer's start, and answers its length: 0 where there is
// none, and where it has no room. Then the buffer is full of its first bytes. It need not be UTF-8.
pub fn word(rt: &impl Env, i: usize, buf: &mut [u8]) -> usize
    ensures { result ≤ length buf.new }
{
    rt.arg(i, buf).unwrap_or(0)
}

// Tells the launcher.
pub fn tell(rt: &impl Env, verdict: u8) {
    if has_word(rt, 1) || !has_word(rt, 0) {
        io::write_all(3, &[verdict]);
    }
}

// A failure, told in a line.
pub fn fail(rt: &impl Env, name: &[u8], what: &[u8]) {
    io::write_all(2, name);
    io::write_all(2, what);
    tell(rt, b'2');
}

// The number of the system's last error, once it is one that no read gives: to ask for a word and lend no room
// sets it to none, or to that of a name that is too long.
fn mark_error(rt: &impl Env) -> Option<i32> {
    has_word(rt, 0);
    last_error().raw_os_error()
}

// All that a descriptor has, however it arrives. `io::read_full` can't tell an end from a failure, but a read that
// failed has left its error.
pub fn read_all(rt: &impl Env, fd: i32, buf: &mut [u8]) -> Input
    ensures { Within result (length buf.new) }
{
    let mark = mark_error(rt);
    let n = io::read_full(fd, buf);
    if n < buf.len() && last_error().raw_os_error() != mark {
        return Input::Failed;
    }
    Input::Bytes(n)
}

// All that a reader has, however it arrives.
fn fill(reader: &mut impl Read, buf: &mut [u8]) -> Input
    ensures { Within result (length buf.new) }
{
    let mut done = 0;
    while done < buf.len() {
        let Ok(n) = reader.read(&mut buf[done..]) else {
            return Input::Failed;
        };
        if n == 0 {
            return Input::Bytes(done);
        }
        done += n;
    }
    Input::Bytes(done)
}

// Standard input. A failure is told, and the program is to end.
pub fn read_input(rt: &(impl Env + std::io::Input), name: &[u8], buf: &mut [u8]) -> Input
    ensures { Within result (length buf.new) }
{
    let input = fill(&mut rt.reader(), buf);
    if matches!(input, Input::Failed) {
        fail(rt, name, b": standard input could not be read\n");
    }
    input
}

// All that the programs desk and short do: a grammar from standard input, its text in a style or the line of its
// refusal to standard output. What is written is the promise of `show::desk`; the rest moves bytes.
pub fn print_input(rt: &(impl Env + std::io::Input), name: &[u8], style: Style) {
    let mut text = [0u8; limits::TEXT + 1];
    let mut out = [0u8; 65536];
    let input = read_input(rt, name, &mut text);
    let Input::Bytes(n) = input else {
        return;
    };
    let shown = show::desk(style, &text[..n], &mut out);
    inner::write_shown(rt, name, shown, &out);
}

fn write_output(rt: &impl Env, name: &[u8], out: &[u8], verdict: u8) {
    if io::write_all(1, out) {
        tell(rt, verdict);
    } else {
        fail(rt, name, b": standard output could not be written\n");
    }
}
