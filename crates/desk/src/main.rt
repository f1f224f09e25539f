// The desk's program: reads a grammar on standard input, at the tagged level, and writes its printed
// text, or one line `refused N at P`.
#![tactic(auto)]

use forms::Style;

fn main(rt: HostRuntime) {
    program::print_input(&rt, b"desk", Style::Full);
}
