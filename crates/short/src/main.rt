// The program `short`: the desk in the other style. It writes a grammar's short text, or one line `refused N at P`.
#![tactic(auto)]

use forms::Style;

fn main(rt: HostRuntime) {
    program::print_input(&rt, b"short", Style::Short);
}
