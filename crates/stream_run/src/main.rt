// Runs the entry points of tokens as they arrive on the vectors of its standard input, and writes each
// with its answers. A line is calls over one state and one list; crates/calls says how they are written.
#![tactic(auto)]

fn run_line(line: &[u8]) {
    vectors::write(line);
    vectors::write(b" =");
    calls::run(line, 0);
    vectors::write(b"\n");
}

fn main() {
    vectors::run_lines(&mut io::large_buffer(), run_line);
}
