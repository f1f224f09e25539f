// The archive for C: the functions of `exports` under their C names, each with its very clauses. A library that
// other crates stand on is no archive, so these stand in a crate of their own.
//
// include/flascjuvan.h declares them.
#![tactic(auto)]

ghost use Rattle.std.specs.Prelude.{◌≡◌, length};
ghost use Rattle.token.specs.Lister.{lister};
ghost use Rattle.forms.specs.declared.Style.TheVariants.{Full, Short};
ghost use Rattle.printer.specs.Answers.{print_of, print_in};
ghost use Rattle.printer.specs.Answers.{reported as printReported};
ghost use Rattle.structure.specs.declared.Edition.TheVariants.{First};
ghost use Rattle.reader.specs.Read.{room_for_nodes, room_for_rules, read_of, Leaves};
ghost use Rattle.reader.specs.Read.{reported as readReported};
ghost use Rattle.matcher.specs.Answers.{match_of};
ghost use Rattle.replies.specs.Replies.{numbered as lineNumbered, tallied, finding};
ghost use Rattle.matcher.specs.Lines.{fields, lines_of, records_of};
ghost use Rattle.matcher.specs.Sought.{found_of};
ghost use Rattle.states.specs.Feed.{feed_of, feed_in, end_of, end_in};
ghost use Rattle.numbers.specs.Numbers.{level_of, edition_of, read_numbers, print_numbers, token_numbers, tally_numbers, finding_numbers, call_numbers, feed_numbers, feed_from};

// Reads a text by the first edition into the fronts of three buffers. The answer: number, place, nodes, rules, store
// bytes.
#[unsafe(no_mangle)]
pub extern "C" fn flascjuvan_read(
    text: &[u8],
    tagged: u32,
    nodes: &mut [u32],
    rules: &mut [u32],
    store: &mut [u8],
    answer: &mut [u64; 5],
)
    ensures answered { answer.new ≡ read_numbers (readReported First (level_of tagged) text.now (room_for_nodes nodes.old) (room_for_rules rules.old) (length store.old)) }
    ensures left { Leaves (level_of tagged) text.now (read_of First (level_of tagged) text.now (room_for_nodes nodes.old) (room_for_rules rules.old) (length store.old)) nodes.old rules.old store.old nodes.new rules.new store.new }
{
    exports::flascjuvan_read(text, tagged, nodes, rules, store, answer);
}

// The same, by the edition that a number names: 0 and 1 are the first, every other is the second.
#[unsafe(no_mangle)]
pub extern "C" fn flascjuvan_read_edition(
    text: &[u8],
    tagged: u32,
    edition: u32,
    nodes: &mut [u32],
    rules: &mut [u32],
    store: &mut [u8],
    answer: &mut [u64; 5],
)
    ensures answered { answer.new ≡ read_numbers (readReported (edition_of edition) (level_of tagged) text.now (room_for_nodes nodes.old) (room_for_rules rules.old) (length store.old)) }
    ensures left { Leaves (level_of tagged) text.now (read_of (edition_of edition) (level_of tagged) text.now (room_for_nodes nodes.old) (room_for_rules rules.old) (length store.old)) nodes.old rules.old store.old nodes.new rules.new store.new }
{
    exports::flascjuvan_read_edition(text, tagged, edition, nodes, rules, store, answer);
}

// Prints tables in the full style to the front of an output. The answer: number, place, bytes used.
#[unsafe(no_mangle)]
pub extern "C" fn flascjuvan_print(
    nodes: &[u32],
    rules: &[u32],
    store: &[u8],
    out: &mut [u8],
    answer: &mut [u64; 3],
)
    ensures answered { answer.new ≡ print_numbers (printReported Full nodes.now rules.now store.now (length out.old)) }
    ensures written { out.new ≡ print_in Full nodes.now rules.now store.now out.old (print_of Full nodes.now rules.now store.now (length out.old)) }
{
    exports::flascjuvan_print(nodes, rules, store, out, answer);
}

// The same, in the short style.
#[unsafe(no_mangle)]
pub extern "C" fn flascjuvan_print_short(
    nodes: &[u32],
    rules: &[u32],
    store: &[u8],
    out: &mut [u8],
    answer: &mut [u64; 3],
)
    ensures answered { answer.new ≡ print_numbers (printReported Short nodes.now rules.now store.now (length out.old)) }
    ensures written { out.new ≡ print_in Short nodes.now rules.now store.now out.old (print_of Short nodes.now rules.now store.now (length out.old)) }
{
    exports::flascjuvan_print_short(nodes, rules, store, out, answer);
}

// The next token of a text from a place on. The answer: number, place, kind, start, end.
#[unsafe(no_mangle)]
pub extern "C" fn flascjuvan_next_token(text: &[u8], at: usize, answer: &mut [u64; 5])
    ensures answered { answer.new ≡ token_numbers (lister text.now at) }
{
    exports::flascjuvan_next_token(text, at, answer);
}

// Runs the rule at an index over a line. The answer: number, place, 1 for a match, its length, steps.
#[unsafe(no_mangle)]
pub extern "C" fn flascjuvan_match(
    nodes: &[u32],
    rules: &[u32],
    store: &[u8],
    start: usize,
    line: &[u8],
    allowance: u64,
    answer: &mut [u64; 5],
)
    ensures answered { answer.new ≡ fields (lineNumbered (match_of nodes.now rules.now store.now start line.now allowance)) }
{
    exports::flascjuvan_match(nodes, rules, store, start, line, allowance, answer);
}

// Runs the rule at an index over each line of a text, and writes the numbers of each line's answer to the
// front of the records. The answer: number, place, lines, the place where the next one begins.
#[unsafe(no_mangle)]
pub extern "C" fn flascjuvan_match_lines(
    nodes: &[u32],
    rules: &[u32],
    store: &[u8],
    start: usize,
    text: &[u8],
    allowance: u64,
    records: &mut [u64],
    answer: &mut [u64; 4],
)
    ensures answered { answer.new ≡ tally_numbers (tallied (lines_of nodes.now rules.now store.now start text.now (length records.old))) }
    ensures written { records.new ≡ records_of nodes.now rules.now store.now start text.now allowance records.old }
{
    exports::flascjuvan_match_lines(nodes, rules, store, start, text, allowance, records, answer);
}

// The lowest rule of a name. The answer: number, place, the rule's index.
#[unsafe(no_mangle)]
pub extern "C" fn flascjuvan_rule_named(
    nodes: &[u32],
    rules: &[u32],
    store: &[u8],
    name: &[u8],
    answer: &mut [u64; 3],
)
    ensures answered { answer.new ≡ finding_numbers (finding (found_of nodes.now rules.now store.now name.now)) }
{
    exports::flascjuvan_rule_named(nodes, rules, store, name, answer);
}

// Feeds a packet to a stream, and puts the tokens whose end is known behind the list's records. All zeros is a
// fresh stream. The answer: number, place, records in the list.
#[unsafe(no_mangle)]
pub extern "C" fn flascjuvan_feed(
    state: &mut [u64; 10],
    packet: &[u8],
    list: &mut [u32],
    answer: &mut [u64; 3],
)
    ensures answered { answer.new ≡ call_numbers (feed_of (feed_from state.old) packet.now list.old) }
    ensures kept { state.new ≡ feed_numbers (feed_of (feed_from state.old) packet.now list.old).next }
    ensures held { list.new ≡ feed_in (feed_from state.old) packet.now list.old }
{
    exports::flascjuvan_feed(state, packet, list, answer);
}

// Ends a stream's text. After a good end the stream is fresh. The answer: as above.
#[unsafe(no_mangle)]
pub extern "C" fn flascjuvan_feed_end(
    state: &mut [u64; 10],
    list: &mut [u32],
    answer: &mut [u64; 3],
)
    ensures answered { answer.new ≡ call_numbers (end_of (feed_from state.old) list.old) }
    ensures kept { state.new ≡ feed_numbers (end_of (feed_from state.old) list.old).next }
    ensures held { list.new ≡ end_in (feed_from state.old) list.old }
{
    exports::flascjuvan_feed_end(state, list, answer);
}
