// The line matcher: one rule of checked tables over a line, or over every line of a text.
//
// Choice is ordered, repetition takes all it can and gives nothing back, and nothing is implicit: the marks
// of rules mean nothing here. Each visit to a node is a step. The entry points stand here and ask nothing
// of their callers. They see the tables through the promises of `table` alone.
#![tactic(auto)]

mod inner;

ghost use Rattle.std.specs.Prelude.{◌≡◌, length};
ghost use Rattle.matcher.specs.Answers.{match_of};
ghost use Rattle.matcher.specs.Lines.{lines_of, records_of};
ghost use Rattle.matcher.specs.Sought.{found_of};

use replies::{Answer, FindError, RunError};
use table::{TableError, limits};

// What a visit gives: the place after the match and the steps left, or the steps left where nothing
// matched.
#[derive(Clone, Copy)]
pub enum Outcome {
    Matched(usize, u64),
    Missed(u64),
    Over,
}

// Where a line ends without its LF or CRLF, and where the next one begins.
#[derive(Clone, Copy)]
pub struct Line {
    pub end: usize,
    pub next: usize,
}

// Runs the rule at an index over a line, in at most as many steps as allowed.
pub fn match_line(
    nodes: &[u32],
    rules: &[u32],
    store: &[u8],
    start: usize,
    line: &[u8],
    allowance: u64,
) -> Answer
    ensures { result ≡ match_of nodes.now rules.now store.now start line.now allowance }
{
    let mut links = [0u16; limits::NODES];
    let ready = links::inner::ready::prepare(nodes, rules, store, start, &mut links);
    match ready {
        Ok(()) => {
            let root = links::inner::ready::root_of(rules, start);
            inner::visits::run_line(nodes, &links, store, root, allowance, line)
        }
        Err(RunError::FalseTables) => Answer::FalseTables,
        Err(RunError::Unfit(i)) => Answer::Unfit(i),
        Err(RunError::NoRule) => Answer::NoRule,
    }
}

// Runs the rule at an index over each line of a text, and writes a record of five numbers for each: those
// of a row, in their order. LF ends a line, and a CR right before it belongs to that end; any other CR is a
// byte of its line. The last line may lack its LF. Where the records are full it stops, and says how many
// lines it ran and where the next one begins: a caller with a small table goes on from there, and needn't
// know beforehand how many lines there are. 33 and 34 are a line's own, and stand in its record. A refusal
// changes nothing.
pub fn match_lines(
    nodes: &[u32],
    rules: &[u32],
    store: &[u8],
    start: usize,
    text: &[u8],
    allowance: u64,
    records: &mut [u64],
) -> Result<(usize, usize), RunError>
    ensures value { result ≡ lines_of nodes.now rules.now store.now start text.now (length records.old) }
    ensures records_after { records.new ≡ records_of nodes.now rules.now store.now start text.now allowance records.old }
{
    let mut links = [0u16; limits::NODES];
    links::inner::ready::prepare(nodes, rules, store, start, &mut links)?;
    let root = links::inner::ready::root_of(rules, start);
    inner::lines::run_lines(nodes, &links, store, root, allowance, text, records)
}

// The lowest rule of a name, for callers that know a rule by its name. It asks about the whole tables first;
// whether they can be run is asked by the call that runs them.
pub fn rule_named(
    nodes: &[u32],
    rules: &[u32],
    store: &[u8],
    name: &[u8],
) -> Result<usize, FindError>
    ensures { result ≡ found_of nodes.now rules.now store.now name.now }
{
    let Ok(()) = table::check_tables(nodes, rules, store) else {
        return Err(FindError::FalseTables);
    };
    let named = table::inner::names::rule_named(rules, store, name);
    match named {
        Some(k) => Ok(k),
        None => Err(FindError::NoRule),
    }
}
