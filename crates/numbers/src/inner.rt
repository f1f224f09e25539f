// What each function answers, in the numbers that a caller in C is given; and the other way, what it gives.
#![tactic(auto, unfolding(crate::specs::Numbers::level_of, crate::specs::Numbers::edition_of, printer::specs::Answers::numbered, reader::specs::Read::numbered))]

ghost use Rattle.std.specs.Prelude.{◌≡◌};
ghost use Rattle.token.specs.Lister.{numbers_of};
ghost use Rattle.printer.specs.Answers.{numbered as printNumbered};
ghost use Rattle.reader.specs.Read.{numbered as readNumbered};
ghost use Rattle.matcher.specs.Lines.{fields};
ghost use Rattle.numbers.specs.Numbers.{level_of, edition_of, read_numbers, print_numbers, token_numbers, tally_numbers, finding_numbers, call_numbers, feed_numbers, feed_from};

use printer::PrintError;
use reader::number_of;
use replies::{Finding, Row, Tally};
use states::{Call, Feed};
use structure::{Edition, Level, Refusal};
use token::Listed;

// The level that a number names: 0 is plain, every other is tagged.
pub fn level_of(tagged: u32) -> Level
    ensures { result ≡ level_of tagged }
{
    if tagged == 0 {
        Level::Plain
    } else {
        Level::Tagged
    }
}

// The edition that a number names: 0 and 1 are the first, every other is the second.
pub fn edition_of(edition: u32) -> Edition
    ensures { result ≡ edition_of edition }
{
    if edition < 2 {
        Edition::First
    } else {
        Edition::Second
    }
}

// What the reader answers, in numbers.
pub fn read_numbers(reading: Result<(usize, usize, usize), Refusal>) -> [u64; 5]
    ensures { result ≡ read_numbers (readNumbered reading) }
{
    match reading {
        Ok((n, r, b)) => [0, 0, n as u64, r as u64, b as u64],
        Err(refusal) => {
            let why = refusal.why;
            [number_of(why), refusal.place as u64, 0, 0, 0]
        }
    }
}

// What the printer answers, in numbers.
pub fn printed_numbers(printed: Result<usize, PrintError>) -> [u64; 3]
    ensures { result ≡ print_numbers (printNumbered printed) }
{
    match printed {
        Ok(n) => [0, 0, n as u64],
        Err(PrintError::Shape) => [20, 0, 0],
        Err(PrintError::Node(i)) => [21, i as u64, 0],
        Err(PrintError::Rule(k)) => [22, k as u64, 0],
        Err(PrintError::NoRoom) => [23, 0, 0],
    }
}

// What the lister answers at a place, in numbers.
pub fn listed_numbers(at: usize, listed: Listed) -> [u64; 5]
    ensures { result ≡ token_numbers (numbers_of at listed) }
{
    match listed {
        Listed::TooLong => [1, 0, 0, 0, 0],
        Listed::NotUtf8(place) => [2, place as u64, 0, 0, 0],
        Listed::Next { kind, start, end } => [0, 0, u64::from(kind), start as u64, end as u64],
        Listed::End(n) => [0, 0, 0, n as u64, n as u64],
        Listed::NoToken(place) => [3, place as u64, 0, 0, 0],
    }
}

// What the matcher answers for a line, in numbers.
pub fn row_numbers(row: Row) -> [u64; 5]
    ensures { result ≡ fields row }
{
    [row.number, row.place, row.matched, row.length, row.steps]
}

// What the matcher answers for lines, in numbers.
pub fn tally_numbers(tally: Tally) -> [u64; 4]
    ensures { result ≡ tally_numbers tally }
{
    [tally.number, tally.place, tally.lines, tally.next]
}

// What the search for a rule answers, in numbers.
pub fn finding_numbers(finding: Finding) -> [u64; 3]
    ensures { result ≡ finding_numbers finding }
{
    [finding.number, finding.place, finding.rule]
}

// What a stream answers to a packet or the end, in numbers.
pub fn call_numbers(call: Call) -> [u64; 3]
    ensures { result ≡ call_numbers call }
{
    [call.number as u64, call.place as u64, call.records as u64]
}

// What is kept of a stream, in numbers.
pub fn feed_numbers(feed: Feed) -> [u64; 10]
    ensures { result ≡ feed_numbers feed }
{
    [
        feed.state as u64,
        feed.start as u64,
        feed.seen as u64,
        feed.backslash as u64,
        feed.kind as u64,
        feed.depth as u64,
        feed.utf as u64,
        feed.sequence as u64,
        feed.count as u64,
        feed.number as u64,
    ]
}

// The stream of which such numbers were kept.
pub fn feed_from(state: &[u64; 10]) -> Feed
    ensures { result ≡ feed_from state.now }
{
    Feed {
        state: state[0] as usize,
        start: state[1] as usize,
        seen: state[2] as usize,
        backslash: state[3] as usize,
        kind: state[4] as usize,
        depth: state[5] as usize,
        utf: state[6] as usize,
        sequence: state[7] as usize,
        count: state[8] as usize,
        number: state[9] as usize,
    }
}
