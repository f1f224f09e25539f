// Replies: what the matcher answers, in cases and in numbers.
#![tactic(auto, unfolding(crate::specs::Replies::numbered, crate::specs::Replies::tallied, crate::specs::Replies::finding))]

ghost use Rattle.std.specs.Prelude.{◌≡◌};
ghost use Rattle.replies.specs.Replies.{numbered, refused_as, tallied, missed_as, finding};

// A length with the steps it took, none with the steps, or a refusal: 30, 31 at a node, 32, 33 at a bad
// sequence, 34.
#[derive(Clone, Copy)]
pub enum Answer {
    Matched(usize, u64),
    NoMatch(u64),
    FalseTables,
    Unfit(usize),
    NoRule,
    NotUtf8(usize),
    Over,
}

// An answer in numbers: a refusal's number and place, 1 for a match, its length, the steps.
#[derive(Clone, Copy)]
pub struct Row {
    pub number: u64,
    pub place: u64,
    pub matched: u64,
    pub length: u64,
    pub steps: u64,
}

// Why nothing is run: 30, 31 at a node, 32.
#[derive(Clone, Copy, Debug, PartialEq, Eq)]
pub enum RunError {
    FalseTables,
    Unfit(usize),
    NoRule,
}

// What a call over lines gives, in numbers: a refusal's number and place, the lines that were run, the place
// where the first of the others begins.
#[derive(Clone, Copy)]
pub struct Tally {
    pub number: u64,
    pub place: u64,
    pub lines: u64,
    pub next: u64,
}

// Why no rule of a name was found: 30, 32.
#[derive(Clone, Copy, Debug, PartialEq, Eq)]
pub enum FindError {
    FalseTables,
    NoRule,
}

// The rule of a name, in numbers: a refusal's number and place, the rule's index.
#[derive(Clone, Copy)]
pub struct Finding {
    pub number: u64,
    pub place: u64,
    pub rule: u64,
}

// A row of five numbers.
fn five(number: u64, place: u64, matched: u64, length: u64, steps: u64) -> Row
    ensures { result ≡ record { number = number; place = place; matched = matched; length = length; steps = steps } }
{
    Row {
        number,
        place,
        matched,
        length,
        steps,
    }
}

// An answer in numbers.
pub fn row_of(answer: Answer) -> Row
    ensures { result ≡ numbered answer }
{
    match answer {
        Answer::Matched(e, n) => five(0, 0, 1, e as u64, n),
        Answer::NoMatch(n) => five(0, 0, 0, 0, n),
        Answer::FalseTables => five(30, 0, 0, 0, 0),
        Answer::Unfit(i) => five(31, i as u64, 0, 0, 0),
        Answer::NoRule => five(32, 0, 0, 0, 0),
        Answer::NotUtf8(i) => five(33, i as u64, 0, 0, 0),
        Answer::Over => five(34, 0, 0, 0, 0),
    }
}

// The refusal of a call over lines: the numbers of a line's.
fn refused_as(answer: Answer) -> Tally
    ensures { result ≡ refused_as (numbered answer) }
{
    let row = row_of(answer);
    Tally {
        number: row.number,
        place: row.place,
        lines: 0,
        next: 0,
    }
}

// What a call over lines gives, in numbers.
pub fn tally_of(lines: Result<(usize, usize), RunError>) -> Tally
    ensures { result ≡ tallied lines }
{
    match lines {
        Ok((k, p)) => Tally {
            number: 0,
            place: 0,
            lines: k as u64,
            next: p as u64,
        },
        Err(RunError::FalseTables) => refused_as(Answer::FalseTables),
        Err(RunError::Unfit(i)) => refused_as(Answer::Unfit(i)),
        Err(RunError::NoRule) => refused_as(Answer::NoRule),
    }
}

// The refusal of a search: the numbers of a line's.
fn missed_as(answer: Answer) -> Finding
    ensures { result ≡ missed_as (numbered answer) }
{
    let row = row_of(answer);
    Finding {
        number: row.number,
        place: row.place,
        rule: 0,
    }
}

// The rule of a name, in numbers.
pub fn finding_of(found: Result<usize, FindError>) -> Finding
    ensures { result ≡ finding found }
{
    match found {
        Ok(k) => Finding {
            number: 0,
            place: 0,
            rule: k as u64,
        },
        Err(FindError::FalseTables) => missed_as(Answer::FalseTables),
        Err(FindError::NoRule) => missed_as(Answer::NoRule),
    }
}
