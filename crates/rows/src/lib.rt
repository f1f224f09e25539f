// Lines that programs write, as bytes at the front of a lent output: a refusal's, those of camera lines'
// answers, those of tokens. The entry points ask nothing of their callers.
#![tactic(auto)]

mod line;
mod row;
mod tokens;

ghost use Rattle.std.specs.Prelude.{◌≡◌, length};
ghost use Rattle.replies.specs.Replies.{numbered};
ghost use Rattle.rows.specs.Line.{refusal_put, refusal_in};
ghost use Rattle.rows.specs.Put.{PutFits};
ghost use Rattle.rows.specs.Rows.{row_put, row_in};
ghost use Rattle.rows.specs.Block.{refused_block, block_of, block_in, Inside, whole_size};
ghost use Rattle.rows.specs.Tokens.{tokens_put, tokens_in};

use replies::{Row, RunError};

// The bytes of records' lines, and how many of the records are refusals.
#[derive(Clone, Copy)]
pub struct Rows {
    pub size: usize,
    pub refused: usize,
}

// The bytes of the answers to a block of camera lines, the place where the first line that wasn't run begins
// and how many lines were refused; or a refusal of the tables or of the rule; or too little room.
#[derive(Clone, Copy)]
pub enum Block {
    Lines {
        size: usize,
        next: usize,
        refused: usize,
    },
    Refused {
        number: u64,
        place: u64,
    },
    NoRoom,
}

// Writes the line `refused N at P`, LF behind it.
pub fn refusal(number: u64, place: u64, out: &mut [u8]) -> Option<usize>
    ensures answered { result ≡ refusal_put number place (length out.old) }
    ensures written { out.new ≡ refusal_in number place out.old result }
{
    if line::spend_line(out.len() + 1, number, place) == 0 {
        return None;
    }
    Some(line::put_line(number, place, out, 0))
}

// Writes the line of a camera line's answer: `LENGTH STEPS`, `none STEPS` or `refused N at P`.
pub fn answer_line(row: Row, out: &mut [u8]) -> Option<usize>
    ensures answered { result ≡ row_put row (length out.old) }
    ensures written { out.new ≡ row_in row out.old result }
{
    if row::spend_row(out.len() + 1, row) == 0 {
        return None;
    }
    Some(row::put_row(row, out, 0))
}

// A call's refusal.
#[tactic(auto, unfolding(crate::specs::Block::refused_block))]
fn refused_block(answer: replies::Answer) -> Block
    ensures { result ≡ refused_block (numbered answer) }
{
    let row = replies::row_of(answer);
    Block::Refused {
        number: row.number,
        place: row.place,
    }
}

// The answers to the lines of a block by the rule at an index, at most 1,024 of them, a line for each. A
// caller goes on from where the next line begins. An output of 54,272 bytes is enough for any; a smaller one
// has no room.
pub fn answer_block(
    nodes: &[u32],
    rules: &[u32],
    store: &[u8],
    start: usize,
    text: &[u8],
    allowance: u64,
    out: &mut [u8],
) -> Block
    ensures answered { result ≡ block_of nodes.now rules.now store.now start text.now allowance (length out.old) }
    ensures written { out.new ≡ block_in nodes.now rules.now store.now start text.now allowance out.old }
    ensures inside { Inside result (length out.old) (length text.now) }
{
    if out.len() < 54272 {
        return Block::NoRoom;
    }
    let mut records = [0u64; 5120];
    let ran = matcher::match_lines(nodes, rules, store, start, text, allowance, &mut records);
    match ran {
        Ok((k, next)) => {
            let rows = row::put_rows(&records, k, out);
            Block::Lines {
                size: rows.size,
                next,
                refused: rows.refused,
            }
        }
        Err(RunError::FalseTables) => refused_block(replies::Answer::FalseTables),
        Err(RunError::Unfit(i)) => refused_block(replies::Answer::Unfit(i)),
        Err(RunError::NoRule) => refused_block(replies::Answer::NoRule),
    }
}

// The bytes of a text up to its last LF, that one too. What is behind them is a line whose end hasn't come.
pub fn whole_lines(text: &[u8]) -> usize
    ensures { result ≡ whole_size text.now }
{
    for i in (0..text.len()).rev() {
        if text[i] == b'\n' {
            return i + 1;
        }
    }
    0
}

// Writes a line for each whole record of a list of tokens: `KIND START END`. An output of 33 bytes for each
// is enough; a smaller one has no room.
pub fn token_lines(list: &[u32], out: &mut [u8]) -> Option<usize>
    ensures answered { result ≡ tokens_put list.now (length out.old) }
    ensures written { out.new ≡ tokens_in list.now out.old result }
    ensures inside { PutFits result (length out.old) }
{
    let k = list.len() / 3;
    if out.len() / 33 < k {
        return None;
    }
    Some(tokens::put_tokens(list, k, out))
}
