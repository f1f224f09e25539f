// What a text gets, phase by phase, and the room there is.
ghost use Rattle.std.specs.Prelude.{◌≡◌, ◌/◌, ◌≤◌, ◌<◌, min, length};
ghost use Rattle.text.specs.Classes.{classes};
ghost use Rattle.text.specs.Limits.{max_text};
ghost use Rattle.token.specs.Table.{room_of, Lent};
ghost use Rattle.reader.specs.Read.{refused_by, room_for_nodes, room_for_rules, room_by, judged_of, attempt_of, Leaves, AttemptLeaves};

use super::lines::number_lines;
use build::inner::rules::consume_rules_with_spans;
use structure::inner::rules::check_grammar;
use structure::inner::values::faults;
use structure::{Counts, Edition, Level, Refusal, Why};
use table::inner::layout::{NODE_SIZE, RULE_SIZE};
use text::limits;
use token::FillError;
use token::inner::fill;
use token::inner::listing::TOKEN_SIZE;

// A refusal as what is read.
pub fn refused(why: Why, place: usize) -> Result<(usize, usize, usize), Refusal>
    ensures { result ≡ refused_by why place }
{
    Err(Refusal { why, place })
}

// How many whole records there may be: the lower of what is lent and a limit.
fn room_of(numbers: usize, size: usize, limit: usize) -> usize
    requires { 0 < size }
    ensures { result ≡ min (numbers / size) limit }
{
    (numbers / size).min(limit)
}

// The counts of what was read, if there is room for it.
fn room_for(taken: Counts, room: Counts) -> Result<(usize, usize, usize), Refusal>
    ensures { result ≡ room_by taken.rules taken.nodes taken.bytes room.nodes room.rules room.bytes }
{
    if room.rules < taken.rules {
        return refused(Why::RulesRoom, 0);
    }
    if room.nodes < taken.nodes {
        return refused(Why::NodesRoom, 0);
    }
    if room.bytes < taken.bytes {
        return refused(Why::StoreRoom, 0);
    }
    Ok((taken.nodes, taken.rules, taken.bytes))
}

// What a text of tokens gets: structure, then values, then room.
fn judge(
    text: &[u8],
    tokens: &[u32],
    edition: Edition,
    level: Level,
    room: Counts,
) -> Result<(usize, usize, usize), Refusal>
    requires { Lent text.now tokens.now }
    ensures { result ≡ judged_of edition level text.now room.nodes room.rules room.bytes }
{
    let counts = check_grammar(text, tokens, level)?;
    if let Some(refusal) = faults(text, tokens, edition, level) {
        return Err(refusal);
    }
    room_for(counts, room)
}

// Judges a text of tokens, and writes its rules if there is nothing to refuse.
fn judge_and_build(
    text: &[u8],
    tokens: &[u32],
    edition: Edition,
    level: Level,
    nodes: &mut [u32],
    rules: &mut [u32],
    store: &mut [u8],
) -> Result<(usize, usize, usize), Refusal>
    requires { Lent text.now tokens.now }
    ensures answer { result ≡ judged_of edition level text.now (room_for_nodes nodes.old) (room_for_rules rules.old) (length store.old) }
    ensures left { Leaves level text.now result nodes.old rules.old store.old nodes.new rules.new store.new }
{
    let room = Counts {
        nodes: room_of(nodes.len(), NODE_SIZE, limits::NODES),
        rules: room_of(rules.len(), RULE_SIZE, limits::RULES),
        bytes: store.len(),
    };
    let answer = judge(text, tokens, edition, level, room);
    if let Ok((used, _, _)) = answer {
        consume_rules_with_spans(text, tokens, nodes, rules, store, level);
        number_lines(text, nodes, used);
    }
    answer
}

// Lists a text's tokens in a lent table, and goes on with those if they are all there.
pub fn list_and_read(
    t: &[u8; 256],
    text: &[u8],
    tokens: &mut [u32],
    edition: Edition,
    level: Level,
    nodes: &mut [u32],
    rules: &mut [u32],
    store: &mut [u8],
) -> Option<Result<(usize, usize, usize), Refusal>>
    requires t_value { t.now ≡ classes }
    requires text_len_bound { length text.now ≤ max_text }
    ensures answer { result ≡ attempt_of (room_of tokens.old) edition level text.now (room_for_nodes nodes.old) (room_for_rules rules.old) (length store.old) }
    ensures left { AttemptLeaves level text.now result nodes.old rules.old store.old nodes.new rules.new store.new }
{
    let filled = fill(t, text, tokens);
    match filled {
        Err(FillError::Full) => None,
        Err(FillError::NoToken(place)) => Some(refused(Why::NoToken, place)),
        Ok(n) => {
            let m = n * TOKEN_SIZE;
            Some(judge_and_build(text, &tokens[..m], edition, level, nodes, rules, store))
        }
    }
}
