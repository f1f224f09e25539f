// Tables of four sizes for a text's tokens: 1536, 4096, 12288 and 65536 rows. A local table is cleared at each
// call, so that a size too large costs time, and each size has an instance of its own, so that a small text
// needs little stack. The compiler is told to leave them so.
ghost use Rattle.std.specs.Prelude.{◌≡◌, ◌*◌, ◌/◌, ◌≤◌, length};
ghost use Rattle.text.specs.Classes.{classes};
ghost use Rattle.text.specs.Limits.{max_text};
ghost use Rattle.token.specs.Table.{token_size};
ghost use Rattle.reader.specs.Read.{room_for_nodes, room_for_rules, attempt_of, listed_of, Leaves, AttemptLeaves};

use super::phases::{list_and_read, refused};
use structure::{Edition, Level, Refusal, Why};
use text::limits;
use token::inner::listing::TOKEN_SIZE;

// The numbers in each table.
const SMALL: usize = TOKEN_SIZE * 1536;

const MEDIUM: usize = TOKEN_SIZE * 4096;

const MIDDLE: usize = TOKEN_SIZE * 12288;

const LARGE: usize = TOKEN_SIZE * limits::TEXT;

// Reads a text of UTF-8 by a local table of so many numbers.
#[inline(never)]
fn try_listed<const NUMBERS: usize>(
    t: &[u8; 256],
    text: &[u8],
    edition: Edition,
    level: Level,
    nodes: &mut [u32],
    rules: &mut [u32],
    store: &mut [u8],
) -> Option<Result<(usize, usize, usize), Refusal>>
    requires t_value { t.now ≡ classes }
    requires text_len_bound { length text.now ≤ max_text }
    requires numbers_bound { NUMBERS ≤ token_size * max_text }
    ensures answer { result ≡ attempt_of (NUMBERS / token_size) edition level text.now (room_for_nodes nodes.old) (room_for_rules rules.old) (length store.old) }
    ensures left { AttemptLeaves level text.now result nodes.old rules.old store.old nodes.new rules.new store.new }
{
    let mut tokens = [0u32; NUMBERS];
    list_and_read(t, text, &mut tokens, edition, level, nodes, rules, store)
}

// Reads a text of UTF-8 by a table for so many tokens, and by larger ones where that is full. No text
// has more tokens than bytes.
#[tactic(auto, using(crate::proofs::Answers::tried_done, crate::proofs::Answers::tried_all))]
pub fn read_listed(
    t: &[u8; 256],
    text: &[u8],
    edition: Edition,
    level: Level,
    nodes: &mut [u32],
    rules: &mut [u32],
    store: &mut [u8],
    room: usize,
) -> Result<(usize, usize, usize), Refusal>
    requires t_value { t.now ≡ classes }
    requires text_len_bound { length text.now ≤ max_text }
    ensures answer { result ≡ listed_of edition level text.now (room_for_nodes nodes.old) (room_for_rules rules.old) (length store.old) }
    ensures left { Leaves level text.now result nodes.old rules.old store.old nodes.new rules.new store.new }
{
    if room <= 1536 {
        let tried = try_listed::<SMALL>(t, text, edition, level, nodes, rules, store);
        if let Some(reading) = tried {
            return reading;
        }
    }
    if room <= 4096 {
        let tried = try_listed::<MEDIUM>(t, text, edition, level, nodes, rules, store);
        if let Some(reading) = tried {
            return reading;
        }
    }
    if room <= 12288 {
        let tried = try_listed::<MIDDLE>(t, text, edition, level, nodes, rules, store);
        if let Some(reading) = tried {
            return reading;
        }
    }
    let tried = try_listed::<LARGE>(t, text, edition, level, nodes, rules, store);
    match tried {
        Some(reading) => reading,
        None => refused(Why::TooLong, 0),
    }
}
