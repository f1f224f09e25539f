// What a term has around its node and its postfixes: a tag before its predicates, and a bracket that
// moves its start.
ghost use Rattle.std.specs.Prelude.{◌≡◌, ◌*◌, ◌≤◌, ◌<◌, length};
ghost use Rattle.text.specs.Splice.{Room, Wrote};
ghost use Rattle.token.specs.Table.{Lent};
ghost use Rattle.table.specs.Record.{node_size};
ghost use Rattle.build.specs.Build.{tag_text, past_tag, Opened, term_start, TagRoom, Tied};

use super::store::put_bytes;
use crate::{Placed, Tag};
use records::inner::nodes::move_start;
use structure::Level;
use token::inner::listing::{end_at, kind_at, start_at};
use token::kind;

// Goes past a term's tag, and puts its text into the store. Plain drops it.
pub fn get_node_tag(
    text: &[u8],
    tokens: &[u32],
    store: &mut [u8],
    level: Level,
    at: usize,
    free: usize,
) -> Tag
    requires lent { Lent text.now tokens.now }
    requires room { Room store.old free (tag_text level text.now at) }
    ensures past { result.next ≡ past_tag text.now at }
    ensures stored { Wrote store.old free (tag_text level text.now at) store.new result.free }
{
    if kind_at(text, tokens, at) != kind::TAG {
        return Tag { next: at, free };
    }
    match level {
        Level::Tagged => {
            let a = start_at(text, tokens, at) + 1;
            let z = end_at(text, tokens, at);
            let end = put_bytes(text, store, a, z, free);
            Tag {
                next: at + 1 + 1,
                free: end,
            }
        }
        Level::Plain => Tag {
            next: at + 1 + 1,
            free,
        },
    }
}

// Moves the start of the node that was written last to the bracket that opened it, if one did.
pub fn move_to_bracket(text: &[u8], tokens: &[u32], nodes: &mut [u32], at: usize, used: usize)
    requires lent { Lent text.now tokens.now }
    requires used_in_bounds { (node_size * used ≤ length nodes.old) × (0 < used) }
    ensures { Opened text.now at used nodes.old nodes.new }
{
    if kind_at(text, tokens, at) == kind::OPENING_PAREN {
        let a = start_at(text, tokens, at);
        move_start(nodes, used, a);
    }
}

// Where a term starts, its tag aside: with its predicates, its bracket, or its node.
pub fn term_start(text: &[u8], tokens: &[u32], from: usize, first: usize, a: usize) -> usize
    requires { Lent text.now tokens.now }
    ensures { result ≡ term_start text.now from first a }
{
    if from < first {
        return start_at(text, tokens, from);
    }
    if kind_at(text, tokens, first) == kind::OPENING_PAREN {
        return start_at(text, tokens, first);
    }
    a
}

// Writes the record of a term's tag over the rest of the term. Plain has none.
pub fn put_tag(
    text: &[u8],
    tokens: &[u32],
    nodes: &mut [u32],
    level: Level,
    at: usize,
    free: usize,
    mid: usize,
    built: Placed,
) -> Placed
    requires lent { Lent text.now tokens.now }
    requires tag_room { TagRoom level text.now nodes.old at free mid built }
    ensures { Tied level text.now at free mid built nodes.old result nodes.new }
{
    if kind_at(text, tokens, at) != kind::TAG {
        return built;
    }
    match level {
        Level::Plain => built,
        Level::Tagged => {
            let a = start_at(text, tokens, at);
            let used = built.used;
            records::inner::nodes::put_tag(nodes, used, a, built.to, free, mid - free);
            Placed {
                next: built.next,
                used: used + 1,
                free: built.free,
                from: a,
                to: built.to,
            }
        }
    }
}
