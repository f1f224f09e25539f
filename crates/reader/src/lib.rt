// The reader: from a lent text to tables, at two levels.
//
// It carries over the tree building of pest_meta's parser.rs.
#![tactic(auto)]

pub mod inner;

ghost use Rattle.std.specs.Prelude.{◌≡◌, length};
ghost use Rattle.table.specs.Tree.{rules_stored};
ghost use Rattle.table.specs.Flat.{nodes_of, records_of};
ghost use Rattle.reader.specs.Read.{room_for_nodes, room_for_rules, read_of, number_of, numbered, reported, left_in};
ghost use Rattle.reader.specs.Lines.{line_in};
ghost use Rattle.build.specs.Rules.{rules_read};

use structure::{Edition, Level, Refusal, Why};
use text::limits;

// A place in a text and its line.
#[derive(Clone, Copy)]
pub struct Mark {
    pub at: usize,
    pub line: usize,
}

// The number of a reason, as callers are told it.
pub fn number_of(why: Why) -> u64
    ensures { result ≡ number_of why }
{
    match why {
        Why::TooLong => 1,
        Why::NotUtf8 => 2,
        Why::NoToken => 3,
        Why::NotAllowed => 4,
        Why::TooDeep => 9,
        Why::Over => 5,
        Why::Zero => 6,
        Why::PeekRange => 7,
        Why::NotScalar => 8,
        Why::NotPlain => 13,
        Why::Above => 15,
        Why::RulesRoom => 12,
        Why::NodesRoom => 10,
        Why::StoreRoom => 11,
    }
}

// Reads a text into tables, as an edition has it: its rules in `rules`, their nodes in `nodes`, their texts in `store`.
pub fn read(
    text: &[u8],
    edition: Edition,
    level: Level,
    nodes: &mut [u32],
    rules: &mut [u32],
    store: &mut [u8],
) -> Result<(usize, usize, usize), Refusal>
    ensures answer { result ≡ read_of edition level text.now (room_for_nodes nodes.old) (room_for_rules rules.old) (length store.old) }
    ensures report { numbered result ≡ reported edition level text.now (room_for_nodes nodes.old) (room_for_rules rules.old) (length store.old) }
    ensures nodes { nodes.new ≡ left_in result (nodes_of (line_in text.now) (rules_read level text.now)) nodes.old }
    ensures rules { rules.new ≡ left_in result (records_of (rules_read level text.now)) rules.old }
    ensures store { store.new ≡ left_in result (rules_stored (rules_read level text.now)) store.old }
{
    if limits::TEXT < text.len() {
        return inner::phases::refused(Why::TooLong, 0);
    }
    let utf8 = text::first_bad(text);
    if let Some(place) = utf8 {
        return inner::phases::refused(Why::NotUtf8, place);
    }
    let t = text::inner::classes::classes();
    if text.len() <= 2048 {
        return inner::listings::read_listed(&t, text, edition, level, nodes, rules, store, 1536);
    }
    if text.len() <= 12288 {
        return inner::listings::read_listed(&t, text, edition, level, nodes, rules, store, 4096);
    }
    inner::listings::read_listed(&t, text, edition, level, nodes, rules, store, 12288)
}
