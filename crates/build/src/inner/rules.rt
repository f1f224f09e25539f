// Rules: a name, a mark, a tree and a record each.
ghost use Rattle.token.specs.Table.{Lent};
ghost use Rattle.structure.specs.Structure.{rule_from, grammar};
ghost use Rattle.build.specs.Rules.{rules_read};
ghost use Rattle.build.specs.Build.{Scalars};
ghost use Rattle.build.specs.Rules.{RuleRoom, RuleBuilt, GrammarRoom, RulesBuilt};

use super::descent::consume_expr;
use super::store::put_bytes;
use crate::RuleEnd;
use records::inner::rules::put_rule;
use structure::Level;
use structure::inner::rules::{docs_end, mark_at, past_bar, past_mark};
use token::inner::listing::{end_at, kind_at, start_at, token_count};
use token::kind;

// Writes a rule: its name, its tree, then its record.
fn consume_rule(
    text: &[u8],
    tokens: &[u32],
    nodes: &mut [u32],
    rules: &mut [u32],
    store: &mut [u8],
    level: Level,
    at: usize,
    index: usize,
    used: usize,
    free: usize,
) -> RuleEnd
    requires lent { Lent text.now tokens.now }
    requires scalars { Scalars text.now }
    requires rule_room { RuleRoom (rule_from level text.now at) nodes.old rules.old store.old index used free }
    ensures { RuleBuilt (rule_from level text.now at) nodes.old rules.old store.old index used free result nodes.new rules.new store.new }
{
    let a = start_at(text, tokens, at);
    let z = end_at(text, tokens, at);
    let named = put_bytes(text, store, a, z, free);
    let mark = mark_at(text, tokens, at + 1 + 1);
    let open = past_mark(text, tokens, at + 1 + 1);
    let body = past_bar(text, tokens, open + 1);
    let tree = consume_expr(text, tokens, nodes, store, level, 0, body, used, named);
    put_rule(rules, index, free, z - a, mark, tree.used - 1, a, z);
    RuleEnd {
        next: tree.next + 1,
        used: tree.used,
        free: tree.free,
    }
}

// Writes the rules of a text that is good in structure and values, and for which there is room.
pub fn consume_rules_with_spans(
    text: &[u8],
    tokens: &[u32],
    nodes: &mut [u32],
    rules: &mut [u32],
    store: &mut [u8],
    level: Level,
)
    requires lent { Lent text.now tokens.now }
    requires scalars { Scalars text.now }
    requires grammar_room { GrammarRoom (grammar level text.now) (rules_read level text.now) nodes.old rules.old store.old }
    ensures { RulesBuilt (rules_read level text.now) nodes.old rules.old store.old nodes.new rules.new store.new }
{
    let n = token_count(text, tokens);
    let mut i = docs_end(text, tokens);
    let mut index = 0;
    let mut used = 0;
    let mut free = 0;
    while i < n {
        if kind_at(text, tokens, i) == kind::LINE_DOC {
            i += 1;
        } else {
            let rule = consume_rule(
                text, tokens, nodes, rules, store, level, i, index, used, free,
            );
            i = rule.next;
            index += 1;
            used = rule.used;
            free = rule.free;
        }
    }
}
