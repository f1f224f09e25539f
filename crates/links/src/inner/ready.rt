// What is asked of the tables before any line: 30, 31 and 32. Names are looked up here, once a call.
ghost use Rattle.std.specs.Prelude.{◌≡◌, true, ◌<◌, length, Ok};
ghost use Rattle.table.specs.Characters.{max_nodes};
ghost use Rattle.table.specs.Record.{nodes_in, rules_in, root_at};
ghost use Rattle.table.specs.Check.{is_through, lowest, Valid};
ghost use Rattle.table.specs.Names.{same_text, NamesInside};
ghost use Rattle.links.specs.Program.{any_name, fit_at, own_at, link_for, mention_link, known_at, Linked, Rooted, Inside};
ghost use Rattle.links.specs.Ready.{ready_of};

use super::nodes::{is_fit, mention_of};
use replies::RunError;
use table::inner::layout::{NODE_SIZE, RULE_SIZE, head_at, node_at};
use table::inner::names::{rule_named, same_text};
use table::{TableError, limits};

// The lowest node that can't be run.
fn first_unfit(nodes: &[u32]) -> Option<usize>
    ensures { result ≡ lowest (fit_at nodes.now) (nodes_in nodes.now) }
{
    for i in 0..nodes.len() / NODE_SIZE {
        if !is_fit(node_at(nodes, i)) {
            return Some(i);
        }
    }
    None
}

fn is_any(name: &[u8]) -> bool
    ensures { result ≡ same_text name.now any_name }
{
    same_text(name, b"ANY")
}

fn own_name(rules: &[u32], store: &[u8], k: usize) -> bool
    requires names_inside { NamesInside rules.now store.now }
    requires k_bound { k < rules_in rules.now }
    ensures { result ≡ own_at rules.now store.now k }
{
    let head = head_at(rules, k);
    let p = head.offset;
    let e = p + head.length;
    let name = &store[p..e];
    if is_any(name) {
        return false;
    }
    match rule_named(rules, store, name) {
        Some(j) => j == k,
        None => false,
    }
}

// No rule is called ANY, and no two have one name.
fn own_names(rules: &[u32], store: &[u8]) -> bool
    requires { NamesInside rules.now store.now }
    ensures { result ≡ is_through (lowest (own_at rules.now store.now) (rules_in rules.now)) }
{
    for k in 0..rules.len() / RULE_SIZE {
        if !own_name(rules, store, k) {
            return false;
        }
    }
    true
}

// What a name means.
fn link_for(rules: &[u32], store: &[u8], name: &[u8]) -> Option<u16>
    requires names_inside { NamesInside rules.now store.now }
    requires rooted { Rooted rules.now }
    ensures { result ≡ link_for rules.now store.now name.now }
{
    if is_any(name) {
        return Some(0);
    }
    match rule_named(rules, store, name) {
        Some(k) => Some((root_of(rules, k) + 1) as u16),
        None => None,
    }
}

pub fn root_of(rules: &[u32], k: usize) -> usize
    requires { k < rules_in rules.now }
    ensures { result ≡ root_at rules.now k }
{
    head_at(rules, k).root
}

fn mention_link(rules: &[u32], store: &[u8], mention: Option<(usize, usize)>) -> Option<u16>
    requires names_inside { NamesInside rules.now store.now }
    requires rooted { Rooted rules.now }
    requires inside { Inside store.now mention }
    ensures { result ≡ mention_link rules.now store.now mention }
{
    match mention {
        Some((p, n)) => {
            let e = p + n;
            link_for(rules, store, &store[p..e])
        }
        None => Some(0),
    }
}

// Writes the link of each node. Whether all names are known.
fn link_names(nodes: &[u32], rules: &[u32], store: &[u8], links: &mut [u16; limits::NODES]) -> bool
    requires valid { Valid nodes.now rules.now store.now }
    requires links_len { length links.old ≡ max_nodes }
    ensures value { result ≡ is_through (lowest (known_at nodes.now rules.now store.now) (nodes_in nodes.now)) }
    ensures linked { result ≡ true → Linked nodes.now rules.now store.now links.new }
{
    for i in 0..nodes.len() / NODE_SIZE {
        let mention = mention_of(node_at(nodes, i));
        let Some(link) = mention_link(rules, store, mention) else {
            return false;
        };
        links[i] = link;
    }
    true
}

// All that is asked before any line. If nothing is refused, `links` has the link of each node.
pub fn prepare(
    nodes: &[u32],
    rules: &[u32],
    store: &[u8],
    start: usize,
    links: &mut [u16; limits::NODES],
) -> Result<(), RunError>
    requires { length links.old ≡ max_nodes }
    ensures value { result ≡ ready_of nodes.now rules.now store.now start }
    ensures linked { result ≡ Ok tt → Linked nodes.now rules.now store.now links.new }
{
    let Ok(()) = table::check_tables(nodes, rules, store) else {
        return Err(RunError::FalseTables);
    };
    if let Some(i) = first_unfit(nodes) {
        return Err(RunError::Unfit(i));
    }
    if rules.len() / RULE_SIZE <= start
        || !own_names(rules, store)
        || !link_names(nodes, rules, store, links)
    {
        return Err(RunError::NoRule);
    }
    Ok(())
}
