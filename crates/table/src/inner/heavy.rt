// The check of nodes and rules by what is known of the store once: it is taken from the first long text on, so that a text
// that many nodes share is not gone over for each of them.
ghost use Rattle.std.specs.Prelude.{◌≡◌, ◌≤◌, length, None};
ghost use Rattle.text.specs.Limits.{max_nodes, max_store};
ghost use Rattle.table.specs.Record.{nodes_in, rules_in};
ghost use Rattle.table.specs.Check.{good_at, good_rule, lowest, Firsts};

use super::checks::{Place, Rules, first_of, good_rule};
use super::layout::{NODE_SIZE, RULE_SIZE};
use super::texts::{Noted, Scanned};
use known::inner::runs::fill_runs;
use known::inner::stops::fill_stops;

// The lowest false node, where none before `from` is. If there is none, `firsts` has the first node of each.
#[tactic(auto, using(crate::proofs::Lowest::lowest_more, crate::proofs::Lowest::lowest_bad, crate::proofs::Verdicts::firsts_more, crate::proofs::Verdicts::verdict_at, crate::proofs::Verdicts::verdict_none, crate::proofs::Nodes::first_le))]
pub(crate) fn lowest_from(
    texts: &Scanned,
    nodes: &[u32],
    firsts: &mut [u16],
    from: usize,
) -> Option<usize>
    requires store_len_bound { length texts.now.store.now ≤ max_store }
    requires nodes_bound { nodes_in nodes.now ≤ max_nodes }
    requires nodes_in_bounds { nodes_in nodes.now ≤ length firsts.old }
    requires from_bound { from ≤ nodes_in nodes.now }
    requires from_value { lowest (good_at nodes.now texts.now.store.now) from ≡ None }
    requires firsts { Firsts nodes.now firsts.old from }
    ensures value { result
        ≡ lowest (good_at nodes.now texts.now.store.now) (nodes_in nodes.now) }
    ensures firsts_2 { result ≡ None → Firsts nodes.now firsts.new (nodes_in nodes.now) }
{
    let mut runs = [0u32; 1024];
    fill_runs(texts.t, texts.store, &mut runs);
    let mut stops = [0u32; 4096];
    fill_stops(texts.store, &mut stops);
    let noted = Noted {
        t: texts.t,
        store: texts.store,
        runs: &runs,
        stops: &stops,
    };
    for i in from..nodes.len() / NODE_SIZE {
        let place = Place { nodes, firsts, i };
        let Some(x) = first_of(&noted, &place) else {
            return Some(i);
        };
        firsts[i] = x as u16;
    }
    None
}

// The lowest false rule, where none before `from` is.
#[tactic(auto, using(crate::proofs::Lowest::lowest_more, crate::proofs::Lowest::lowest_bad))]
pub(crate) fn lowest_rule_from(texts: &Scanned, all: &Rules, from: usize) -> Option<usize>
    requires store_len_bound { length texts.now.store.now ≤ max_store }
    requires from_bound { from ≤ rules_in all.now.rules.now }
    requires from_value { lowest (good_rule all.now.nodes.now all.now.rules.now texts.now.store.now) from ≡ None }
    ensures { result
        ≡ lowest (good_rule all.now.nodes.now all.now.rules.now texts.now.store.now) (rules_in all.now.rules.now) }
{
    let mut runs = [0u32; 1024];
    fill_runs(texts.t, texts.store, &mut runs);
    let mut stops = [0u32; 4096];
    fill_stops(texts.store, &mut stops);
    let noted = Noted {
        t: texts.t,
        store: texts.store,
        runs: &runs,
        stops: &stops,
    };
    for k in from..all.rules.len() / RULE_SIZE {
        if !good_rule(&noted, all, k) {
            return Some(k);
        }
    }
    None
}
