// What stands around nodes: predicates, postfixes and choices, by loops, and records over the node
// that was written last.
ghost use Rattle.std.specs.Prelude.{◌≡◌, ◌+◌, ◌-◌};
ghost use Rattle.token.specs.Table.{Lent};
ghost use Rattle.structure.specs.Answers.{sign_of};
ghost use Rattle.build.specs.Build.{SignsRoom, SignsPut, PostsRoom, PostsPut, ChoiceRoom, chosen_end, chosen_of};
ghost use Rattle.records.specs.Records.{written};

use super::values::suffix_at;
use crate::PutPostfixes;
use records::inner::nodes::{put_join, put_unary};
use table::{Join, Unary};
use token::inner::listing::{end_at, kind_at, start_at};
use token::kind;

// The predicate that a token is.
fn predicate_at(text: &[u8], tokens: &[u32], at: usize) -> Unary
    requires { Lent text.now tokens.now }
    ensures { result ≡ sign_of text.now at }
{
    if kind_at(text, tokens, at) == kind::AMPERSAND {
        return Unary::PosPred;
    }
    Unary::NegPred
}

// Writes the records of the predicates from one token to another, the last first.
pub fn put_predicates(
    text: &[u8],
    tokens: &[u32],
    nodes: &mut [u32],
    at: usize,
    last: usize,
    used: usize,
    z: usize,
) -> usize
    requires lent { Lent text.now tokens.now }
    requires signs_room { SignsRoom nodes.old at last z used }
    ensures answer { result ≡ used + (last - at) }
    ensures table { SignsPut text.now at last z used nodes.old nodes.new }
{
    let mut u = used;
    for i in (at..last).rev() {
        let a = start_at(text, tokens, i);
        put_unary(nodes, u, a, z, predicate_at(text, tokens, i));
        u += 1;
    }
    u
}

// Writes the records of the postfixes from a token on.
pub fn put_postfixes(
    text: &[u8],
    tokens: &[u32],
    nodes: &mut [u32],
    at: usize,
    used: usize,
    from: usize,
    to: usize,
) -> PutPostfixes
    requires lent { Lent text.now tokens.now }
    requires posts_room { PostsRoom text.now nodes.old at used from to }
    ensures { PostsPut text.now at used from to nodes.old result nodes.new }
{
    let mut i = at;
    let mut u = used;
    let mut z = to;
    loop {
        let suffix = suffix_at(text, tokens, i);
        match suffix {
            Some((op, n)) => {
                z = end_at(text, tokens, n - 1);
                put_unary(nodes, u, from, z, op);
                u += 1;
                i = n;
            }
            None => {
                return PutPostfixes {
                    next: i,
                    used: u,
                    to: z,
                };
            }
        }
    }
}

// Writes the record of a choice, if one is pending, between a node and the one that was written
// last.
pub fn put_choice(
    nodes: &mut [u32],
    chosen: bool,
    left: usize,
    used: usize,
    a: usize,
    z: usize,
) -> usize
    requires { ChoiceRoom nodes.old chosen left used a z }
    ensures answer { result ≡ chosen_end chosen used }
    ensures table { nodes.new ≡ written nodes.old used (chosen_of chosen left used a z) }
{
    if chosen {
        put_join(nodes, used, a, z, Join::Choice, left);
        return used + 1;
    }
    used
}
