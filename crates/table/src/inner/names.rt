// The rule of a name.
ghost use Rattle.std.specs.Prelude.{◌≡◌};
ghost use Rattle.table.specs.Names.{same_text, rule_named, NamesInside};

use super::layout::{RULE_SIZE, head_at};

#[tactic(auto, using(crate::proofs::Names::same_listed))]
pub fn same_text(a: &[u8], b: &[u8]) -> bool
    ensures { result ≡ same_text a.now b.now }
{
    a == b
}

// The lowest rule of a name.
#[tactic(auto, using(crate::proofs::Names::named_at, crate::proofs::Names::other_at, crate::proofs::Names::named_none, crate::proofs::Names::head_name, crate::proofs::Names::head_inside, crate::proofs::Lowest::lowest_none, crate::proofs::Lowest::lowest_more))]
pub fn rule_named(rules: &[u32], store: &[u8], name: &[u8]) -> Option<usize>
    requires { NamesInside rules.now store.now }
    ensures { result ≡ rule_named rules.now store.now name.now }
{
    for k in 0..rules.len() / RULE_SIZE {
        let head = head_at(rules, k);
        if same_text(&store[head.offset..head.offset + head.length], name) {
            return Some(k);
        }
    }
    None
}
