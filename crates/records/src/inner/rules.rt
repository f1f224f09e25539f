// Rule records.
ghost use Rattle.std.specs.Prelude.{◌≡◌, [], ◌∷◌};
ghost use Rattle.records.specs.Records.{rule_written, RuleFits};

use table::inner::layout::RULE_SIZE;

// Writes a rule record: where the name lies in the store, the mark, the root, the name's span.
pub fn put_rule(
    rules: &mut [u32],
    index: usize,
    offset: usize,
    length: usize,
    mark: usize,
    root: usize,
    a: usize,
    z: usize,
)
    requires { RuleFits rules.old index offset length mark root a z }
    ensures { rules.new ≡ rule_written rules.old index (offset ∷ length ∷ mark ∷ root ∷ a ∷ z ∷ []) }
{
    // Stores one by one, as for nodes.
    let i = RULE_SIZE * index;
    rules[i] = offset as u32;
    rules[i + 1] = length as u32;
    rules[i + 2] = mark as u32;
    rules[i + 3] = root as u32;
    rules[i + 4] = a as u32;
    rules[i + 5] = z as u32;
}
