// A pass: tables are printed, and the text is read back into new tables.
//
// `pass` asks nothing of its callers. That what is printed is read back is promised of it with no premise on how wide numbers are: a
// lent table has none of more than 32 bits.
#![tactic(auto)]

ghost use Rattle.pass.specs.Pass.{Passes, Demand};

use forms::Style;
use printer::PrintError;
use structure::{Edition, Level, Refusal};

// The bytes of the text, and the nodes, rules and store bytes that were read from it; or the bytes of a text that was printed, and why
// it was not read, and where; or why nothing was printed, as the printer says it.
#[derive(Clone, Copy)]
pub enum Passed {
    Read(usize, usize, usize, usize),
    Unread(usize, Refusal),
    Shape,
    Node(usize),
    Rule(usize),
    NoRoom,
}

// Prints tables to the front of `text`, and reads that text into the new tables.
pub fn pass(
    style: Style,
    edition: Edition,
    level: Level,
    nodes: &[u32],
    rules: &[u32],
    store: &[u8],
    text: &mut [u8],
    new_nodes: &mut [u32],
    new_rules: &mut [u32],
    new_store: &mut [u8],
) -> Passed
    ensures passes { Passes style edition level nodes.now rules.now store.now text.old new_nodes.old new_rules.old new_store.old result text.new new_nodes.new new_rules.new new_store.new }
    ensures demand { Demand style edition level nodes.now rules.now store.now text.old new_nodes.old new_rules.old new_store.old result new_nodes.new new_rules.new new_store.new }
{
    let printed = printer::print(style, nodes, rules, store, text);
    match printed {
        Ok(n) => {
            let reading = reader::read(&text[..n], edition, level, new_nodes, new_rules, new_store);
            match reading {
                Ok((x, y, z)) => Passed::Read(n, x, y, z),
                Err(refusal) => Passed::Unread(n, refusal),
            }
        }
        Err(PrintError::Shape) => Passed::Shape,
        Err(PrintError::Node(i)) => Passed::Node(i),
        Err(PrintError::Rule(k)) => Passed::Rule(k),
        Err(PrintError::NoRoom) => Passed::NoRoom,
    }
}
