// The printer: from tables to text.
//
// `print` stands here and asks nothing of its callers. `inner` has what it is made of: a bound on the
// text, and the two walks from a node to its children, one that measures and one that writes. They carry
// over `Display` and `print_rule` of pest_meta's ast.rs.
#![tactic(auto)]

pub mod inner;

ghost use Rattle.std.specs.Prelude.{◌≡◌, length};
ghost use Rattle.printer.specs.Answers.{false_tables, print_of, print_in, numbered, reported};

use forms::Style;
use table::TableError;

// Why nothing was printed: the tables are false, as `TableError` says, or there is no room.
#[derive(Clone, Copy, Debug, PartialEq, Eq)]
pub enum PrintError {
    Shape,
    Node(usize),
    Rule(usize),
    NoRoom,
}

impl From<TableError> for PrintError {
    ghost from_gives = { λ e r. r ≡ false_tables e };

    fn from(e: TableError) -> PrintError {
        match e {
            TableError::Shape => PrintError::Shape,
            TableError::Node(i) => PrintError::Node(i),
            TableError::Rule(k) => PrintError::Rule(k),
        }
    }
}

// The number of an answer, as callers are told it; 0 is a text.
#[tactic(auto, unfolding(crate::specs::Answers::numbered))]
pub fn number_of(printed: Result<usize, PrintError>) -> u64
    ensures { result ≡ (numbered printed).number }
{
    match printed {
        Ok(_) => 0,
        Err(PrintError::Shape) => 20,
        Err(PrintError::Node(_)) => 21,
        Err(PrintError::Rule(_)) => 22,
        Err(PrintError::NoRoom) => 23,
    }
}

// Prints tables to the front of a buffer, a rule to a line.
pub fn print(
    style: Style,
    nodes: &[u32],
    rules: &[u32],
    store: &[u8],
    out: &mut [u8],
) -> Result<usize, PrintError>
    ensures value { result ≡ print_of style nodes.now rules.now store.now (length out.old) }
    ensures result_value { numbered result ≡ reported style nodes.now rules.now store.now (length out.old) }
    ensures out_after { out.new ≡ print_in style nodes.now rules.now store.now out.old result }
{
    table::check_tables(nodes, rules, store)?;
    inner::walks::print_valid(style, nodes, rules, store, out)
}
