// What programs do with a layout: all that the desk is to write, at the front of a lent output; and a layout's
// tables with the rule of a name. The entry points ask nothing of their callers.
#![tactic(auto)]

ghost use Rattle.std.specs.Prelude.{◌≡◌, length};
ghost use Rattle.show.specs.Shown.{refused_by};
ghost use Rattle.printer.specs.Answers.{numbered as printNumbered};
ghost use Rattle.show.specs.Desk.{printed as answered, answer_of, answer_in, desk_of, desk_in};
ghost use Rattle.structure.specs.declared.Edition.TheVariants.{First};
ghost use Rattle.structure.specs.declared.Level.TheVariants.{Tagged};
ghost use Rattle.reader.specs.Read.{room_for_nodes, room_for_rules, read_of, Leaves};
ghost use Rattle.replies.specs.Replies.{numbered};
ghost use Rattle.show.specs.Layout.{refused_layout, layout_in, layout_of};

use forms::Style;
use printer::PrintError;
use replies::FindError;
use structure::{Edition, Level};
use table::inner::layout::{NODE_SIZE, RULE_SIZE};
use text::limits;

// The bytes of a text or of a refusal's line; or not even the line has room.
#[derive(Clone, Copy)]
pub enum Shown {
    Text(usize),
    Refused(usize),
    NoRoom,
}

// The bytes of the printed text, or why there is none.
#[derive(Clone, Copy)]
pub enum Answer {
    Printed(usize),
    Refused { number: u64, place: u64 },
}

// The numbers of a layout's tables, the lengths of their parts in the lent buffers, and the index of a rule;
// or the layout's refusal; or it has no rule of that name.
#[derive(Clone, Copy)]
pub enum Layout {
    Tables {
        nodes: usize,
        rules: usize,
        store: usize,
        start: usize,
    },
    Refused {
        number: u64,
        place: u64,
    },
    NoRule,
}

// What the printer answers, as the desk's answer.
#[tactic(auto, unfolding(printer::specs::Answers::numbered, crate::specs::Desk::printed))]
fn answer_of(printed: Result<usize, PrintError>) -> Answer
    ensures { result ≡ answered (printNumbered printed) }
{
    let number = printer::number_of(printed);
    match printed {
        Ok(n) => Answer::Printed(n),
        Err(PrintError::Node(i)) => Answer::Refused {
            number,
            place: i as u64,
        },
        Err(PrintError::Rule(k)) => Answer::Refused {
            number,
            place: k as u64,
        },
        Err(PrintError::Shape) | Err(PrintError::NoRoom) => Answer::Refused { number, place: 0 },
    }
}

// Reads a text and prints it in a style, with room for 2,048 nodes, 1,024 rules and 65,536 store bytes.
fn print_back(style: Style, text: &[u8], out: &mut [u8]) -> Answer
    ensures value { result ≡ answer_of style text.now (length out.old) }
    ensures out_after { out.new ≡ answer_in style text.now out.old result }
{
    let mut nodes = [0u32; NODE_SIZE * 2048];
    let mut rules = [0u32; RULE_SIZE * limits::RULES];
    let mut store = [0u8; limits::STORE];
    let reading = reader::read(
        text,
        Edition::First,
        Level::Tagged,
        &mut nodes,
        &mut rules,
        &mut store,
    );
    match reading {
        Ok((n, r, b)) => {
            let n = NODE_SIZE * n;
            let r = RULE_SIZE * r;
            answer_of(printer::print(style, &nodes[..n], &rules[..r], &store[..b], out))
        }
        Err(refusal) => {
            let why = refusal.why;
            Answer::Refused {
                number: reader::number_of(why),
                place: refusal.place as u64,
            }
        }
    }
}

// A refusal's line as what is shown.
#[tactic(auto, unfolding(crate::specs::Shown::refused_by))]
fn refused(line: Option<usize>) -> Shown
    ensures { result ≡ refused_by line }
{
    match line {
        Some(n) => Shown::Refused(n),
        None => Shown::NoRoom,
    }
}

// All that the programs desk and short write: the text printed in a style, or the line of its refusal.
pub fn desk(style: Style, text: &[u8], out: &mut [u8]) -> Shown
    ensures answered { result ≡ desk_of style text.now (length out.old) }
    ensures written { out.new ≡ desk_in style text.now out.old }
{
    let answer = print_back(style, text, out);
    match answer {
        Answer::Printed(n) => Shown::Text(n),
        Answer::Refused { number, place } => refused(rows::refusal(number, place, out)),
    }
}

// The refusal of tables.
#[tactic(auto, unfolding(crate::specs::Layout::refused_layout))]
fn refused_layout(answer: replies::Answer) -> Layout
    ensures { result ≡ refused_layout (numbered answer) }
{
    let row = replies::row_of(answer);
    Layout::Refused {
        number: row.number,
        place: row.place,
    }
}

// The rule of a name in tables that are lent whole.
#[tactic(auto, unfolding(crate::specs::Layout::layout_in, crate::specs::Layout::layout_by))]
fn layout_in(nodes: &[u32], rules: &[u32], store: &[u8], name: &[u8]) -> Layout
    ensures { result ≡ layout_in nodes.now rules.now store.now name.now }
{
    let found = matcher::rule_named(nodes, rules, store, name);
    match found {
        Ok(start) => Layout::Tables {
            nodes: nodes.len(),
            rules: rules.len(),
            store: store.len(),
            start,
        },
        Err(FindError::FalseTables) => refused_layout(replies::Answer::FalseTables),
        Err(FindError::NoRule) => Layout::NoRule,
    }
}

// Reads a layout at the tagged level into lent buffers, and finds the rule of a name.
pub fn read_layout(
    text: &[u8],
    name: &[u8],
    nodes: &mut [u32],
    rules: &mut [u32],
    store: &mut [u8],
) -> Layout
    ensures answered { result ≡ layout_of text.now name.now (room_for_nodes nodes.old) (room_for_rules rules.old) (length store.old) }
    ensures tables { Leaves Tagged text.now (read_of First Tagged text.now (room_for_nodes nodes.old) (room_for_rules rules.old) (length store.old)) nodes.old rules.old store.old nodes.new rules.new store.new }
{
    let reading = reader::read(text, Edition::First, Level::Tagged, nodes, rules, store);
    match reading {
        Ok((n, r, b)) => {
            let n = NODE_SIZE * n;
            let r = RULE_SIZE * r;
            layout_in(&nodes[..n], &rules[..r], &store[..b], name)
        }
        Err(refusal) => {
            let why = refusal.why;
            Layout::Refused {
                number: reader::number_of(why),
                place: refusal.place as u64,
            }
        }
    }
}
