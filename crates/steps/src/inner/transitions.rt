// The table of states.
pub mod moves;
mod notes;
mod texts;
mod words;

ghost use Rattle.std.specs.Prelude.{◌≡◌, true, ◌+◌, ◌≤◌};
ghost use Rattle.text.specs.Classes.{classes};
ghost use Rattle.text.specs.Limits.{max_text};
ghost use Rattle.states.specs.Keep.{state_fits};
ghost use Rattle.states.specs.Machine as Machine;
ghost use Rattle.steps.specs.Shapes.{out_of};

use crate::Row;
use moves::Piece;
use states::{Conf, State};

// A byte, by the state.
#[tactic(auto, using(states::proofs::Small::esc_small, states::proofs::Small::un_small, states::proofs::Small::doc_small, states::proofs::Small::text_small, states::proofs::Small::bar_small))]
pub fn step(t: &[u8; 256], c: Conf, x: u8) -> Row
    requires t_value { t.now ≡ classes }
    requires size_bound { c.start + c.size ≤ max_text }
    requires size_value { state_fits c.state c.size ≡ true }
    ensures { out_of result ≡ Machine.step c x }
{
    let q = c.state;
    let a = c.start;
    let p = Piece {
        start: a,
        size: c.size,
    };
    match q {
        State::Start => words::start(t, a, x),
        State::Word => words::word(t, p, x),
        State::Push => words::push(t, p, x),
        State::Num => words::number(t, q, 20, p, x),
        State::Hash => words::hash(t, a, x),
        State::Tag => words::tag(t, p, x),
        State::Dot => words::dot(a, x),
        State::Caret => moves::first(a).grow_if(x == b'"', State::Str(24), a),
        State::Minus => words::zeros(t, moves::first(a), x),
        State::Zeros => words::zeros(t, p, x),
        State::Negative => words::number(t, q, 21, p, x),
        State::Str(kind) => texts::string(kind, p, x),
        State::Esc(l, b) => texts::escape(l, b, p, x),
        State::X0(l, b) => texts::pair(l, b, p, x),
        State::X1(l, b) => texts::paired(l, b, p, x),
        State::U(l, b) => texts::brace(l, b, p, x),
        State::Un(l, b, j) => texts::braced(l, b, j, p, x),
        State::Chr => texts::character(a, x),
        State::More(tail) => texts::more(tail, p, x),
        State::Quote => texts::quote(p, x),
        State::Slash => notes::slash(a, x),
        State::Slash2 => notes::slash2(a, x),
        State::Line => notes::line(p, x),
        State::Doc(kind) => notes::doc(kind, p, x),
        State::DocCr(kind) => notes::doc_cr(kind, p, x),
        State::Cr => notes::cr(a, x),
        State::Com(d) => notes::comment(d, p, x),
        State::Star(d) => notes::star(d, p, x),
        State::Bar(d) => notes::bar(d, p, x),
        State::Refused => moves::refuse(a),
    }
}
