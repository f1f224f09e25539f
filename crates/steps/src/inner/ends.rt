// The token that stands when the text ends.
ghost use Rattle.std.specs.Prelude.{◌≡◌, true, ◌+◌, ◌≤◌};
ghost use Rattle.text.specs.Limits.{max_text};
ghost use Rattle.states.specs.Keep.{state_fits};
ghost use Rattle.states.specs.Machine as Machine;
ghost use Rattle.steps.specs.Shapes.{finish_by};

use super::transitions::moves::{self, Piece};
use crate::Finish;
use states::{Conf, State};

fn none() -> Finish
    ensures { finish_by result ≡ Machine.no_more }
{
    Finish {
        token: None,
        fault: None,
    }
}

fn fault(place: usize) -> Finish
    ensures { finish_by result ≡ Machine.fault_at place }
{
    Finish {
        token: None,
        fault: Some(place),
    }
}

// The token in hand.
fn whole(kind: usize, p: Piece) -> Finish
    requires { kind ≤ 255 }
    ensures { finish_by result ≡ Machine.last kind p.start (p.start + p.size) }
{
    Finish {
        token: moves::token(kind, p.start, p.start + p.size),
        fault: None,
    }
}

// P to PUSH, or PUSH_LITERAL.
fn push(p: Piece) -> Finish
    ensures { finish_by result ≡ Machine.end_row State.Push p.start p.size }
{
    if p.size < 5 || p.size == 12 {
        return whole(18, p);
    }
    fault(p.start)
}

// By the state.
#[tactic(auto, using(states::proofs::Small::esc_small, states::proofs::Small::un_small, states::proofs::Small::doc_small))]
pub fn finish(c: Conf) -> Finish
    requires size_bound { c.start + c.size ≤ max_text }
    requires size_value { state_fits c.state c.size ≡ true }
    ensures { finish_by result ≡ Machine.finish c }
{
    let a = c.start;
    let p = Piece {
        start: a,
        size: c.size,
    };
    match c.state {
        State::Start | State::Slash2 | State::Line => none(),
        State::Word => whole(18, p),
        State::Push => push(p),
        State::Num => whole(20, p),
        State::Tag => whole(19, p),
        State::Negative => whole(21, p),
        State::Doc(kind) => whole(kind, p),
        State::DocCr(kind) => whole(kind, p.longer()),
        State::Esc(_, b)
        | State::X0(_, b)
        | State::X1(_, b)
        | State::U(_, b)
        | State::Un(_, b, _) => fault(a + b),
        _ => fault(a),
    }
}
