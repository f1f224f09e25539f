// UTF-8 as it arrives.
ghost use Rattle.std.specs.Prelude.{◌≡◌};
ghost use Rattle.states.specs.Machine.{tail_ok};
ghost use Rattle.states.specs.Utf.{utf_lead, utf_step, utf_end, broken_at};
ghost use Rattle.steps.specs.Shapes.{tail_after};

use states::{Tail, Utf};

// The byte may come next.
pub(crate) fn tail_ok(t: Tail, x: u8) -> bool
    ensures { result ≡ tail_ok t x }
{
    match t {
        Tail::T1 | Tail::T2 | Tail::T3 => matches!(x, 0x80..=0xbf),
        Tail::TE0 => matches!(x, 0xa0..=0xbf),
        Tail::TED => matches!(x, 0x80..=0x9f),
        Tail::TF0 => matches!(x, 0x90..=0xbf),
        Tail::TF4 => matches!(x, 0x80..=0x8f),
    }
}

// A first byte, at a place.
#[tactic(auto, unfolding(states::specs::Utf::utf_lead))]
pub(crate) fn lead(at: usize, x: u8) -> Utf
    ensures { result ≡ utf_lead at x }
{
    match x {
        0..=0x7f => Utf::Whole,
        0xc2..=0xdf => Utf::Mid(Tail::T1, at),
        0xe0 => Utf::Mid(Tail::TE0, at),
        0xed => Utf::Mid(Tail::TED, at),
        0xe1..=0xef => Utf::Mid(Tail::T2, at),
        0xf0 => Utf::Mid(Tail::TF0, at),
        0xf1..=0xf3 => Utf::Mid(Tail::T3, at),
        0xf4 => Utf::Mid(Tail::TF4, at),
        _ => Utf::Broke(at),
    }
}

// What has to follow the byte that one was waited for with: nothing, or continuation bytes alone.
pub(crate) fn after(t: Tail) -> Option<Tail>
    ensures { result ≡ tail_after t }
{
    match t {
        Tail::T1 => None,
        Tail::T2 | Tail::TE0 | Tail::TED => Some(Tail::T1),
        Tail::T3 | Tail::TF0 | Tail::TF4 => Some(Tail::T2),
    }
}

// A byte at a place.
pub fn step(u: Utf, at: usize, x: u8) -> Utf
    ensures { result ≡ utf_step u at x }
{
    match u {
        Utf::Whole => lead(at, x),
        Utf::Mid(t, start) if tail_ok(t, x) => match after(t) {
            None => Utf::Whole,
            Some(left) => Utf::Mid(left, start),
        },
        Utf::Mid(_, start) => Utf::Broke(start),
        Utf::Broke(place) => Utf::Broke(place),
    }
}

// A sequence that is broken.
pub fn broken(u: Utf) -> Option<usize>
    ensures { result ≡ broken_at u }
{
    match u {
        Utf::Whole | Utf::Mid(_, _) => None,
        Utf::Broke(place) => Some(place),
    }
}

// One that is broken, or cut by the text's end.
pub fn ended(u: Utf) -> Option<usize>
    ensures { result ≡ utf_end u }
{
    match u {
        Utf::Whole => None,
        Utf::Mid(_, place) | Utf::Broke(place) => Some(place),
    }
}
