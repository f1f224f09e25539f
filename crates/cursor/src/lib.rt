// The lister as a cursor: it holds the text and its place, and each call moves the place to the end of
// the token that it gives.
//
// A function that takes, makes or holds a cursor is taken apart by hand in its proof, so these are few
// and thin. The work is done on a slice and a number.
#![tactic(auto)]

ghost use Rattle.std.specs.Prelude.{◌≡◌};
ghost use Rattle.token.specs.Lister.{next_of, numbers_of, lister};
ghost use Rattle.cursor.specs.Cursors.{step_of, two_of, moved};

use token::Listed;

#[derive(Clone, Copy)]
pub struct Cursor<'a> {
    pub text: &'a [u8],
    pub place: usize,
}

// What a call gives, and the lister's place after it.
#[derive(Clone, Copy)]
pub struct Step {
    pub listed: Listed,
    pub place: usize,
}

// What two calls give, one after the other, and the lister's place after them.
#[derive(Clone, Copy)]
pub struct Two {
    pub first: Listed,
    pub second: Listed,
    pub place: usize,
}

// The lister's place after an answer: the token's end, or without a token where it was.
fn place_after(listed: Listed, place: usize) -> usize
    ensures { result ≡ (numbers_of place listed).next }
{
    match listed {
        Listed::Next { end, .. } => end,
        _ => place,
    }
}

// A call of the lister on a slice and a number.
pub fn step_at(text: &[u8], place: usize) -> Step
    ensures { result ≡ step_of text.now place }
{
    let listed = token::next_token(text, place);
    Step {
        listed,
        place: place_after(listed, place),
    }
}

// A cursor at a place, which may be any.
pub fn new<'a>(text: &'a [u8], place: usize) -> Cursor<'a>
    ensures { (result.text ≡ text.entry) × (result.place ≡ place) }
{
    Cursor { text, place }
}

// The next token. The place moves to its end; without a token it stays.
pub fn next<'s, 'a>(cursor: &'s mut Cursor<'a>) -> Listed
    ensures answer { result ≡ next_of cursor.old.text.now cursor.old.place }
    ensures numbers { numbers_of cursor.old.place result ≡ lister cursor.old.text.now cursor.old.place }
    ensures place { cursor.new ≡ moved cursor.old }
{
    let step = step_at(cursor.text, cursor.place);
    cursor.place = step.place;
    step.listed
}

// Two calls of one cursor, for callers that hold a slice and a number.
pub fn next_two(text: &[u8], place: usize) -> Two
    ensures { result ≡ two_of text.now place }
{
    let mut cursor = new(text, place);
    let first = next(&mut cursor);
    let second = next(&mut cursor);
    Two {
        first,
        second,
        place: cursor.place,
    }
}
