// What decides about brackets, and the brackets themselves.
#![tactic(auto, unfolding(text::specs::Splice::spent, crate::specs::Printing::brackets, crate::specs::Printing::enclosed))]

ghost use Rattle.std.specs.Prelude.{◌≡◌, []};
ghost use Rattle.text.specs.Splice.{Room, Wrote, spent};
ghost use Rattle.table.specs.Record.{atom_of, wrap_of};
ghost use Rattle.forms.specs.declared.Style.TheVariants.{Short};
ghost use Rattle.forms.specs.declared.Form.TheVariants.{Prefix, Tag, Joined};
ghost use Rattle.forms.specs.Printing as Printing;
ghost use Rattle.forms.specs.Printing.{join_brackets, opening, closing, enclosed, atom_form, unary_form, wrap_form, unary_over, over_of};

use crate::{Form, Over, Place, Style};
use table::{Join, Leaf, Op, Unary};
use text::inner::splice::{put_byte, spend};

// In the short text a join on the left of another stands in brackets if it is Choice under Seq; on the right, also
// if both are the same.
fn short_join(place: Place, join: Join) -> bool
    ensures { result ≡ join_brackets Short place join }
{
    match place {
        Place::Alone => false,
        Place::Prefixed | Place::Operand => true,
        Place::LeftOf(over) => over == Join::Seq && join == Join::Choice,
        Place::RightOf(over) => over == Join::Seq || join == Join::Choice,
    }
}

// A join's brackets. In the full text a right child of the same operator goes on its chain.
pub fn join_brackets(style: Style, place: Place, join: Join) -> bool
    ensures { result ≡ Printing.brackets style place (Joined join) }
{
    match style {
        Style::Full => place != Place::RightOf(join),
        Style::Short => short_join(place, join),
    }
}

// A tag's.
pub fn tag_brackets(style: Style, place: Place) -> bool
    ensures { result ≡ Printing.brackets style place Tag }
{
    style == Style::Full || matches!(place, Place::Prefixed | Place::Operand)
}

// A predicate's, in both styles alike: it has them as a postfix operand, which `as_postfix_operand` sees to
// in ast.rs.
pub fn prefix_brackets(style: Style, place: Place) -> bool
    ensures { result ≡ Printing.brackets style place Prefix }
{
    place == Place::Operand
}

// A leaf's, wherever it stands.
pub fn leaf_brackets(style: Style, place: Place, leaf: Leaf) -> bool
    ensures { result ≡ Printing.brackets style place (atom_form (atom_of [] leaf)) }
{
    style == Style::Full && matches!(leaf, Leaf::Range(_, _))
}

// Whether an expression stands in brackets. Where its form is known, one of the functions above tells; they are
// small enough for the compiler to put into the walks, and this one isn't.
pub fn brackets(style: Style, place: Place, form: Form) -> bool
    ensures { result ≡ Printing.brackets style place form }
{
    match form {
        Form::Plain | Form::Postfix => false,
        Form::Range => style == Style::Full,
        Form::Prefix => prefix_brackets(style, place),
        Form::Tag => tag_brackets(style, place),
        Form::Joined(join) => join_brackets(style, place, join),
    }
}

fn unary_form(unary: Unary) -> Form
    ensures { result ≡ unary_form unary }
{
    match unary {
        Unary::PosPred | Unary::NegPred => Form::Prefix,
        Unary::Push => Form::Plain,
        _ => Form::Postfix,
    }
}

pub fn op_form(op: Op) -> Form
    ensures { result ≡ wrap_form (wrap_of [] op) }
{
    match op {
        Op::Plain(unary) => unary_form(unary),
        Op::NodeTag(_, _) => Form::Tag,
    }
}

// Where the child of a form stands.
pub fn under(form: Form) -> Place
    ensures { result ≡ Printing.under form }
{
    match form {
        Form::Plain | Form::Range | Form::Joined(_) => Place::Alone,
        Form::Prefix | Form::Tag => Place::Prefixed,
        Form::Postfix => Place::Operand,
    }
}

// Behind a predicate or a tag.
fn bracketed(on: bool) -> Over
    ensures { result ≡ Printing.bracketed on }
{
    Over::Before(Place::Prefixed, on, on)
}

// Each predicate has an arm of its own: with one for both, the compiled walk that writes took stack for each in a chain
// of them.
fn unary_over(style: Style, place: Place, unary: Unary) -> Over
    ensures { result ≡ unary_over style place unary }
{
    match unary {
        Unary::PosPred => bracketed(prefix_brackets(style, place)),
        Unary::NegPred => bracketed(prefix_brackets(style, place)),
        Unary::Push => Over::Before(Place::Alone, false, true),
        _ => Over::Behind(unary),
    }
}

// How what stands over one child is written. Two ways are as many as pay: with more calls of itself the writing
// walk takes more stack, and with one for all it takes up to a tenth more time.
pub fn over(style: Style, place: Place, op: Op) -> Over
    ensures { result ≡ over_of style place op }
{
    match op {
        Op::Plain(unary) => unary_over(style, place, unary),
        Op::NodeTag(_, _) => bracketed(tag_brackets(style, place)),
    }
}

// What is left after both brackets.
pub fn spend_brackets(on: bool, left: usize) -> usize
    ensures { result ≡ spent left (enclosed on []) }
{
    if on {
        return spend(left, 2);
    }
    left
}

pub fn put_open(on: bool, out: &mut [u8], at: usize) -> usize
    requires { Room out.old at (opening on) }
    ensures { Wrote out.old at (opening on) out.new result }
{
    if on {
        return put_byte(b'(', out, at);
    }
    at
}

pub fn put_close(on: bool, out: &mut [u8], at: usize) -> usize
    requires { Room out.old at (closing on) }
    ensures { Wrote out.old at (closing on) out.new result }
{
    if on {
        return put_byte(b')', out, at);
    }
    at
}

fn join_byte(join: Join) -> u8
    ensures { result ≡ Printing.join_byte join }
{
    match join {
        Join::Seq => b'~',
        Join::Choice => b'|',
    }
}

pub fn put_separator(join: Join, out: &mut [u8], at: usize) -> usize
    requires { Room out.old at (Printing.separator join) }
    ensures { Wrote out.old at (Printing.separator join) out.new result }
{
    out[at] = b' ';
    out[at + 1] = join_byte(join);
    out[at + 2] = b' ';
    at + 3
}
