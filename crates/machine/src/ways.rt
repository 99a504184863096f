// Values on their way between a cell and a name formal: each formal on the way converts them.
ghost use Rattle.std.specs.Prelude.{◌≡◌, ◌&&◌, ◌≤◌};
ghost use Rattle.machine.specs.Limits.{most_links};
ghost use Rattle.machine.specs.Data.{suits as suitsOf, form_in};
ghost use Rattle.machine.specs.model.Holding.{turned as turnedOf, all_suit, out_t, in_t, read_t, reach_t, links_of};

use crate::Trouble;
use crate::activations::{Memory, link_form, link_place};
use crate::values::suits;
use answers::Answer;
use reals::conversions::{convert, form_of};
use reals::{Cell, Form, Outcome, Value};

// A conversion's value, or its fault at q.
pub fn turned(q: usize, r: Outcome) -> Result<Value, Trouble>
    ensures { result ≡ turnedOf q r }
{
    match r {
        Outcome::Is(v) => Ok(v),
        Outcome::Fault(a) => Err(Trouble::Fault(a, q)),
        Outcome::Stray => Err(Trouble::Stray),
    }
}

// Whether each of the k formals on the way is of the type's kind.
fn along(own: &Memory, form: Form, k: usize) -> bool
    requires { k ≤ most_links }
    ensures { result ≡ all_suit form (links_of own.now k) }
{
    for j in (0..k).rev() {
        if !suits(form, link_form(own, j)) {
            return false;
        }
    }
    true
}

// A value read, through k formals: the innermost is the first.
fn outward(own: &Memory, k: usize, v: Value) -> Result<Value, Trouble>
    requires { k ≤ most_links }
    ensures { result ≡ out_t (links_of own.now k) v }
{
    let mut u = v;
    for j in 0..k {
        u = turned(link_place(own, j) as usize, convert(link_form(own, j), u))?;
    }
    Ok(u)
}

// A value stored at q in a cell of the type, through k formals: the outermost is the last.
pub fn inward(own: &Memory, k: usize, q: usize, form: Form, v: Value) -> Result<Value, Trouble>
    requires { k ≤ most_links }
    ensures { result ≡ in_t q form (links_of own.now k) v }
{
    let mut u = v;
    for j in (0..k).rev() {
        u = turned(q, convert(link_form(own, j), u))?;
    }
    turned(q, convert(form, u))
}

// The type of a cell.
pub fn form_in(x: Cell) -> Form
    ensures { result ≡ form_in x }
{
    match x {
        Cell::Holds(v) => form_of(v),
        Cell::Unset(form) => form,
        Cell::Named(_) => Form::Wholes,
    }
}

// Whether a value of the one type goes to a cell of the other, through k formals.
fn reaches(own: &Memory, k: usize, form: Form, other: Form) -> bool
    requires { k ≤ most_links }
    ensures { result ≡ (suitsOf form other && all_suit form (links_of own.now k)) }
{
    suits(form, other) && along(own, form, k)
}

// What a read at q of a cell gives, which is to be of the type's kind.
pub fn reading(own: &Memory, k: usize, q: usize, form: Form, x: Cell) -> Result<Value, Trouble>
    requires { k ≤ most_links }
    ensures { result ≡ read_t form q (links_of own.now k) x }
{
    match x {
        Cell::Holds(v) => {
            if reaches(own, k, form, form_of(v)) {
                return outward(own, k, v);
            }
            Err(Trouble::Stray)
        }
        Cell::Unset(t) => {
            if reaches(own, k, form, t) {
                return Err(Trouble::Fault(Answer::UNASSIGNED, q));
            }
            Err(Trouble::Stray)
        }
        Cell::Named(_) => Err(Trouble::Stray),
    }
}

// The type of a cell, if values of the other type reach it.
pub fn reach(own: &Memory, k: usize, form: Form, x: Cell) -> Option<Form>
    requires { k ≤ most_links }
    ensures { result ≡ reach_t form (links_of own.now k) x }
{
    match x {
        Cell::Holds(v) => {
            let t = form_of(v);
            if reaches(own, k, form, t) {
                return Some(t);
            }
            None
        }
        Cell::Unset(t) => {
            if reaches(own, k, form, t) {
                return Some(t);
            }
            None
        }
        Cell::Named(_) => None,
    }
}
