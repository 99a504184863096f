// A cell as two numbers of the store, a kind and a load. A store that is all 0 has unassigned whole numbers.
ghost use Rattle.std.specs.Prelude.{◌≡◌};
ghost use Rattle.std.specs.Int.{w64};
ghost use Rattle.std.proofs.Common.{of_z};
ghost use Rattle.reals.specs.model.Stored.{kind_of, load_of, cell_of, whole_in, real_in};

use crate::words::{bits_in, bits_of, long_number, long_word};
use crate::{Cell, Form, Two, Value};

// Kept: what may not change, `kind_of` holds it: a cell's kind is one of the store's numbers.
const UNSET_WHOLE: i64 = 0;

const UNSET_TRUTH: i64 = 1;

const UNSET_REAL: i64 = 2;

const TRUTH: i64 = 3;

const WHOLE: i64 = 4;

const REAL: i64 = 5;

const NAMED: i64 = 6;

fn unset(form: Form) -> i64
    ensures { result ≡ kind_of (Cell.Unset form) }
{
    match form {
        Form::Wholes => UNSET_WHOLE,
        Form::Truths => UNSET_TRUTH,
        Form::Reals => UNSET_REAL,
    }
}

#[tactic(auto, unfolding(crate::specs::model::Stored::load_of))]
fn truth(b: bool) -> i64
    ensures { result ≡ load_of (Cell.Holds (Value.Truth b)) }
{
    i64::from(b)
}

fn held(v: Value) -> Two
    ensures { (result.kind ≡ kind_of (Cell.Holds v)) × (result.load ≡ load_of (Cell.Holds v)) }
{
    match v {
        Value::Whole(z) => Two {
            kind: WHOLE,
            load: z as i64,
        },
        Value::Real(x) => Two {
            kind: REAL,
            load: long_number(bits_of(x)),
        },
        Value::Truth(b) => Two {
            kind: TRUTH,
            load: truth(b),
        },
    }
}

pub fn encode(x: Cell) -> Two
    ensures { (result.kind ≡ kind_of x) × (result.load ≡ load_of x) }
{
    match x {
        Cell::Holds(v) => held(v),
        Cell::Unset(f) => Two {
            kind: unset(f),
            load: 0,
        },
        Cell::Named(a) => Two {
            kind: NAMED,
            load: a as i64,
        },
    }
}

#[tactic(auto, unfolding(crate::specs::model::Stored::whole_in))]
fn whole_in(x: i64) -> Cell
    ensures { result ≡ whole_in x }
{
    match i32::try_from(x) {
        Ok(z) => Cell::Holds(Value::Whole(z)),
        Err(_) => Cell::Unset(Form::Wholes),
    }
}

fn real_in(b: u64) -> Cell
    ensures { result ≡ real_in b }
{
    match bits_in(b) {
        Some(x) => Cell::Holds(Value::Real(x)),
        None => Cell::Unset(Form::Reals),
    }
}

// Any two numbers are a cell.
pub fn decode(kind: i64, load: i64) -> Cell
    ensures { result ≡ cell_of (of_z w64 kind) load }
{
    match kind {
        WHOLE => whole_in(load),
        REAL => real_in(long_word(load)),
        TRUTH => Cell::Holds(Value::Truth(load != 0)),
        UNSET_TRUTH => Cell::Unset(Form::Truths),
        UNSET_REAL => Cell::Unset(Form::Reals),
        NAMED => Cell::Named((long_word(load) % 2147483648) as u32),
        _ => Cell::Unset(Form::Wholes),
    }
}
