// Types by number: 0 none, 1 integer, 2 Boolean, 3 real. An operator is the number of its symbol's kind: 17 'and' to 21 'equiv', 22 `+`
// to 25 `%`, 26 `<` to 31 `#`, 41 `/`; 'not' is 19.
ghost use Rattle.std.specs.Prelude.{◌≡◌, ◌||◌};
ghost use Rattle.types.specs.model.Passes.{apart_of, differ_of, wider_of, armed_of, wide_of, sign_sort, sign_gives_sort, takes_sort, unfit_of, gives_sort};

// Kept: what may not change, `types::check` holds it: of any words, a type's number may be none of these, and an operator's too.
pub const NONE: u16 = 0;

pub const INTEGER: u16 = 1;

pub const BOOLEAN: u16 = 2;

pub const REAL: u16 = 3;

// Known both, and Boolean the one or the other alone: integer and real mix, and what has no type "causes no other fault".
#[tactic(auto, unfolding(crate::specs::model::Passes::apart_of))]
pub fn apart(a: u16, b: u16) -> bool
    ensures { result ≡ apart_of a b }
{
    a != NONE && b != NONE && (a == BOOLEAN) != (b == BOOLEAN)
}

// Known both, and not the same.
#[tactic(auto, unfolding(crate::specs::model::Passes::differ_of))]
pub fn differ(a: u16, b: u16) -> bool
    ensures { result ≡ differ_of a b }
{
    a != NONE && b != NONE && a != b
}

// The type of a sum: real where one of the two is.
#[tactic(auto, unfolding(crate::specs::model::Passes::wider_of))]
fn wider(a: u16, b: u16) -> u16
    ensures { result ≡ wider_of a b }
{
    if a == REAL || b == REAL {
        REAL
    } else {
        INTEGER
    }
}

// The type of a conditional expression, by those of its parts.
#[tactic(auto, unfolding(crate::specs::model::Passes::armed_of))]
pub fn armed(a: u16, b: u16) -> u16
    ensures { result ≡ armed_of a b }
{
    if b == REAL { REAL } else { a }
}

// Which of its parts is a whole number beside a real.
#[tactic(auto, unfolding(crate::specs::model::Passes::wide_of))]
pub fn wide(a: u16, b: u16) -> u16
    ensures { result ≡ wide_of a b }
{
    match (a, b) {
        (INTEGER, REAL) => 1,
        (REAL, INTEGER) => 2,
        _ => 0,
    }
}

// The type of a sign's operand.
#[tactic(auto, unfolding(crate::specs::model::Passes::sign_sort))]
pub fn sign_takes(kind: u16) -> u16
    ensures { result ≡ sign_sort kind }
{
    if kind == 19 { BOOLEAN } else { INTEGER }
}

// The type that it gives.
#[tactic(auto, unfolding(crate::specs::model::Passes::sign_gives_sort))]
pub fn sign_gives(kind: u16, sort: u16) -> u16
    ensures { result ≡ sign_gives_sort kind sort }
{
    if kind == 19 {
        BOOLEAN
    } else {
        wider(sort, NONE)
    }
}

// The type of an operator's operands, real beside integer.
#[tactic(auto, unfolding(crate::specs::model::Passes::takes_sort))]
fn takes(kind: u16) -> u16
    ensures { result ≡ takes_sort kind }
{
    if kind < 22 { BOOLEAN } else { INTEGER }
}

// Whether an operand is of the wrong type: "`%`: both integer".
#[tactic(auto, unfolding(crate::specs::model::Passes::unfit_of))]
fn unfit(kind: u16, sort: u16) -> bool
    ensures { result ≡ unfit_of kind sort }
{
    if kind == 25 {
        differ(sort, INTEGER)
    } else {
        apart(sort, takes(kind))
    }
}

// Whether one of two is.
pub fn unfit_one(kind: u16, a: u16, b: u16) -> bool
    ensures { result ≡ (unfit_of kind a || unfit_of kind b) }
{
    unfit(kind, a) || unfit(kind, b)
}

// The type that an operator gives, by those of its operands.
#[tactic(auto, unfolding(crate::specs::model::Passes::gives_sort))]
pub fn gives(kind: u16, a: u16, b: u16) -> u16
    ensures { result ≡ gives_sort kind a b }
{
    match kind {
        22..=24 => wider(a, b),
        25 => INTEGER,
        41 => REAL,
        _ => BOOLEAN,
    }
}
