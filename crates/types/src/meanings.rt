// What a name that means something is used as.
ghost use Rattle.std.specs.Prelude.{◌≡◌, ◌≤◌, ◌<◌, eqb, length};
ghost use Rattle.names.specs.model.Rows.{row_in, opens_of};
ghost use Rattle.types.specs.model.Passes.{sort_in, formals_in, given_sort, given_formals, applied_as, plainly_as, primary_of, miscalled_of, given_wants, want_of, variable_of, own_of, left_of};
ghost use Rattle.types.specs.model.Arrays.{MeantWithin};

use crate::{Judgement, Want, sorts};
use answers::{Declaration, Environment, Ordinal};
use grammar::nodes;
use names::Meant;

// The type of a declaration or formal.
fn sort_of(rows: &[u16], d: Declaration) -> u16
    ensures { result ≡ sort_in rows.now d.number }
{
    names::sort(names::row_at(rows, d).sort)
}

// Whether it is of a kind.
fn is_kind(rows: &[u16], d: Declaration, kind: u16) -> bool
    ensures { result ≡ eqb (row_in rows.now d.number).kind kind }
{
    names::row_at(rows, d).kind == kind
}

// How many formals stand behind a procedure.
fn formals(rows: &[u16], d: Declaration) -> usize
    requires { (length rows.now ≤ 32768) × (d.number < 65536) }
    ensures value { result ≡ formals_in rows.now d.number }
    ensures upper_bound { result ≤ 8192 }
{
    (d.number + 1..rows.len() / 4)
        .map(|number| Declaration { number })
        .take_while(|f| is_kind(rows, *f, nodes::FORMAL))
        .count()
}

// The type of what the environment gives.
#[tactic(auto, unfolding(crate::specs::model::Passes::given_sort))]
fn given_sort(e: Environment) -> u16
    ensures { result ≡ given_sort e.number }
{
    if e.number < 2 {
        sorts::INTEGER
    } else {
        sorts::NONE
    }
}

// How many actuals it takes.
#[tactic(auto, unfolding(crate::specs::model::Passes::given_formals))]
fn given_formals(e: Environment) -> usize
    ensures { result ≡ given_formals e.number }
{
    match e.number {
        0 => 1,
        1 => 0,
        _ => 2,
    }
}

// A procedure's name in an expression.
#[tactic(auto, unfolding(crate::specs::model::Passes::applied_as))]
fn applied(sort: u16, wants: usize, has: usize) -> Judgement
    ensures { result ≡ applied_as sort wants has }
{
    Judgement {
        sort,
        wrong: sort == sorts::NONE || wants != has,
    }
}

// A variable or formal in an expression.
#[tactic(auto, unfolding(crate::specs::model::Passes::plainly_as))]
fn plainly(sort: u16, has: usize) -> Judgement
    ensures { result ≡ plainly_as sort has }
{
    if has == 0 {
        Judgement { sort, wrong: false }
    } else {
        Judgement {
            sort: sorts::NONE,
            wrong: true,
        }
    }
}

// A name with `has` actuals as a primary.
pub fn in_expression(rows: &[u16], m: Meant, has: usize) -> Judgement
    requires { (length rows.now ≤ 32768) × MeantWithin m }
    ensures { result ≡ primary_of rows.now m has }
{
    match m {
        Meant::Declared(d) => {
            let sort = sort_of(rows, d);
            if is_kind(rows, d, nodes::PROCEDURE) {
                applied(sort, formals(rows, d), has)
            } else {
                plainly(sort, has)
            }
        }
        Meant::Given(e) => applied(given_sort(e), given_formals(e), has),
        Meant::Nothing => Judgement {
            sort: sorts::NONE,
            wrong: false,
        },
    }
}

// Whether a name with `has` actuals is wrong as a statement.
pub fn miscalled(rows: &[u16], m: Meant, has: usize) -> bool
    requires { (length rows.now ≤ 32768) × MeantWithin m }
    ensures { result ≡ miscalled_of rows.now m has }
{
    match m {
        Meant::Declared(d) => { !is_kind(rows, d, nodes::PROCEDURE) || formals(rows, d) != has }
        Meant::Given(e) => given_formals(e) != has,
        Meant::Nothing => false,
    }
}

// What the environment wants of actual k.
#[tactic(auto, unfolding(crate::specs::model::Passes::given_wants))]
fn given_wants(e: Environment, k: usize) -> Want
    ensures { result ≡ given_wants e.number k }
{
    if given_formals(e) <= k {
        return Want::Nothing;
    }
    match (e.number, k) {
        (2, 1) => Want::Variable(sorts::INTEGER),
        (4, 1) => Want::An(sorts::REAL),
        _ => Want::An(sorts::INTEGER),
    }
}

// What is wanted of actual k of a name.
pub fn wanted(rows: &[u16], m: Meant, k: usize) -> Want
    requires { (length rows.now ≤ 32768) × MeantWithin m }
    ensures { result ≡ want_of rows.now m k }
{
    match m {
        Meant::Declared(d) => {
            if !is_kind(rows, d, nodes::PROCEDURE) {
                return Want::Nothing;
            }
            if formals(rows, d) <= k {
                return Want::Nothing;
            }
            let at = d.number + 1 + k;
            Want::An(sort_of(rows, Declaration { number: at }))
        }
        Meant::Given(e) => given_wants(e, k),
        Meant::Nothing => Want::Nothing,
    }
}

// Whether a name is a variable or formal of a type.
pub fn is_variable(rows: &[u16], m: Meant, sort: u16) -> bool
    requires { (length rows.now ≤ 32768) × MeantWithin m }
    ensures { result ≡ variable_of rows.now m sort }
{
    match m {
        Meant::Declared(d) => {
            !is_kind(rows, d, nodes::PROCEDURE) && !sorts::apart(sort_of(rows, d), sort)
        }
        Meant::Given(_) => false,
        Meant::Nothing => true,
    }
}

// The type of the nearest open body that is the procedure's own, whose name has a symbol, as what a left part is. `count` are open.
fn own_result(rows: &[u16], symbol: Ordinal, bodies: &[u16], count: usize) -> Judgement
    requires { count ≤ length bodies.now }
    ensures { result ≡ own_of rows.now symbol.number (opens_of count bodies.now) }
{
    for &body in bodies[..count].iter().rev() {
        let b = Declaration {
            number: body as usize,
        };
        let r = names::row_at(rows, b);
        if r.symbol.number == symbol.number {
            let sort = names::sort(r.sort);
            return Judgement {
                sort,
                wrong: sort == sorts::NONE,
            };
        }
    }
    Judgement {
        sort: sorts::NONE,
        wrong: true,
    }
}

// A name as a left part.
pub fn as_left(rows: &[u16], m: Meant, bodies: &[u16], count: usize) -> Judgement
    requires { (length rows.now ≤ 32768) × MeantWithin m × (count ≤ length bodies.now) }
    ensures { result ≡ left_of rows.now (opens_of count bodies.now) m }
{
    match m {
        Meant::Declared(d) => {
            let r = names::row_at(rows, d);
            if r.kind == nodes::PROCEDURE {
                return own_result(rows, r.symbol, bodies, count);
            }
            Judgement {
                sort: names::sort(r.sort),
                wrong: false,
            }
        }
        Meant::Given(_) => Judgement {
            sort: sorts::NONE,
            wrong: true,
        },
        Meant::Nothing => Judgement {
            sort: sorts::NONE,
            wrong: false,
        },
    }
}
