// What a use means, from the number that is kept for it.
ghost use Rattle.std.specs.Prelude.{◌≡◌, cond, List, ℕ, ◌*◌, ◌-◌, ◌%◌, ◌<◌, eqb, get_or, drop};
ghost use Rattle.names.specs.model.Rows.{meant_of};
ghost use Rattle.emitting.specs.declared.Thing.{Thing};
ghost use Rattle.emitting.specs.model.Emission.{formal_at, form_of, form_at, used_as, uses_in, kind_next, means_next, others_next, with_uses};
ghost use Rattle.emitting.specs.model.Arrays.{see, Alike};

use crate::counting::{BOOLEAN, REAL};
use crate::{Named, Writing};
use answers::Declaration;
use grammar::nodes;
use names::Meant;
use names::meanings::meant;

// A word of a row, 0 behind the last one.
pub fn row_word(rows: &[u16], at: usize) -> usize
    ensures value { result ≡ get_or rows.now at 0 }
    ensures upper_bound { result < 65536 }
{
    rows.get(at).copied().unwrap_or(0) as usize
}

// A formal's kind as its row has it.
const FORMAL: usize = nodes::FORMAL as usize;

// Whether row i is of a formal called by name.
#[tactic(auto, unfolding(crate::specs::model::Emission::formal_at))]
pub fn is_by_name(rows: &[u16], i: usize) -> bool
    requires { i < 8589934592 }
    ensures { result ≡ eqb (formal_at rows.now i) 2 }
{
    row_word(rows, 4 * i) == FORMAL && row_word(rows, 4 * i + 3) >= 4
}

// Kept: no plainer, an instruction's operand is the number itself.
// A type as an instruction has it: 0 whole number, 1 real, 2 Boolean.
#[tactic(auto, unfolding(crate::specs::model::Emission::form_of))]
fn form_of(sort: usize) -> usize
    ensures value { result ≡ form_of sort }
    ensures upper_bound { result < 3 }
{
    match sort {
        REAL => 1,
        BOOLEAN => 2,
        _ => 0,
    }
}

// That of declaration i.
#[tactic(auto, unfolding(crate::specs::model::Emission::form_at))]
pub fn form_at(rows: &[u16], i: usize) -> usize
    requires { i < 8589934592 }
    ensures value { result ≡ form_at rows.now i }
    ensures upper_bound { result < 3 }
{
    form_of(row_word(rows, 4 * i + 3) % 4)
}

// The kind of a use that means a declaration.
fn kind_of(d: Declaration, rows: &[u16]) -> usize
    requires { d.number < 65536 }
    ensures value { result ≡ cond (eqb (formal_at rows.now d.number) 2) 4 (get_or rows.now (4 * d.number) 0 % 65536 - 4) }
    ensures upper_bound { result < 65536 }
{
    if is_by_name(rows, d.number) {
        return Named::BY_NAME;
    }
    row_word(rows, 4 * d.number).saturating_sub(4)
}

// The use that is kept as a number: of a declaration its kind stands in its row.
fn meaning(word: u16, rows: &[u16]) -> Named
    ensures kind_value { (result.kind ≡ (used_as rows.now (meant_of word)).kind) × (result.means ≡ (used_as rows.now (meant_of word)).means) }
    ensures kind_bound { (result.kind < 65536) × (result.means < 65536) }
{
    match meant(word) {
        Meant::Declared(d) => Named {
            kind: kind_of(d, rows),
            means: d.number,
        },
        Meant::Given(e) => Named {
            kind: Named::GIVEN,
            means: e.number as usize,
        },
        Meant::Nothing => Named::default(),
    }
}

// The next use; zeros where there is none.
pub fn next(t: Writing, uses: &[u16], rows: &[u16]) -> Named
    ensures kind_value { (result.kind ≡ kind_next (drop t.uses (uses_in rows.now uses.now))) × (result.means ≡ means_next (drop t.uses (uses_in rows.now uses.now))) }
    ensures kind_bound { (result.kind < 65536) × (result.means < 65536) }
{
    if t.uses < uses.len() {
        return meaning(uses[t.uses], rows);
    }
    Named::default()
}

// The uses behind it.
#[tactic(auto, using(crate::proofs::NextUses::others_here, crate::proofs::NextUses::others_nowhere), unfolding(crate::specs::model::Emission::with_uses))]
pub fn passed(mut t: Writing, uses: &[u16]) -> Writing
    ensures en_value { (rows : List ℕ) (op : List Thing) (co ah en : List ℕ) → see result (uses_in rows uses.now) op co ah en ≡ with_uses (others_next (drop t.uses (uses_in rows uses.now))) (see t (uses_in rows uses.now) op co ah en) }
    ensures alike { Alike t result × (result.here.at ≡ t.here.at) × (result.open ≡ t.open) }
{
    if t.uses < uses.len() {
        t.uses += 1;
    }
    t
}
