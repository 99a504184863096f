// Operations on the cells of names: of one that has its cell, and of a formal called by name, whose cell is sought.
ghost use Rattle.std.specs.Prelude.{◌≡◌, List, ℕ, ◌+◌, ◌≤◌, ◌<◌};
ghost use Rattle.emitting.specs.declared.Thing.{Thing};
ghost use Rattle.emitting.specs.model.Emission.{Used, bare, on_cell, lending};
ghost use Rattle.emitting.specs.model.Arrays.{see, Alike};

use crate::{Writing, codes};
use answers::Place;
use machine::operands;

// The operand of the cell found.
const FOUND: usize = 67100672;

// A name's word as an operand.
#[tactic(auto, unfolding(crate::specs::model::Emission::bare))]
pub fn bare(v: usize) -> usize
    ensures value { result ≡ bare v }
    ensures upper_bound { result < 4294967296 }
{
    operands::packed(operands::high(v), operands::mid(v), 0)
}

// An operation on the cell of a name, whose place is another than the operation's own.
#[tactic(auto, unfolding(crate::specs::model::Emission::on_cell))]
pub fn on_cell(
    t: Writing,
    code: &mut [u32],
    o: usize,
    place: Place,
    name: Place,
    v: usize,
) -> Writing
    requires { (t.here.at < 1048575) × (o < 64) × (place.at < 262144) × (name.at < 262144) }
    ensures en_after { (us : List Used) (op : List Thing) (ah en : List ℕ) → see result us op code.new ah en ≡ on_cell o place.at name.at v (see t us op code.old ah en) }
    ensures alike { Alike t result × (result.here.at ≤ t.here.at + 2) × (result.open ≡ t.open) }
{
    if operands::low(v) == 2 {
        let sought = t.put(code, codes::SEEK, name, bare(v));
        return sought.put(code, o, place, FOUND);
    }
    t.put(code, o, place, bare(v))
}

// The store part of an actual, by its word.
#[tactic(auto, unfolding(crate::specs::model::Emission::lending))]
pub fn lending(t: Writing, w: usize, place: Place, code: &mut [u32]) -> Writing
    requires { (t.here.at < 1048576) × (place.at < 65536) }
    ensures en_after { (vs ly ks es : List ℕ) (us : List Used) (op : List Thing) (ah en : List ℕ) → see result us op code.new ah en ≡ lending vs ly ks es w place.at (see t us op code.old ah en) }
    ensures alike { Alike t result × (result.here.at ≡ t.here.at + 1) × (result.open ≡ t.open) }
{
    let sort = operands::low(w);
    if sort == 0 {
        return t.put(code, codes::REFUSE, codes::NOWHERE, 0);
    }
    if sort == 1 {
        return t.put(code, codes::LEND, codes::NOWHERE, bare(w));
    }
    t.put(code, codes::PASS, place, bare(w))
}
