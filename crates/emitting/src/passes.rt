// One pass after the other: where cells lie, what lies ahead, the code.
ghost use Rattle.std.specs.Prelude.{◌≡◌, ◌≤◌, length, replicate};
ghost use Rattle.emitting.specs.model.Layout.{layout_of};
ghost use Rattle.emitting.specs.model.Emission.{uses_in, place_at, emitted, code_of};

use crate::emission::pass;
use crate::layout::layout;
use crate::{Addresses, Known, Thing};

// No address is found yet.
fn none_found() -> Addresses
    ensures { (result.ahead ≡ replicate 8192 0) × (result.entries ≡ replicate 2048 0) }
{
    Addresses {
        ahead: [0; 8192],
        entries: [0; 2048],
    }
}

// What lies ahead is found, then the code is written.
fn twice(nodes: &[u16], uses: &[u16], known: &Known, code: &mut [u32])
    requires { length nodes.now ≤ 32768 }
    ensures { code.new ≡ code_of (length code.old) (place_at known.now.places.now) known.now.values.now known.now.layout.now known.now.rows.now known.now.marks.now nodes.now (uses_in known.now.rows.now uses.now) }
{
    let nothing = Known {
        ahead: &[],
        entries: &[],
        ..*known
    };
    let mut things = [Thing::default(); 8192];
    let mut found = none_found();
    pass(nodes, uses, &nothing, &mut things, &mut found, code);
    let told = Known {
        ahead: &found.ahead,
        entries: &found.entries,
        ..*known
    };
    let mut again = none_found();
    pass(nodes, uses, &told, &mut things, &mut again, code);
}

// The cells are laid out, then the code is written.
pub fn laid_out(
    nodes: &[u16],
    uses: &[u16],
    rows: &[u16],
    places: &[usize; 2048],
    marks: &[u16],
    values: &[u64],
    code: &mut [u32],
)
    requires { length nodes.now ≤ 32768 }
    ensures { code.new ≡ code_of (length code.old) (place_at places.now) values.now (layout_of rows.now nodes.now) rows.now marks.now nodes.now (uses_in rows.now uses.now) }
{
    let mut cells = [0u32; 2048];
    layout(nodes, rows, &mut cells);
    let known = Known {
        rows,
        places,
        marks,
        values,
        layout: &cells,
        ahead: &[],
        entries: &[],
    };
    twice(nodes, uses, &known, code)
}
