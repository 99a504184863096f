// The table's words, and where its sections begin. docs/TABLE.md has the table.
ghost use Rattle.std.specs.Prelude.{◌≡◌, ◌<◌, get_or};
ghost use Rattle.table.specs.Sections.{rows_at, nodes_at};

// A word of the table; 0 behind its end.
pub fn word(table: &[u16], at: usize) -> usize
    ensures value { result ≡ get_or table.now at 0 }
    ensures upper_bound { result < 65536 }
{
    usize::from(table.get(at).copied().unwrap_or(0))
}

// Where the counts of the declarations and of the nodes stand.
#[derive(Clone, Copy)]
pub struct Sections {
    pub declarations: usize,
    pub nodes: usize,
}

pub fn sections_of(table: &[u16]) -> Sections
    ensures declarations { result.declarations ≡ rows_at table.now }
    ensures nodes { result.nodes ≡ nodes_at table.now }
    ensures declarations_bound { result.declarations < 262144 }
    ensures nodes_bound { result.nodes < 524288 }
{
    let declarations = 3 * word(table, 0) + 1;
    let nodes = declarations + 4 * word(table, declarations) + 1;
    Sections {
        declarations,
        nodes,
    }
}
