// The job `read`: what the front end finds, as a table.
ghost use Rattle.std.specs.Prelude.{◌≡◌, List, ℕ, length};
ghost use Rattle.answers.specs.declared.Verdict.TheVariants.{Accepted};
ghost use Rattle.grammar.specs.model.Parsing.{zeros};
ghost use Rattle.reading.specs.Reading.{cleared, Judged, Reads};
ghost use Rattle.reading.specs.model.Stages.{Holds};

use crate::Sizes;
use crate::finding::find;
use answers::{Answer, Refusal, Verdict};
use names::passes::{first_rows, front};
use table::writing::write;

// Sets every word to zero.
#[tactic(auto, using(crate::proofs::Moves::filled_zeros))]
pub fn clear(words: &mut [u16])
    ensures { words.new ≡ zeros (length words.old) }
{
    words.fill(0);
}

// The table of what was found, over zeros.
fn written(
    words: &mut [u16],
    s: Sizes,
    nodes: &[u16; 32768],
    uses: &[u16; 8192],
    rows: &[u16; 32768],
    places: &[usize; 2048],
)
    requires { ((source kinds values was marks : List ℕ) × Holds source kinds places.now values nodes.now rows.now uses.now was marks s) × (words.old ≡ cleared) }
    ensures { (source kinds values was marks : List ℕ) → Holds source kinds places.now values nodes.now rows.now uses.now was marks s → Judged source Accepted words.new }
{
    write(
        words,
        front(nodes, s.nodes),
        front(uses, s.uses),
        first_rows(rows, s.rows),
        places,
    );
}

// Any source, and the words that are used.
fn judged(source: &[u8], words: &mut [u16]) -> Verdict
    requires { length words.old ≡ 32768 }
    ensures { Judged source.now result words.new }
{
    let mut kinds = [0u8; 2048];
    let mut places = [0usize; 2048];
    let mut values = [0u64; 2048];
    let mut nodes = [0u16; 32768];
    let mut rows = [0u16; 32768];
    let mut uses = [0u16; 8192];
    let mut marks = [0u16; 2048];
    clear(words);
    match find(
        source,
        &mut kinds,
        &mut places,
        &mut values,
        &mut nodes,
        &mut rows,
        &mut uses,
        &mut marks,
    ) {
        Ok(s) => {
            written(words, s, &nodes, &uses, &rows, &places);
            Verdict::Accepted
        }
        Err(r) => Verdict::Refused(r),
    }
}

// Any source, any table.
pub fn read(source: &[u8], table: &mut [u16]) -> Verdict
    ensures { Reads source.now table.old result table.new }
{
    if table.len() < 32768 {
        return Verdict::Refused(Refusal::new(Answer::SHORT, 0));
    }
    judged(source, &mut table[..32768])
}
