// Request 7: the job `read_two`: a prelude and two schemes, each scheme to its half of the table.
ghost use Rattle.std.specs.Prelude.{◌≡◌, List, ℕ, ◌-◌, ◌≤◌, length, take, drop};
ghost use Rattle.answers.specs.declared.Verdict.TheVariants.{Accepted};
ghost use Rattle.grammar.specs.model.Parsing.{zeros};
ghost use Rattle.reading.specs.Two.{half_words, Half, ReadsTwo};
ghost use Rattle.reading.specs.model.Preluding.{BothFill};

use crate::behind::find_both;
use crate::reading::clear;
use crate::{Both, TwoAnswers};
use answers::{Answer, Refusal, Verdict};
use names::passes::{first_rows, front};
use table::writing::{fourths, write_behind};

// A part of some words.
fn part(words: &[u16], from: usize, to: usize) -> &[u16]
    requires { (from ≤ to) × (to ≤ length words.now) }
    ensures { result.now ≡ take (to - from) (drop from words.now) }
{
    &words[from..to]
}

// The scheme's uses, declarations and nodes, over zeros.
fn listed(
    words: &mut [u16],
    b: Both,
    own: &[u16; 32768],
    uses: &[u16; 8192],
    rows: &[u16; 32768],
    places: &[usize; 2048],
)
    requires { ((prelude scheme values nodes was marks : List ℕ) × BothFill prelude scheme places.now values nodes own.now rows.now uses.now was marks b) × (words.old ≡ zeros half_words) }
    ensures { (prelude scheme values nodes was marks : List ℕ) → BothFill prelude scheme places.now values nodes own.now rows.now uses.now was marks b → Half prelude scheme Accepted words.new }
{
    let used = front(uses, b.all.uses);
    let declared = first_rows(rows, b.all.rows);
    let u = b.before.uses;
    let r = 4 * b.before.rows;
    write_behind(
        words,
        front(own, b.own),
        part(used, u, used.len()),
        declared,
        part(declared, r, declared.len()),
        places,
    );
    let end = 3 * (used.len() - u) + 1;
    fourths(&mut words[1..end]);
}

// Any prelude, any scheme, and the words of a half.
fn half(prelude: &[u8], scheme: &[u8], words: &mut [u16]) -> Verdict
    requires { length words.old ≡ half_words }
    ensures { Half prelude.now scheme.now result words.new }
{
    let mut places = [0usize; 2048];
    let mut values = [0u64; 2048];
    let mut nodes = [0u16; 32768];
    let mut own = [0u16; 32768];
    let mut rows = [0u16; 32768];
    let mut uses = [0u16; 8192];
    let mut marks = [0u16; 2048];
    clear(words);
    match find_both(
        prelude,
        scheme,
        &mut places,
        &mut values,
        &mut nodes,
        &mut own,
        &mut rows,
        &mut uses,
        &mut marks,
    ) {
        Ok(b) => {
            listed(words, b, &own, &uses, &rows, &places);
            Verdict::Accepted
        }
        Err(r) => Verdict::Refused(r),
    }
}

// Any prelude, any two schemes, any table.
pub fn read_two(prelude: &[u8], first: &[u8], second: &[u8], table: &mut [u16]) -> TwoAnswers
    ensures { ReadsTwo prelude.now first.now second.now table.old result.first result.second table.new }
{
    if table.len() < 32768 {
        let short = Verdict::Refused(Refusal::new(Answer::SHORT, 0));
        return TwoAnswers {
            first: short,
            second: short,
        };
    }
    let a = half(prelude, first, &mut table[..16384]);
    let b = half(prelude, second, &mut table[16384..32768]);
    TwoAnswers {
        first: a,
        second: b,
    }
}
