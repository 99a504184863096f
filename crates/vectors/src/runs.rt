// A source translated and its code run, against a text: `translate` answers as `read` does; a refused source leaves zero words, which are
// no instruction; and the code of an accepted one runs as the second line says, unless that is a page's. That line has: how many inputs, the inputs, the lengths of
// store and output, the limit; the answer, its place, how many numbers are taken (-1: not listed), how many are written, those numbers, three an
// entry, and the steps (-1: not listed).
ghost use Rattle.std.specs.Prelude.{◌≡◌, ◌-◌, pos, length, drop, [], ◌∷◌};
ghost use Rattle.machine.specs.Machine.{job};
ghost use Rattle.vectors.specs.Ended.{numbers, after, begins, all_are, cleared, all_words, after_steps, after_written, after_stop, after_exit, fresh_store, fresh_output, after_supplied, after_listed, strays, after_refused, after_translate, TranslateTold};
ghost use Rattle.vectors.specs.Listed.{number_at};

use crate::reads::{accepted, answered};
use crate::tally::Tally;
use crate::texts::{Numeral, clipped, number_at, page_at, second_line, whole};
use answers::Verdict;
use machine::{Ran, run};
use translating::translating::translate;

// The words that are lent hold this before, and the words behind the first 16,384 afterwards.
const BEFORE: u32 = 7;

// The numbers of the store hold this before, and those behind its cells afterwards.
const UNUSED: i64 = 7;

// The numbers of the output hold this before, and those behind the written ones afterwards.
const UNWRITTEN: i32 = 9;

// Whether each word from `from` to `to` is this one.
fn all_words(words: &[u32], from: usize, to: usize, word: u32) -> bool
    ensures { result ≡ all_words words.now from (to - from) word }
{
    for i in from..to {
        if words.len() <= i {
            return false;
        }
        if words[i] != word {
            return false;
        }
    }
    true
}

// Whether each number from `from` on is x.
fn all_are(store: &[i64], from: usize, x: i64) -> bool
    ensures { result ≡ all_are x (drop from store.now) }
{
    for i in from..store.len() {
        if store[i] != x {
            return false;
        }
    }
    true
}

// Whether the cells, two numbers each and at most 8,192, are zero, and the store behind them is as before.
fn is_cleared(store: &[i64]) -> bool
    ensures { result ≡ cleared store.now }
{
    let n = 2 * clipped((store.len() / 2) as u64, 8192);
    all_are(&store[..n], 0, 0) && all_are(store, n, UNUSED)
}

fn untouched(output: &[i32], from: usize) -> bool
    ensures { result ≡ all_are (pos 9) (drop from output.now) }
{
    for i in from..output.len() {
        if output[i] != UNWRITTEN {
            return false;
        }
    }
    true
}

// Whether the code is no instruction at its start.
fn stray(code: &[u32], limit: u64) -> bool
    ensures { result ≡ strays code.now limit }
{
    let input = [0i32; 1];
    let mut store = [0i64; 1];
    let mut output = [0i32; 1];
    let r = run(code, &input, limit, &mut store, &mut output);
    let stop = r.stop;
    stop.answer().number == 29 && stop.place() == 0
}

// The code of a refused source.
fn refused(t: Tally, name: &[u8], code: &[u32]) -> Tally
    ensures { result ≡ after_refused code.now t }
{
    let told = t.check(
        all_words(code, 0, 16384, 0),
        name,
        b"refused, and a word is not zero",
    );
    told.check(
        stray(code, 1) && stray(code, 1000000),
        name,
        b"refused, and the run is not 29 at 0",
    )
}

// The numbers from `from` on, as many as there is room for; and where the next one begins.
pub fn inputs_at(text: &[u8], from: usize, input: &mut [i32]) -> usize
    ensures value { result ≡ after text.now (length input.old) from }
    ensures input_after { input.new ≡ numbers text.now (length input.old) from }
{
    let mut at = from;
    for i in 0..input.len() {
        let n = number_at(text, at);
        input[i] = whole(n);
        at = n.next;
    }
    at
}

// Whether numbers are the listed ones, and where the next one begins.
// Kept: no plainer, the place is asked for whether the numbers are the same or not.
#[derive(Clone, Copy)]
pub struct Same {
    pub same: bool,
    pub next: usize,
}

// Whether the output begins with the `count` numbers from `from` on.
fn same_outputs(output: &[i32], count: u64, text: &[u8], from: usize) -> Same
    ensures same_value { result.same ≡ begins (numbers text.now count from) output.now }
    ensures next_value { result.next ≡ after text.now count from }
{
    let mut same = true;
    let mut at = from;
    for i in 0..count {
        let n = number_at(text, at);
        if !holds(output, i, whole(n)) {
            same = false;
        }
        at = n.next;
    }
    Same { same, next: at }
}

// Whether the output has this number there.
fn holds(output: &[i32], i: u64, x: i32) -> bool
    ensures { result ≡ begins (x ∷ []) (drop i output.now) }
{
    let k = i as usize;
    if k < output.len() {
        return output[k] == x;
    }
    false
}

// The instructions done, against the listed steps.
fn counted(t: Tally, name: &[u8], done: u64, steps: Numeral) -> Tally
    ensures { result ≡ after_steps done steps t }
{
    if steps.minus {
        return t;
    }
    let n = steps.value;
    if n < 100000000 {
        if done <= 16 * n + 16 {
            return t.most(done as u32, n as u32);
        }
    }
    t.check(false, name, b"too many instructions for its steps")
}

// What a run wrote and did, against what is listed from `from` on.
fn written(t: Tally, name: &[u8], r: Ran, output: &[i32], text: &[u8], from: usize) -> Tally
    ensures { result ≡ after_written r output.now text.now (number_at text.now from) t }
{
    let count = number_at(text, from);
    let outputs = same_outputs(output, count.value, text, count.next);
    let told = t.check(
        outputs.same && r.written as u64 == count.value,
        name,
        b"other numbers are written",
    );
    let kept = told.check(
        untouched(output, r.written),
        name,
        b"the output behind the written numbers is not as before",
    );
    counted(kept, name, r.done, number_at(text, outputs.next))
}

// How a run stopped and what it took, against what is listed from `from` on.
fn stopped(t: Tally, name: &[u8], r: Ran, output: &[i32], text: &[u8], from: usize) -> Tally
    ensures { result ≡ after_stop r output.now text.now from t }
{
    let answer = number_at(text, from);
    let place = number_at(text, answer.next);
    let taken = number_at(text, place.next);
    let stop = r.stop;
    let told = t.check(
        stop.answer().number as u64 == answer.value && stop.place() as u64 == place.value,
        name,
        b"the run answers otherwise",
    );
    let took = told.check(
        taken.minus || r.taken as u64 == taken.value,
        name,
        b"other numbers are taken",
    );
    written(took, name, r, output, text, taken.next)
}

// A run, and compared.
fn ran(
    t: Tally,
    name: &[u8],
    code: &[u32],
    input: &[i32],
    limit: u64,
    store: &mut [i64],
    output: &mut [i32],
    text: &[u8],
    from: usize,
) -> Tally
    ensures { result ≡ after_exit (job code.now input.now limit store.old output.old) text.now from t }
{
    let r = run(code, input, limit, store, output);
    let told = t.check(
        is_cleared(store),
        name,
        b"a cell is left, or the store behind the cells is not as before",
    );
    stopped(told, name, r, output, text, from)
}

fn fresh_input() -> [i32; 128]
    ensures { 128 ≡ length result }
{
    [0; 128]
}

pub fn fresh_store() -> [i64; 16386]
    ensures { result ≡ fresh_store }
{
    [UNUSED; 16386]
}

pub fn fresh_output() -> [i32; 1536]
    ensures { result ≡ fresh_output }
{
    [UNWRITTEN; 1536]
}

// A run with as many inputs as there is room for, the first one listed at `from`.
fn supplied(
    t: Tally,
    name: &[u8],
    code: &[u32],
    input: &mut [i32],
    text: &[u8],
    from: usize,
) -> Tally
    ensures { result ≡ after_supplied code.now (numbers text.now (length input.old) from) text.now (after text.now (length input.old) from) t }
{
    let mut store = fresh_store();
    let mut output = fresh_output();
    let next = inputs_at(text, from, input);
    let length = number_at(text, next);
    let space = number_at(text, length.next);
    let limit = number_at(text, space.next);
    let lent = clipped(length.value, 16386);
    let room = clipped(space.value, 1536);
    ran(
        t,
        name,
        code,
        input,
        limit.value,
        &mut store[..lent],
        &mut output[..room],
        text,
        limit.next,
    )
}

// The code of an accepted source, run as is listed from `from` on.
fn listed(t: Tally, name: &[u8], code: &[u32], text: &[u8], from: usize) -> Tally
    ensures { result ≡ after_listed code.now text.now from t }
{
    let mut input = fresh_input();
    let count = number_at(text, from);
    let inputs = clipped(count.value, 128);
    supplied(t, name, code, &mut input[..inputs], text, count.next)
}

// The code of a source that was answered so, compared; and run, where a run is listed.
pub fn coded(t: Tally, name: &[u8], verdict: Verdict, code: &[u32], text: &[u8]) -> Tally
    ensures { result ≡ after_translate verdict code.now text.now t }
{
    let told = t.check(
        answered(verdict, text),
        name,
        b"translate answers otherwise",
    );
    let kept = told.check(
        all_words(code, 16384, 16386, BEFORE),
        name,
        b"a word behind the code is not as before",
    );
    if !accepted(verdict) {
        return refused(kept, name, code);
    }
    let from = second_line(text);
    if from < text.len() {
        if !page_at(text, from) {
            return listed(kept.run(), name, code, text, from);
        }
    }
    kept
}

// A source translated, and compared.
pub fn compare(t: Tally, name: &[u8], source: &[u8], text: &[u8]) -> Tally
    ensures { TranslateTold source.now text.now t result }
{
    let mut code = [BEFORE; 16386];
    let verdict = translate(source, &mut code);
    coded(t, name, verdict, &code, text)
}
