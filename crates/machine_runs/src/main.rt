// Hand-written code for each instruction and each answer, run and shown: the answer and its place, the counts, and every lent word. Before a run
// each store number is 7 and each output number 9. The runs stand in the file `rows`, one a line: a label and a colon, the limit, the lengths of
// store (two numbers a cell) and output (three an entry), how many inputs (one or none), the input, and the words of the code. A line that begins
// with # is a remark; it names the instructions, operation @ place and operands.
#![tactic(auto)]

ghost use Rattle.std.specs.Prelude.{◌≤◌};

use asking::numerals::natural_in;
use asking::words::{line_of, word_from};
use machine::Ran;
use showing::system::System;
use showing::text::{say, say_number, say_whole};
use std::os::fd::AsRawFd;
use symbols::text::find;

// A whole number, after a blank.
fn show_number(system: &System, x: i64) {
    say(system, b" ");
    say_whole(system, x);
}

fn show_counts(system: &System, r: Ran) {
    let stop = r.stop;
    say(system, b": ");
    say_number(system, stop.answer().number as u64);
    say(system, b" at ");
    say_number(system, stop.place() as u64);
    say(system, b", done ");
    say_number(system, r.done);
    say(system, b", taken ");
    say_number(system, r.taken as u64);
    say(system, b", written ");
    say_number(system, r.written as u64);
}

fn show_store(system: &System, store: &[i64]) {
    for &x in store {
        show_number(system, x);
    }
}

fn show_output(system: &System, output: &[i32]) {
    for &x in output {
        show_number(system, i64::from(x));
    }
}

fn show(system: &System, label: &[u8], r: Ran, store: &[i64], output: &[i32]) {
    say(system, label);
    show_counts(system, r);
    say(system, b"; store");
    show_store(system, store);
    say(system, b"; output");
    show_output(system, output);
    say(system, b"\n");
}

// A run, and what it leaves.
fn ran(
    system: &System,
    label: &[u8],
    code: &[u32],
    input: &[i32],
    limit: u64,
    store: &mut [i64],
    output: &mut [i32],
) {
    let r = machine::run(code, input, limit, store, output);
    show(system, label, r, store, output);
}

// One run, with so many store numbers and so much room in the output.
fn tried(
    system: &System,
    label: &[u8],
    code: &[u32],
    input: &[i32],
    limit: u64,
    numbers: usize,
    room: usize,
)
    requires { (numbers ≤ 48) × (room ≤ 24) }
{
    let mut store = [7i64; 48];
    let mut output = [9i32; 24];
    ran(
        system,
        label,
        code,
        input,
        limit,
        &mut store[..numbers],
        &mut output[..room],
    );
}

// The word that a text spells; 0 where it spells none.
fn word_in(text: &[u8]) -> u32 {
    let Some(v) = natural_in(text) else {
        return 0;
    };
    u32::try_from(v).unwrap_or(0)
}

// The words that a line spells from `from` on, as many as there is room for; gives how many.
fn words_into(line: &[u8], from: usize, words: &mut [u32]) -> usize {
    let mut at = from;
    for (i, word) in words.iter_mut().enumerate() {
        let w = word_from(line, at);
        if w.from == w.to {
            return i;
        }
        *word = word_in(&line[w.from..w.to]);
        at = w.to;
    }
    words.len()
}

// A word as an input.
fn input_of(word: u32) -> i32 {
    i32::try_from(word).unwrap_or(0)
}

// Word i; 0 where there is none.
fn word_at(words: &[u32], i: usize) -> u32 {
    words.get(i).copied().unwrap_or(0)
}

// The run of a label and the first n words.
fn listed(system: &System, label: &[u8], words: &[u32], n: usize) {
    let limit = word_at(words, 0) as u64;
    let numbers = (word_at(words, 1) as usize).min(48);
    let room = (word_at(words, 2) as usize).min(24);
    let input = [input_of(word_at(words, 4))];
    if n < 4 || words.len() < n {
        return;
    }
    if word_at(words, 3) == 0 {
        tried(
            system,
            label,
            &words[4..n],
            &input[..0],
            limit,
            numbers,
            room,
        );
        return;
    }
    if n < 5 {
        return;
    }
    tried(system, label, &words[5..n], &input, limit, numbers, room);
}

// A line of the file. Behind its words the row has zeros.
fn line(system: &System, text: &[u8]) {
    if text.is_empty() || text.starts_with(b"#") {
        return;
    }
    let mut row = [0u8; 4096];
    let mut words = [0u32; 256];
    let colon = find(text, 0, b':');
    if text.len() <= colon {
        return;
    }
    line_of(text, &mut row);
    let n = words_into(&row, colon + 1, &mut words);
    listed(system, &text[0..colon], &words, n);
}

fn lines(system: &System, text: &[u8]) {
    for row in text.split(|&b| b == b'\n') {
        line(system, row);
    }
}

// Words past 16,384 are not read, and store numbers past 8,192 cells of two are left alone: the last two of the store are shown.
fn far(system: &System) {
    let mut code = [0u32; 16386];
    code[0] = 2;
    code[1] = 8191;
    code[16382] = 12;
    code[16383] = 5;
    code[16384] = 1;
    let input: [i32; 1] = [0];
    let mut store = [7i64; 16385];
    let mut output: [i32; 1] = [9];
    let r = machine::run(&code, &input[..0], 10, &mut store, &mut output);
    show(system, b"far", r, &store[16383..], &output);
}

fn main(rt: HostRuntime) {
    let system = System::new(rt);
    let mut rows = io::large_buffer();
    let file = match system.open_read(b"rows") {
        Ok(file) => file,
        Err(error) => {
            system.fail(b"rows", error);
            return;
        }
    };
    let n = io::read_full(file.as_raw_fd(), &mut rows);
    lines(&system, &rows[..n]);
    far(&system);
}
