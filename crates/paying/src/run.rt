// deed run: a run of a source, and its answer shown.
ghost use Rattle.std.specs.Prelude.{◌≡◌, ◌&&◌, ◌*◌, ◌/◌, ◌≤◌, min, ltb, length, take};
ghost use Rattle.machine.specs.Machine.{on_code};
ghost use Rattle.desk.specs.Status.{nothing, of_end};
ghost use Rattle.paying.specs.Running.{of_finish, RanAs, RunStatus};

use answers::{Stop, Verdict};
use asking::options::next_operand;
use asking::sizes::{Sizes, sizes_of};
use asking::words::{has_word, is_plain};
use desk::files::{is_standard, load};
use desk::given::put_input;
use desk::misuse::{misused, see_help};
use desk::outputs::{say_numbers, show_entries};
use desk::status;
use machine::Ran;
use machine::bounds::CELLS;
use showing::system::{STDERR, STDOUT, System};
use showing::text::{complain, say, say_number, tell, tell_file, tell_number};
use showing::words::{tell_answer, tell_placeless};
use translating::translating::translate;

// What is asked of a run: one line of numbers; status 1 where a number is not taken; the outputs alone on standard output.
// Kept: no plainer, three options that are asked for or not, each alone.
#[derive(Clone, Copy)]
pub struct How {
    pub plain: bool,
    pub strict: bool,
    pub values: bool,
}

// Where what is no output is told.
fn aside(values: bool) -> i32 {
    if values { STDERR } else { STDOUT }
}

fn tell_counts(system: &System, to: i32, ran: Ran, given: usize) {
    tell(system, to, b"instructions done: ");
    tell_number(system, to, ran.done);
    tell(system, to, b", numbers given: ");
    tell_number(system, to, given as u64);
    tell(system, to, b", taken: ");
    tell_number(system, to, ran.taken as u64);
    tell(system, to, b", numbers written: ");
    tell_number(system, to, ran.written as u64);
    tell(system, to, b"\n");
}

// How a run stopped, for people.
fn tell_end(system: &System, to: i32, name: &[u8], source: &[u8], stop: Stop) {
    match stop {
        Stop::Ended => {
            tell_file(system, to, name);
            tell(system, to, b": ended\n");
        }
        Stop::Fault(r) => tell_answer(
            system,
            to,
            name,
            source,
            b": stopped, ",
            r.answer.number,
            r.place.at,
        ),
        _ => tell_placeless(system, to, name, b": stopped, ", stop.answer().number),
    }
}

// A run that ended and left numbers may have been given those of another rule.
fn warn(system: &System, stop: Stop, given: usize, taken: usize) {
    if let Stop::Ended = stop {
        if taken < given {
            complain(system, b"deed: warning: the run ended and took ");
            tell_number(system, STDERR, taken as u64);
            complain(system, b" of the ");
            tell_number(system, STDERR, given as u64);
            complain(system, b" numbers given\n");
        }
    }
}

// A run's answer, as one line of numbers.
fn show_plain(
    system: &System,
    answer: u16,
    place: usize,
    done: u64,
    taken: usize,
    written: usize,
    output: &[i32],
) {
    say_number(system, answer as u64);
    say(system, b" ");
    say_number(system, place as u64);
    say(system, b" ");
    say_number(system, done);
    say(system, b" ");
    say_number(system, taken as u64);
    say(system, b" ");
    say_number(system, written as u64);
    say_numbers(system, output);
    say(system, b"\n");
}

// What a run gave, for people; its outputs are the first of these. Where the outputs are for a script, it has those of a good run alone.
fn show_run(
    system: &System,
    name: &[u8],
    source: &[u8],
    values: bool,
    good: bool,
    ran: Ran,
    given: usize,
    output: &[i32],
) {
    let to = aside(values);
    let stop = ran.stop;
    let n = ran.written.min(output.len());
    if good || !values {
        show_entries(system, &output[0..n]);
    }
    tell_end(system, to, name, source, stop);
    tell_counts(system, to, ran, given);
    warn(system, stop, given, ran.taken);
}

fn show_ran(
    system: &System,
    name: &[u8],
    source: &[u8],
    how: How,
    ran: Ran,
    given: usize,
    output: &[i32],
) -> u8
    ensures { result ≡ of_end (how.strict && ltb ran.taken given) ran.stop }
{
    let stop = ran.stop;
    let ended = status::of_end(status::is_left(how.strict, given, ran.taken), stop);
    if how.plain {
        let n = ran.written.min(output.len());
        show_plain(
            system,
            stop.answer().number,
            stop.place(),
            ran.done,
            ran.taken,
            ran.written,
            &output[0..n],
        );
    } else {
        show_run(
            system,
            name,
            source,
            how.values,
            ended == status::GOOD,
            ran,
            given,
            output,
        );
    }
    ended
}

// How many numbers of a store are lent for so many cells, which take two each, where there are no more than `all`.
fn numbers_for(cells: usize, all: usize) -> usize
    ensures { result ≡ min (2 * min cells 8192) all }
{
    (2 * cells.min(CELLS)).min(all)
}

// Runs code on the first of some numbers, in no more cells and with no more room than asked.
fn run_within(
    code: &[u32],
    input: &[i32],
    count: usize,
    sizes: Sizes,
    store: &mut [i64],
    output: &mut [i32],
) -> Ran
    ensures { RanAs result (on_code code.now (take count input.now) sizes.limit (min 8192 (min sizes.cells (length store.old / 2))) (min sizes.room (length output.old))) }
{
    let taken = count.min(input.len());
    let numbers = numbers_for(sizes.cells, store.len());
    let room = sizes.room.min(output.len());
    machine::run(
        code,
        &input[..taken],
        sizes.limit,
        &mut store[..numbers],
        &mut output[..room],
    )
}

fn run_code(
    system: &System,
    name: &[u8],
    source: &[u8],
    how: How,
    code: &[u32],
    input: &[i32],
    count: usize,
    sizes: Sizes,
) -> u8
    ensures { result ≡ of_finish how.strict (length (take count input.now)) (on_code code.now (take count input.now) sizes.limit (min sizes.cells 8192) (min sizes.room 196608)) }
{
    let mut store = [0i64; 16384];
    let mut output = [0i32; 196608];
    let ran = run_within(code, input, count, sizes, &mut store, &mut output);
    show_ran(
        system,
        name,
        source,
        how,
        ran,
        count.min(input.len()),
        &output,
    )
}

// A source that is refused: nothing is run.
fn show_refused(system: &System, name: &[u8], source: &[u8], how: How, number: u16, place: usize) {
    if how.plain {
        let none = [0i32; 0];
        show_plain(system, number, place, 0, 0, 0, &none);
    } else {
        tell_answer(
            system,
            aside(how.values),
            name,
            source,
            b": refused, ",
            number,
            place,
        );
    }
}

// Translates a source and runs it on the first of some numbers.
fn run_source(
    system: &System,
    name: &[u8],
    source: &[u8],
    how: How,
    input: &[i32],
    count: usize,
    sizes: Sizes,
) -> u8
    ensures { RunStatus how.strict source.now (take count input.now) sizes.limit (min sizes.cells 8192) (min sizes.room 196608) result }
{
    let mut code = [0u32; 16384];
    match translate(source, &mut code) {
        Verdict::Accepted => run_code(system, name, source, how, &code, input, count, sizes),
        Verdict::Refused(r) => {
            show_refused(system, name, source, how, r.answer.number, r.place.at);
            status::BAD
        }
    }
}

// A run of the file that a word of the line names, on the numbers behind it.
fn run_file(system: &System, line: &[u8], from: usize, to: usize, how: How, sizes: Sizes) -> u8
    requires { (from ≤ to) × (to ≤ length line.now) }
    ensures { result ≤ nothing }
{
    let mut input = [0i32; 32768];
    let mut room = io::large_buffer();
    let Some(count) = put_input(system, line, to, &mut input) else {
        see_help(system);
        return status::NOTHING;
    };
    let Some(n) = load(system, &line[from..to], &mut room) else {
        see_help(system);
        return status::NOTHING;
    };
    run_source(
        system,
        &line[from..to],
        &room[..n],
        how,
        &input,
        count,
        sizes,
    )
}

// What the options of a line ask of a run.
fn how_of(line: &[u8]) -> How {
    How {
        plain: is_plain(line),
        strict: has_word(line, 0, b"--strict"),
        values: has_word(line, 0, b"--values"),
    }
}

// Standard input is the FILE, or has numbers, or neither. The sizes can be had: that was looked at.
pub fn obey(system: &System, line: &[u8], at: usize) -> u8
    ensures { result ≤ nothing }
{
    let Some(sizes) = sizes_of(line, at) else {
        return status::NOTHING;
    };
    let w = next_operand(line, at);
    let from = w.from;
    let to = w.to;
    if is_standard(&line[from..to]) && has_word(line, to, b"-") {
        misused(
            system,
            b"standard input is the FILE or has numbers, and not both",
            b"",
        );
        return status::NOTHING;
    }
    run_file(system, line, from, to, how_of(line), sizes)
}
