// The jobs as C functions, for programs in other languages: `bindings/deed.h` declares them. A slice comes as a pointer and a length, and each
// result behind the answer's number goes to where a reference points.
#![tactic(auto)]

ghost use Rattle.std.specs.Prelude.{◌≡◌};
ghost use Rattle.checking.specs.Checking.{Checks};
ghost use Rattle.clean.specs.Job.{Writes};
ghost use Rattle.comparing.specs.Comparing.{Compares};
ghost use Rattle.machine.specs.Machine.{job};
ghost use Rattle.jobs.specs.Jobs.{Answers, AnswersTwo, Pages, Says, exit_of, given, replayed_of, gone, reported_of, gathered, Lists};
ghost use Rattle.reading.specs.Reading.{Reads};
ghost use Rattle.reading.specs.Two.{ReadsTwo};
ghost use Rattle.records.specs.Replay.{replay as replayOf};
ghost use Rattle.reporting.specs.Report.{report as reportOf};
ghost use Rattle.translating.specs.Job.{Translates};
ghost use Rattle.translating.specs.With.{TranslatesWith};

use checking::checking::check_list;
use clean::writing::write;
use comparing::comparing::compare;
use machine::run;
use reading::reading::read;
use reading::schemes::read_two;
use records::replaying::replay;
use reporting::numbers;
use reporting::reporting::report;
use translating::schemes::translate_scheme;
use translating::translating::translate;

// Source to table: the answer's number, and its place.
pub fn deed_read(source: &[u8], table: &mut [u16], place: &mut usize) -> u16
    ensures { Answers (λ v. Reads source.now table.old v table.new) result place.new }
{
    let verdict = read(source, table);
    *place = verdict.place();
    verdict.answer().number
}

// A prelude and two schemes to the two halves of a table: the number of the first scheme's answer, and its place; the same of the second.
pub fn deed_read_two(
    prelude: &[u8],
    first: &[u8],
    second: &[u8],
    table: &mut [u16],
    place: &mut usize,
    other: &mut u16,
    there: &mut usize,
) -> u16
    ensures { AnswersTwo (λ v w. ReadsTwo prelude.now first.now second.now table.old v w table.new) result place.new other.new there.new }
{
    let two = read_two(prelude, first, second, table);
    let a = two.first;
    let b = two.second;
    *place = a.place();
    *other = b.answer().number;
    *there = b.place();
    a.answer().number
}

// Source to code: the answer's number, and its place.
pub fn deed_translate(source: &[u8], code: &mut [u32], place: &mut usize) -> u16
    ensures { Answers (λ v. Translates source.now code.old v code.new) result place.new }
{
    let verdict = translate(source, code);
    *place = verdict.place();
    verdict.answer().number
}

// A prelude and a scheme to code: the answer's number, and its place.
pub fn deed_translate_scheme(
    prelude: &[u8],
    scheme: &[u8],
    code: &mut [u32],
    place: &mut usize,
) -> u16
    ensures { Answers (λ v. TranslatesWith prelude.now scheme.now code.old v code.new) result place.new }
{
    let verdict = translate_scheme(prelude, scheme, code);
    *place = verdict.place();
    verdict.answer().number
}

// Source to its text in the house layout: the answer's number; its place, and how many bytes the text has.
pub fn deed_write(source: &[u8], room: &mut [u8], place: &mut usize, length: &mut usize) -> u16
    ensures { Pages (λ w. Writes source.now room.old w room.new) result place.new length.new }
{
    let written = write(source, room);
    *place = clean::place(written);
    *length = clean::length(written);
    clean::answer(written).number
}

// Code to a run: the answer's number; its place, the instructions done, the numbers taken and the numbers written. A cell takes two numbers of the
// store, an entry three of the output.
pub fn deed_run(
    code: &[u32],
    input: &[i32],
    limit: u64,
    store: &mut [i64],
    output: &mut [i32],
    place: &mut usize,
    done: &mut u64,
    taken: &mut usize,
    written: &mut usize,
) -> u16
    ensures { given result place.new done.new taken.new written.new store.new output.new ≡ exit_of (job code.now input.now limit store.old output.old) }
{
    let ran = run(code, input, limit, store, output);
    let stop = ran.stop;
    *place = stop.place();
    *done = ran.done;
    *taken = ran.taken;
    *written = ran.written;
    stop.answer().number
}

// Source and list: 0 where the list is its uses; 1 where the source is refused, with the answer's number and its place; 2 where a word is wrong,
// with its index for the place.
pub fn deed_check(source: &[u8], list: &[i64], number: &mut u16, place: &mut usize) -> u16
    ensures { Says (Checks source.now list.now) result number.new place.new }
{
    let checked = check_list(source, list);
    *number = checked.number();
    *place = checked.place();
    checked.kind()
}

// Two editions: 0 where the numbers of the uses that differ are in the room, with how many there are for the place; 1 where the first is refused, 2 where the
// second is, with the answer's number and its place; 3 where the room is too short, with the answer's number.
pub fn deed_compare(
    first: &[u8],
    second: &[u8],
    room: &mut [u16],
    number: &mut u16,
    place: &mut usize,
) -> u16
    ensures { Lists (λ c. Compares first.now second.now room.old c room.new) result number.new place.new }
{
    let compared = compare(first, second, room);
    *number = comparing::number(compared);
    *place = comparing::place(compared);
    comparing::kind(compared)
}

// Code and a record: 0 where a fresh run agrees; 1 where it differs, with the first entry that does for the place; 2 where a word is bad, with its
// index; 3 where the store or the output is shorter than the record's, with the answer's number.
pub fn deed_replay(
    code: &[u32],
    kept: &[i32],
    store: &mut [i64],
    output: &mut [i32],
    number: &mut u16,
    place: &mut usize,
) -> u16
    ensures { gone result number.new place.new store.new output.new ≡ replayed_of (replayOf code.now kept.now store.old output.old) }
{
    let replayed = replay(code, kept, store, output);
    *number = replayed.number();
    *place = replayed.place();
    replayed.kind()
}

// Code and sets of input: 0 where they were run, with the figures of the report; 1 where there are more than 65,535 sets, with the answer's number; 2
// where a word is bad, with its index for the place.
pub fn deed_report(
    code: &[u32],
    sets: &[i32],
    limit: u64,
    store: &mut [i64],
    output: &mut [i32],
    figures: &mut [i64],
    number: &mut u16,
    place: &mut usize,
) -> u16
    ensures { gathered result number.new place.new figures.new store.new output.new ≡ reported_of (reportOf code.now sets.now limit store.old output.old) figures.old }
{
    let reported = report(code, sets, limit, store, output);
    *number = numbers::number(reported);
    *place = numbers::place(reported);
    numbers::reported_into(reported, figures);
    numbers::kind(reported)
}
