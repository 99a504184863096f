// deed check: a list that somebody sent, held against the uses of a source.
ghost use Rattle.std.specs.Prelude.{◌≤◌, length, ◌≡◌, IfSome};
ghost use Rattle.io.specs.Counts.{IsPrefixLen};
ghost use Rattle.desk.specs.Status.{nothing as undone};
ghost use Rattle.deed.specs.Status.{of_checked, CheckStatus, SentStatus};

use asking::lists::{Unlisted, list_in};
use asking::options::next_operand;
use asking::words::{Word, is_plain, list_line, word_from};
use checking::Checked;
use checking::checking::check_list;
use desk::files::{is_standard, load};
use desk::misuse::{misused, see_help};
use desk::status;
use reading::reading::read;
use showing::system::{STDERR, STDOUT, System};
use showing::text::{
    complain, say, say_number, tell, tell_file, tell_place, tell_spot, tell_typed,
};
use showing::words::show_answer;
use table::sections::word;

// How much of a number that somebody typed is shown.
const SHOWN: usize = 40;

// LIST:LINE:COLUMN.
fn tell_where(system: &System, to: i32, list: &[u8], text: &[u8], place: usize) {
    tell_file(system, to, list);
    tell(system, to, b":");
    tell_spot(system, to, text, place);
}

// The bytes of a list. What fills the room may go on behind it, and none of it is taken.
fn load_list(system: &System, list: &[u8], room: &mut [u8]) -> Option<usize>
    ensures { IfSome result (λ n. IsPrefixLen n room.new) }
{
    let n = load(system, list, room)?;
    if 65536 <= n {
        complain(system, b"deed: ");
        tell_file(system, STDERR, list);
        complain(system, b": a LIST has under 65,536 bytes\n");
        return None;
    }
    Some(n)
}

// The word of a line whose index is k.
fn nth_word(line: &[u8], k: usize) -> Word
    ensures { (result.from ≤ result.to) × (result.to ≤ length line.now) }
{
    let mut at: usize = 0;
    for _ in 0..k {
        at = word_from(line, at).to;
    }
    word_from(line, at)
}

// A word as it was typed, or its beginning.
fn show_typed(system: &System, typed: &[u8]) {
    let n = typed.len().min(SHOWN);
    tell_typed(system, STDOUT, &typed[..n]);
    if n < typed.len() {
        say(system, b" ..");
    }
}

// What should stand at an index of the use section; behind its end nothing should.
fn show_due(system: &System, table: &[u16], i: usize) {
    if 3 * word(table, 0) + 1 <= i {
        say(system, b" stands there, and the list should have ended\n");
    } else {
        say(system, b" stands there, and it should be ");
        say_number(system, word(table, i) as u64);
        say(system, b"\n");
    }
}

// The word of a list that is wrong, and where it stands.
fn show_wrong(
    system: &System,
    list: &[u8],
    text: &[u8],
    typed: &[u8],
    place: usize,
    table: &[u16],
    i: usize,
) {
    tell_where(system, STDOUT, list, text, place);
    say(system, b": wrong, word ");
    say_number(system, i as u64);
    say(system, b": ");
    show_typed(system, typed);
    show_due(system, table, i);
    tell_place(system, STDOUT, text, place);
}

// A list that ends too soon.
fn show_short(system: &System, list: &[u8], table: &[u16], i: usize) {
    tell_file(system, STDOUT, list);
    say(system, b": wrong, word ");
    say_number(system, i as u64);
    say(system, b": the list ends too soon, and ");
    say_number(system, word(table, i) as u64);
    say(system, b" should stand there\n");
}

// Which word is wrong, what stands there and what should.
fn show_difference(
    system: &System,
    source: &[u8],
    list: &[u8],
    text: &[u8],
    line: &[u8],
    i: usize,
) {
    let mut table = [0u16; 32768];
    read(source, &mut table);
    let w = nth_word(line, i);
    let a = w.from;
    let b = w.to;
    if a == b {
        show_short(system, list, &table, i);
        return;
    }
    show_wrong(system, list, text, &line[a..b], a, &table, i);
}

fn show_yes(system: &System, name: &[u8], list: &[u8]) {
    tell_file(system, STDOUT, list);
    say(system, b": yes, the uses of ");
    tell_file(system, STDOUT, name);
    say(system, b"\n");
}

// What is said of a list, as one line of numbers.
fn show_plain(system: &System, c: Checked) {
    match c {
        Checked::Yes => say(system, b"0\n"),
        Checked::Refused(r) => {
            say(system, b"1 ");
            say_number(system, r.answer.number as u64);
            say(system, b" ");
            say_number(system, r.place.at as u64);
            say(system, b"\n");
        }
        Checked::Wrong(i) => {
            say(system, b"2 ");
            say_number(system, i as u64);
            say(system, b"\n");
        }
    }
}

fn of_checked(c: Checked) -> u8
    ensures { result ≡ of_checked c }
{
    match c {
        Checked::Yes => status::GOOD,
        Checked::Refused(_) | Checked::Wrong(_) => status::BAD,
    }
}

// What is said of a source and the numbers of a list, whose words stand in `line`.
fn tell_checked(
    system: &System,
    name: &[u8],
    source: &[u8],
    list: &[u8],
    text: &[u8],
    line: &[u8],
    numbers: &[i64],
    plain: bool,
) -> u8
    ensures { CheckStatus source.now numbers.now result }
{
    let c = check_list(source, numbers);
    let ended = of_checked(c);
    if plain {
        show_plain(system, c);
        return ended;
    }
    match c {
        Checked::Yes => show_yes(system, name, list),
        Checked::Refused(r) => {
            show_answer(
                system,
                name,
                source,
                b": refused, ",
                r.answer.number,
                r.place.at,
            )
        }
        Checked::Wrong(i) => show_difference(system, source, list, text, line, i),
    }
    ended
}

// A list that is none: the first word of it that is no number.
fn unlisted(system: &System, list: &[u8], text: &[u8], line: &[u8], i: usize) {
    let w = nth_word(line, i);
    complain(system, b"deed: ");
    tell_where(system, STDERR, list, text, w.from);
    complain(system, b": this is no number, so there is no list\n");
    tell_place(system, STDERR, text, w.from);
    see_help(system);
}

// A list as it was sent, held against a source.
fn check_text(
    system: &System,
    name: &[u8],
    source: &[u8],
    list: &[u8],
    text: &[u8],
    plain: bool,
) -> u8
    requires { length text.now ≤ 65536 }
    ensures { SentStatus source.now text.now result }
{
    let mut row = io::large_buffer();
    let mut numbers = [0i64; 32768];
    let n = list_line(text, &mut row);
    match list_in(&row[..n], &mut numbers) {
        Ok(k) => {
            tell_checked(
                system,
                name,
                source,
                list,
                text,
                &row[..n],
                &numbers[..k],
                plain,
            )
        }
        Err(Unlisted::NoNumber(i)) => {
            unlisted(system, list, text, &row[..n], i);
            status::NOTHING
        }
        Err(Unlisted::Full) => {
            complain(system, b"deed: a LIST has at most 32,768 numbers\n");
            status::NOTHING
        }
    }
}

// A list that a file holds, or standard input, held against the source of another file.
fn check_file(system: &System, name: &[u8], list: &[u8], plain: bool) -> u8
    ensures { result ≤ undone }
{
    let mut room = io::large_buffer();
    let mut text = io::large_buffer();
    let Some(n) = load(system, name, &mut room) else {
        see_help(system);
        return status::NOTHING;
    };
    let Some(k) = load_list(system, list, &mut text) else {
        see_help(system);
        return status::NOTHING;
    };
    check_text(system, name, &room[..n], list, &text[..k], plain)
}

// Standard input is one of the two, or none.
pub fn obey(system: &System, line: &[u8], at: usize) -> u8
    ensures { result ≤ undone }
{
    let w = next_operand(line, at);
    let a = w.from;
    let b = w.to;
    let v = next_operand(line, b);
    let c = v.from;
    let d = v.to;
    if is_standard(&line[a..b]) {
        if is_standard(&line[c..d]) {
            misused(
                system,
                b"standard input is the FILE or the LIST, and not both",
                b"",
            );
            return status::NOTHING;
        }
    }
    check_file(system, &line[a..b], &line[c..d], is_plain(line))
}
