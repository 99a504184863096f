// What the tool says of itself. The commands, what they want and their options are the rows of the table; what is said of each stands here, in
// the same order.
use asking::table::ROWS;
use asking::words::{line_of, word_from};
use showing::system::{STDERR, STDOUT, System};
use showing::text::{complain, say, tell};

// What each command does, a paragraph a row of the table, ended by a zero.
const ABOUT: [u8; 1620] =
    *b"      whether the program is accepted; if not, the refusal: line and column, number, words, and a mark under the place
\0      each use of a name: line and column, name, kind, and where its declaration stands; with --list the use section
      alone: how many uses, then of each the place, the kind and the place of its declaration, in bytes from 0, and a
      refusal goes to standard error
\0      each block and each procedure's body: its level, its place and what it declares
\0      the source as a page of HTML: each name tied to what it means, or the refusal marked
\0      the translation, instruction by instruction
\0      the program in one layout, a statement a line, without notes and remarks; a refusal goes to standard error, so
      that a page or nothing comes of deed write FILE >PAGE
\0      whether LIST, numbers separated by blanks, commas or line ends, is the use section of FILE; if not, which word
      is wrong, counted from 0, what stands there and what should
\0      runs the program on these numbers, and behind them, where - stands, on those of standard input; at most LIMIT
      instructions (1000000), CELLS cells (8192, the most) and ROOM numbers written, three an output (196608, the
      most); a real is shown with the fewest digits that give it back; a run that ends and has not taken each number
      is warned of, and with --strict it is a wrong one; with --values standard output has the outputs of a good run
      and nothing else, one a line
\0      the commands that FILE holds, one a line, each shown before what it gives; a line that begins with # is none
\0      these lines
\0";

// Whether a word of a row is an option.
fn is_option(word: &[u8]) -> bool {
    2 <= word.len() && word[0] == b'-'
}

// Whether a word of a row is what an option has behind it.
fn is_value(word: &[u8]) -> bool {
    2 <= word.len() && word[0] == b'='
}

// What an option has behind it, without the = before it.
fn tell_value(system: &System, to: i32, word: &[u8]) {
    if word.len() == 0 {
        return;
    }
    tell(system, to, b" ");
    tell(system, to, &word[1..]);
    tell(system, to, b"]");
}

// A word of a row behind the one before it, in the brackets that show what may be left out.
fn tell_word(system: &System, to: i32, word: &[u8], next: &[u8]) {
    if is_value(word) {
        tell_value(system, to, word);
    } else if is_option(word) {
        tell(system, to, b" [");
        tell(system, to, word);
        if !is_value(next) {
            tell(system, to, b"]");
        }
    } else {
        tell(system, to, b" ");
        tell(system, to, word);
    }
}

// The words of a row, whose line this is.
fn tell_words(system: &System, to: i32, line: &[u8]) {
    let mut at: usize = 0;
    // Kept: no plainer, the place moves on by the word that was read.
    while at < line.len() {
        let w = word_from(line, at);
        let a = w.from;
        let b = w.to;
        if a == b {
            return;
        }
        let v = word_from(line, b);
        let c = v.from;
        let d = v.to;
        tell_word(system, to, &line[a..b], &line[c..d]);
        at = b;
    }
}

// A row of the table as it is asked.
fn tell_row(system: &System, to: i32, row: &[u8]) {
    let mut line = [0u8; 256];
    let n = line_of(row, &mut line);
    tell(system, to, b"  deed");
    tell_words(system, to, &line[..n]);
    tell(system, to, b"\n");
}

fn tell_paragraph(system: &System, to: i32, long: bool, text: &[u8]) {
    if long {
        tell(system, to, text);
    }
}

// The rows of a table; where all is to be said, each with its paragraph.
fn tell_table(system: &System, to: i32, long: bool, rows: &[u8], about: &[u8]) {
    let mut at: usize = 0;
    let mut i: usize = 0;
    // Kept: no plainer, both places move on by the words that were read.
    while at < rows.len() {
        let w = word_from(rows, at);
        let a = w.from;
        let b = w.to;
        if a == b {
            return;
        }
        tell_row(system, to, &rows[a..b]);
        let v = word_from(about, i);
        let c = v.from;
        let d = v.to;
        tell_paragraph(system, to, long, &about[c..d]);
        at = b;
        i = d;
    }
}

pub fn usage(system: &System) {
    complain(system, b"usage:\n");
    tell_table(system, STDERR, false, &ROWS, &ABOUT);
}

pub fn help(system: &System) {
    say(
        system,
        b"deed: reads a deed's program, written in ALGOL 60, and runs it\n\n",
    );
    tell_table(system, STDOUT, true, &ROWS, &ABOUT);
    say(
        system,
        b"
A FILE that is read has at most 16,384 bytes, and a LIST under 65,536; - for one of them is standard input. Options
stand anywhere, each once. Lines and columns are counted from 1, in bytes.

The exit status of ./deed is 0 where the source was accepted, the run ended or the list is right, 1 where it was
refused, stopped or wrong, and 2 where nothing was done or where not all of the output could be written; of do the
greatest of its commands.

With --plain, read, uses and run give other programs one line of numbers: the answer and its place in bytes from 0;
for uses then the words of the use section, which are the number of uses and three numbers a use; for run then
instructions done, numbers taken, numbers written and the numbers written themselves, three an output: 0, the whole
number and 0, or 1 and the two halves of a real's bits, the lower one first. write gives such a line of three
numbers, answer, place and length of the text, and behind it the text. check gives 0 for a list that is right, 1,
number and place for a refusal, and 2 and the index for a wrong word.
",
    );
}
