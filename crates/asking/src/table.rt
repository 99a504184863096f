// The commands. A row a command: its word, the words that it wants behind it, in capitals, and its options; = stands before what an option
// has behind it. The choice of a command, what is said of a wrong one, the usage and the help come from these rows.
ghost use Rattle.std.specs.Prelude.{◌≡◌, ◌||◌, ◌≤◌, length, eqb};
ghost use Rattle.asking.specs.Words.{words_of, has, LineOf};
ghost use Rattle.asking.specs.Options.{operands_from};
ghost use Rattle.asking.specs.Table.{row_in, row_of, names, more, matched};

use crate::options::next_operand;
use crate::sorts::{Sort, first};
use crate::words::{Word, has_word, line_of};

// Each row is ended by a zero; its line goes on with the next.
pub const ROWS: [u8; 211] = *b"\
read FILE --plain\0\
uses FILE --list --plain\0\
levels FILE\0\
page FILE\0\
code FILE\0\
write FILE --plain\0\
check FILE LIST --plain\0\
run FILE [-] [NUMBER ..] --strict --values --plain -l =LIMIT -c =CELLS -o =ROOM\0\
do FILE\0\
help\0\
";

// The row of a word in a table, as a line of words; nothing where no row has that word.
fn row_in(table: &[u8], word: &[u8], row: &mut [u8]) -> usize
    ensures { LineOf (row_in (words_of table.now) word.now) row.old result row.new }
{
    let w = first(table, 0, Sort::Named, word);
    let a = w.from;
    let b = w.to;
    line_of(&table[a..b], row)
}

// The row of a command's word, as a line of words; nothing where no command has that word.
pub fn row_line(word: &[u8], row: &mut [u8]) -> usize
    ensures { LineOf (row_of word.now) row.old result row.new }
{
    row_in(&ROWS, word, row)
}

// How the words of a command fit its row: well; or the word of the row for which there is none; or the word that is one too many.
#[derive(Clone, Copy)]
pub struct Fit {
    pub good: bool,
    pub missing: Word,
    pub extra: Word,
}

// Whether nothing is left, or more words are welcome.
fn ends(more: bool, from: usize, to: usize) -> bool
    ensures { result ≡ (more || eqb from to) }
{
    more || from == to
}

// How the words of a line from `at` on fit a row.
pub fn fits(row: &[u8], line: &[u8], at: usize) -> Fit
    ensures good { result.good ≡ matched (names (words_of row.now)) (more (words_of row.now)) (operands_from line.now at) }
    ensures missing { (result.missing.from ≤ result.missing.to) × (result.missing.to ≤ length row.now) }
    ensures extra { (result.extra.from ≤ result.extra.to) × (result.extra.to ≤ length line.now) }
{
    let open = has_word(row, 0, b"..]");
    let mut i: usize = 0;
    let mut p = at;
    loop {
        let name = first(row, i, Sort::Capital, b"");
        let w = next_operand(line, p);
        if name.from == name.to {
            return Fit {
                good: ends(open, w.from, w.to),
                missing: name,
                extra: w,
            };
        }
        if w.from == w.to {
            return Fit {
                good: false,
                missing: name,
                extra: w,
            };
        }
        i = name.to;
        p = w.to;
    }
}
