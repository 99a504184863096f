// The job `check_list`: a source and a list that somebody sent. It asks nothing of either, and changes nothing that is lent.
ghost use Rattle.std.specs.Prelude.{◌≡◌, ◌+◌, ◌*◌, ◌≤◌, min, length, get_or};
ghost use Rattle.checking.specs.Checking.{is_word, first_wrong, answer_of, ChecksRows, Checks};
ghost use Rattle.checking.specs.model.Comparing.{agreed, section};

use crate::Checked;
use answers::Verdict;
use reading::reading::read;
use table::sections::word;

// How many words a use has in the table.
const WIDE: usize = 3;

// Whether a number of a list is this word: one below 0 or past 16 bits is none.
fn is_word(number: i64, word: u16) -> bool
    ensures { result ≡ is_word number word }
{
    number == word as i64
}

// How many words of a list are the ones that should stand there, up to the first that is not.
fn agreeing(list: &[i64], words: &[u16]) -> usize
    ensures { result ≡ agreed list.now words.now }
{
    for i in 0..words.len() {
        if list.len() <= i {
            return i;
        }
        if !is_word(list[i], words[i]) {
            return i;
        }
    }
    words.len()
}

// A list against the use section of a table whose rows are `wide` words: of each row the first `width` stand in the list.
fn compared(list: &[i64], table: &[u16], wide: usize, width: usize) -> Checked
    requires { (width ≤ wide) × (1 + get_or table.now 0 0 * wide ≤ length table.now) }
    ensures { result ≡ answer_of (first_wrong list.now (section width wide table.now)) }
{
    if agreeing(list, &table[..1]) == 0 {
        return Checked::Wrong(0);
    }
    let mut at = 1;
    let rows = word(table, 0);
    for i in 0..rows {
        let from = 1 + i * wide;
        let n = agreeing(&list[at..], &table[from..from + width]);
        at += n;
        if n < width {
            return Checked::Wrong(at);
        }
    }
    if at < list.len() {
        return Checked::Wrong(at);
    }
    Checked::Yes
}

// Lists whose rows are the first `width` words of a use, or all of them where it has no more.
pub fn check_rows(source: &[u8], list: &[i64], width: usize) -> Checked
    ensures { ChecksRows width source.now list.now result }
{
    let mut table = [0u16; 32768];
    match read(source, &mut table) {
        Verdict::Accepted => compared(list, &table, WIDE, width.min(WIDE)),
        Verdict::Refused(r) => Checked::Refused(r),
    }
}

// Lists in the use section's form.
pub fn check_list(source: &[u8], list: &[i64]) -> Checked
    ensures { Checks source.now list.now result }
{
    check_rows(source, list, WIDE)
}
