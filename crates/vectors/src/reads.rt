// What `read` answers, against the first line of a text: the answer, its place, and the words of the uses behind their number.
ghost use Rattle.std.specs.Prelude.{◌≡◌, get_or};
ghost use Rattle.vectors.specs.Listed.{same_words, same_uses, answered_by, accepted_by, ReadTold};

use crate::tally::Tally;
use crate::texts::number_at;
use answers::Verdict;
use reading::reading::read;

// Stands for the number of words of uses where they are not listed.
const UNLISTED: u64 = 99999;

// A word; 0 where there is none.
pub fn word_at(words: &[u16], i: usize) -> u16
    ensures { result ≡ get_or words.now i 0 }
{
    words.get(i).copied().unwrap_or(0)
}

// Whether the numbers from `from` on are these words.
fn same_words(words: &[u16], text: &[u8], from: usize) -> bool
    ensures { result ≡ same_words words.now text.now from }
{
    let mut at = from;
    for i in 0..words.len() {
        let listed = number_at(text, at);
        let word = word_at(words, i);
        if listed.value != word as u64 {
            return false;
        }
        at = listed.next;
    }
    true
}

// Whether the uses of an accepted source are those listed behind the answer and the place.
pub fn same_uses(table: &[u16], text: &[u8]) -> bool
    ensures { result ≡ same_uses table.now text.now }
{
    let place = number_at(text, number_at(text, 0).next);
    let listed = number_at(text, place.next);
    if listed.value == UNLISTED {
        return true;
    }
    let uses = word_at(table, 0);
    let end = 3 * uses as usize + 1;
    if table.len() < end {
        return false;
    }
    listed.value == (end - 1) as u64 && same_words(&table[1..end], text, listed.next)
}

// Whether an answer and its place are those listed.
pub fn answered(verdict: Verdict, text: &[u8]) -> bool
    ensures { result ≡ answered_by verdict text.now }
{
    let answer = number_at(text, 0);
    let place = number_at(text, answer.next);
    verdict.answer().number as u64 == answer.value && verdict.place() as u64 == place.value
}

pub fn accepted(verdict: Verdict) -> bool
    ensures { result ≡ accepted_by verdict }
{
    verdict.answer().number == 0
}

// A source read, and compared.
pub fn compare(t: Tally, name: &[u8], source: &[u8], text: &[u8]) -> Tally
    ensures { ReadTold source.now text.now t result }
{
    let mut table = [0u16; 32768];
    let verdict = read(source, &mut table);
    let told = t.check(answered(verdict, text), name, b"read answers otherwise");
    if accepted(verdict) {
        return told.check(same_uses(&table, text), name, b"the uses differ");
    }
    told
}
