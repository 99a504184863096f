// Where a note can open, and where a remark runs.
ghost use Rattle.std.specs.Prelude.{◌≡◌, ◌+◌, ◌≤◌, [], length, drop};
ghost use Rattle.symbols.specs.Scan.{behind as behind_of, ends_remark, note as note_of, counted as counted_of, judged as judged_of};
ghost use Rattle.symbols.specs.Symbols.{is};
ghost use Rattle.symbols.specs.model.Steps.{turn_at};
ghost use Rattle.symbols.specs.declared.Symbol.TheVariants.{Comment};
ghost use Rattle.symbols.specs.declared.Lexeme.TheVariants.{Is, Large};

use crate::lexemes::lexeme;
use crate::text::{find, is_blank};
use crate::{Context, Lexeme, Symbol, Turn};
use answers::Answer;

// The context behind a symbol.
fn behind(s: Symbol) -> Context
    ensures { result ≡ behind_of s }
{
    match s {
        Symbol::Semicolon | Symbol::Begin => Context::Opens,
        Symbol::End => Context::Remark,
        _ => Context::Plain,
    }
}

fn ends_remark(s: Symbol) -> bool
    ensures { result ≡ ends_remark s }
{
    matches!(s, Symbol::End | Symbol::Else | Symbol::Semicolon)
}

fn is_comment(s: Symbol) -> bool
    ensures { result ≡ is s Comment }
{
    matches!(s, Symbol::Comment)
}

// A note that opens at `at`: 'comment' has k bytes more, and the note goes through the next `;`.
fn note(source: &[u8], at: usize, k: usize) -> Turn
    requires { at + 1 + k ≤ length source.now }
    ensures { result ≡ note_of k (drop (at + 1) source.now) }
{
    let end = find(source, at + 1 + k, b';');
    if source.len() <= end {
        return Turn::Refuse(Answer::NO_SYMBOL);
    }
    Turn::Pass(Context::Opens, end - at)
}

// A symbol that counts, where `room` more may come.
fn counted(room: usize, s: Symbol, k: usize) -> Turn
    ensures { result ≡ counted_of room s k }
{
    if room == 0 {
        return Turn::Refuse(Answer::TOO_LARGE);
    }
    Turn::Keep(s, behind(s), k)
}

// A symbol at `at` in its context.
#[tactic(auto, unfolding(crate::specs::Scan::judged))]
fn judged(source: &[u8], at: usize, room: usize, c: Context, s: Symbol, k: usize) -> Turn
    requires { at + 1 + k ≤ length source.now }
    ensures { result ≡ judged_of room c (Is s k) (drop (at + 1) source.now) }
{
    match c {
        Context::Opens => {
            if is_comment(s) {
                return note(source, at, k);
            }
            counted(room, s, k)
        }
        Context::Plain => counted(room, s, k),
        Context::Remark => {
            if ends_remark(s) {
                return counted(room, s, k);
            }
            Turn::Pass(Context::Remark, k)
        }
    }
}

// A name or number over its limit: in a remark sizes are not tested.
#[tactic(auto, unfolding(crate::specs::Scan::judged))]
fn oversized(c: Context, k: usize) -> Turn
    ensures { result ≡ judged_of 0 c (Large k) [] }
{
    match c {
        Context::Opens | Context::Plain => Turn::Refuse(Answer::TOO_LARGE),
        Context::Remark => Turn::Pass(Context::Remark, k),
    }
}

// What is done at the byte at `at`.
pub fn turn(source: &[u8], at: usize, room: usize, c: Context) -> Turn
    ensures { result ≡ turn_at room c source.now at }
{
    if source.len() <= at {
        return Turn::Refuse(Answer::NO_SYMBOL);
    }
    if is_blank(source[at]) {
        return Turn::Pass(c, 0);
    }
    match lexeme(source, at) {
        Lexeme::Is(s, k) => judged(source, at, room, c, s, k),
        Lexeme::Large(k) => oversized(c, k),
        Lexeme::Nothing => Turn::Refuse(Answer::NO_SYMBOL),
    }
}
